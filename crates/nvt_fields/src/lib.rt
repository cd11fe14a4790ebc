//! What several layers of NVMe over TCP share: qualified names, statuses, the types of PDUs, and
//! numbers and texts at their places in a field. It knows no PDU's layout and no command.
#![tactic(auto)]

pub mod field;
pub mod name;
pub mod pdu_type;
pub mod status;
pub mod termination;
pub mod window;

pub use field::{u16_at, u32_at, u64_at, write_spaced, write_zeroed};
pub use name::{DISCOVERY_NQN, Nqn, NqnFault, nqn_field, up_to_zero};
pub use pdu_type::PduType;
pub use status::Status;
pub use termination::FatalErrorStatus;
pub use window::write_part;
