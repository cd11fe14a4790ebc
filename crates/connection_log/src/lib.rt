//! What is told of connections: who connected, how its Connect was answered, and how it ended; the text of each line; and
//! how many lines are printed a second. It looks at the bytes that go by on a connection, and keeps the first of the PDU
//! under way alone. It decides nothing of what a target does.
#![tactic(auto)]

mod asked;
pub mod laws;
pub mod lines;
pub mod pace;
pub mod pdu_front;
mod stage;
pub mod watch;

pub use asked::AskedFor;
pub use lines::{Ending, LogLine};
pub use pace::LinePace;
pub use pdu_front::PduFront;
pub use stage::Stage;
pub use watch::ConnectionWatch;
