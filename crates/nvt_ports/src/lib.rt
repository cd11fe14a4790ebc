//! Ports: where a target that is served gets connections, bytes, lines of edits and the time from, and where
//! it sends its output. `Ports` is the trait that real sockets implement too; `MemoryPorts` serves tests: it
//! goes through a script, and keeps all that it handed out and took. Nothing here knows a target.
//!
//! What ports over sockets decide stands here too, without a socket: whether what is kept for a host is sent now, joined
//! with what may come, or waits; whose turn it is; how much is read at a time; when a pause is made; where a line of
//! edits ends; and when a host is given up. Each is exact, and times are handed in.
#![tactic(auto)]

pub mod backoff;
pub mod connect_watch;
pub mod edit_pace;
pub mod event;
mod front;
pub mod line_splitter;
pub mod lingering;
pub mod looks;
pub mod memory;
pub mod outbox;
pub mod pause;
pub mod portion;
pub mod ports;
pub mod seats;
pub mod send_buffer;
pub mod sending;
pub mod speaker;
mod step;
pub mod tenure;
pub mod timer;
pub mod turn_order;

pub use backoff::Backoff;
pub use connect_watch::ConnectWatch;
pub use edit_pace::EditPace;
pub use event::{PortEvent, PortFault};
pub use line_splitter::{LINE_LIMIT, LineSplitter};
pub use lingering::{Linger, Lingering, LingeringHost};
pub use looks::Looks;
pub use memory::MemoryPorts;
pub use outbox::Outbox;
pub use pause::Pause;
pub use portion::{Portion, StreamWalk, piece_len};
pub use ports::{PIECE_MAX, Ports, SLOTS};
pub use seats::Seats;
pub use send_buffer::SendBuffer;
pub use sending::{KEPT_MAX, Sending, Standing, Taking};
pub use speaker::{EDITORS_MAX, PORTS_MAX, SPEAKERS, Speaker};
pub use step::PortStep;
pub use tenure::{GivenUp, Tenure, TenureStanding};
pub use timer::Timer;
pub use turn_order::{LookOutcome, TurnOrder};
