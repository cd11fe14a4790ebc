//! What a host and an operator do, drawn at random beside the plain program of queues: commands, pieces of their data,
//! edits. It knows no target.

mod commands;
mod draw;
mod edits;

pub use commands::{capsule, piece, whole_read};
pub use draw::{below, bytes, io_queue, rarely};
pub use edits::{change, whole_disk};
