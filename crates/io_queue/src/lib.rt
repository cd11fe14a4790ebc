//! The I/O commands of a ready controller (NVM Command Set 1.0, section 3): which blocks of which disk
//! each one reads, writes or compares, or that the host is asked for its data, or why it is refused
//! (`begin`); the same once the data has come (`finish`); and that done to its disk, with the status that
//! answers it (`perform`), for which the disk makes room before (`make_room`). It looks at the
//! configuration and the disks that it is handed, and keeps nothing.
#![tactic(auto)]

mod act;
pub mod beginning;
mod blocks;
mod execution;
pub mod finishing;
pub mod laws;
pub mod opcode;
pub mod operation;
pub mod queue;
mod reach;
mod reply;

pub use beginning::{Begun, begin};
pub use execution::{make_room, perform};
pub use finishing::finish;
pub use opcode::IoOpcode;
pub use operation::{Action, Extent, Operation};
pub use queue::IoController;
pub use reply::DataFormat;
