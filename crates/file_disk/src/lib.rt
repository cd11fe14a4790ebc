//! A disk in a regular file or a block device. It has what its file held, overwritten by what the calls
//! of the system that were made on it took; a call that was cut short goes on. Nothing is supposed of
//! what a call answers. The crate knows no namespace, no logical block and no command.
#![tactic(auto)]

pub mod calls;
pub mod disk;
pub mod host;
pub mod laws;
pub mod memory;
pub mod opening;
mod ranges;
mod record;
mod replayed;
pub mod start;

pub use calls::FileCalls;
pub use disk::FileDisk;
pub use host::HostFile;
pub use memory::{Answer, MemoryFile};
pub use opening::{MAX_UNITS, OpenError, measure, open};
pub use start::{Start, Unknown};
