//! Disks of units of 512 bytes, and a store that reads, writes, zeroes and compares ranges of their
//! units. A disk counts its failures, and a call answers a fault exactly where that count changed. It
//! counts its strays too: a read gives what was written exactly where that count did not rise. The crate
//! knows no namespace, no logical block and no command.
#![tactic(auto)]

mod compare;
pub mod disk;
pub mod failing;
pub mod laws;
pub mod memory;
mod pieces;
pub mod store;
pub mod straying;
mod turn;

pub use disk::{Disk, DiskFault, Faithful, UNIT_LEN};
pub use failing::FailingDisk;
pub use memory::MemoryDisk;
pub use store::Store;
pub use straying::StrayingDisk;
