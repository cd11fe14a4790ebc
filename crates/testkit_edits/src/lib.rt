//! Edits for tests, from names and texts that are lent, whether two edits or two configurations are
//! equal, names, configurations and disks that tests begin with, the PDUs that each host sends, and what
//! the tests of refused growths share.
//! The crates of tests share it; no other stands on it.
#![tactic(auto)]

mod disks;
pub mod growths;
mod line;
mod names;
mod pdus;
mod same;
mod same_edit;
mod start;

pub use disks::memory_disks;
pub use line::{Blocks, Line, edit};
pub use names::{A, B, H0, H1, H2, host_name};
pub use pdus::{capsule, ic_req};
pub use same::is_same;
pub use same_edit::is_same_edit;
pub use start::{config_over, on_disk, uuid_byte};
