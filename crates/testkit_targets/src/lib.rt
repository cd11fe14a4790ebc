//! A target of a test's own, and what a test does to it: each call says whether it went as it has to. `queues` has hosts
//! on it with I/O queues, `serving` a target that is served through ports in memory.
#![tactic(auto)]

mod memory;
pub mod queues;
pub mod serving;
mod target;

pub use memory::MemoryTarget;
pub use target::TestTarget;
