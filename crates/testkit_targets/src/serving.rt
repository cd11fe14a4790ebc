//! A target that is served through ports in memory: the script of its hosts, lines and ticks, and what comes of it.
//! It owns both, so that a test borrows them, and their contracts are read in one crate. The tests of serving share it;
//! no other stands on it.

mod rig;
mod scenario;
mod script;

pub use rig::{Rig, counted};
pub use scenario::{Scenario, holds_over, try_over};
pub use script::{Step, add};
