//! A replay: a script of connections, run over a target that the lines of edits configured. What it
//! prints depends on its two texts and the sizes of the disks alone.
#![tactic(auto)]

mod connections;
pub mod playback;

pub use config_text::Lines;
pub use edit_lines::{ReplayFault, Reply, written};
pub use playback::{Playback, replay};
