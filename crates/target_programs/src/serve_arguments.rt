//! What the arguments of `run` ask for.

use crate::disks::DiskArgument;

/// What the arguments of `run` ask for.
#[derive(Drop)]
pub struct ServeArguments {
    /// The path of the file of edits.
    pub edits: String,
    /// The TCP port for lines of edits, at 127.0.0.1.
    pub control: u16,
    /// How many turns the target is served.
    pub turns: u64,
    pub disks: Vec<DiskArgument>,
    /// Whether nothing is told of who connects and what is edited.
    pub quiet: bool,
}
