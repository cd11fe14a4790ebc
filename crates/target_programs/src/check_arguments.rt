//! What the arguments of `check` ask for.

use crate::disks::DiskArgument;

/// What the arguments of `check` ask for.
#[derive(Drop)]
pub struct CheckArguments {
    /// The path of the file of edits.
    pub edits: String,
    pub disks: Vec<DiskArgument>,
}
