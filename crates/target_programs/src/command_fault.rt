//! Why a command ends before its end.

use edit_lines::ReplayFault;
use file_disk::OpenError;
use std::alloc::AllocError;
use thiserror::Error;

/// Why a command ends before its end.
#[derive(Debug, Drop, Error)]
pub enum CommandFault {
    #[error(transparent)]
    Replay(#[from] ReplayFault),
    /// The file or block device of this path is no disk, or cannot be used.
    #[error("io\n{path}: {error}")]
    Disk { path: String, error: OpenError },
}

impl From<AllocError> for CommandFault {
    fn from(error: AllocError) -> CommandFault {
        CommandFault::Replay(ReplayFault::from(error))
    }
}
