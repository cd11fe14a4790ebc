//! Why a replay ends before its end.

ghost use Rattle.std.specs.Prelude.{◌≡◌};

use crate::reply::Reply;
use std::alloc::AllocError;
use thiserror::Error;

/// Why a replay ends before its end.
#[derive(Clone, Copy, Debug, PartialEq, Eq, Error)]
pub enum ReplayFault {
    /// This line of the edits, counted from 1, is refused.
    #[error("line {line}: {reply}")]
    EditLine { line: usize, reply: Reply },
    /// This line of the script, counted from 1, has none of its forms.
    #[error("stream line {line}")]
    StreamLine { line: usize },
    /// An allocation was refused.
    #[error("memory")]
    Memory,
    /// A file could not be read, or the output not be written.
    #[error("io")]
    Io,
    /// More than 256 disks, or one of more than 2^40 units.
    #[error("disks")]
    Disks,
}

impl From<AllocError> for ReplayFault {
    ghost use Rattle.edit_lines.specs.declared.fault.ReplayFault.TheVariants as fault;

    ghost from_gives = { λ _ e. e ≡ fault.Memory };

    fn from(_: AllocError) -> ReplayFault {
        ReplayFault::Memory
    }
}
