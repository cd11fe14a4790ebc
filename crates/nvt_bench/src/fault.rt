//! Why nothing was measured.
use config_text::LineFault;
use nvt_config::{EditFault, NewFault};
use std::alloc::AllocError;
use thiserror::Error;

/// Why nothing was measured.
#[derive(Clone, Copy, Debug, Error)]
pub enum BenchFault {
    #[error("io")]
    Io,
    #[error("memory")]
    Memory,
    /// A file has a line that is no edit.
    #[error("{0}")]
    Line(LineFault),
    /// The set-up has an edit that is refused.
    #[error("{0}")]
    Edit(EditFault),
    /// A line was not written back as it was read.
    #[error("another line was written")]
    OtherLine,
    /// A command was not answered as it is to be.
    #[error("another answer was sent")]
    OtherAnswer,
}

impl From<LineFault> for BenchFault {
    fn from(fault: LineFault) -> BenchFault {
        BenchFault::Line(fault)
    }
}

impl From<EditFault> for BenchFault {
    fn from(fault: EditFault) -> BenchFault {
        BenchFault::Edit(fault)
    }
}

impl From<NewFault> for BenchFault {
    fn from(_: NewFault) -> BenchFault {
        BenchFault::Memory
    }
}

impl From<AllocError> for BenchFault {
    fn from(_: AllocError) -> BenchFault {
        BenchFault::Memory
    }
}
