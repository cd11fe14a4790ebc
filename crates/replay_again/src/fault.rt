//! Why a script is not played to its end.
use edit_lines::ReplayFault;
use std::alloc::AllocError;
use thiserror::Error;

/// Why a script is not played to its end.
#[derive(Clone, Copy, Debug, Error)]
pub enum PlayFault {
    #[error("{0}")]
    Replay(ReplayFault),
    /// A call answered Memory, and something of a connection was another after it.
    #[error("a refusal changed a connection")]
    Changed,
}

impl From<ReplayFault> for PlayFault {
    fn from(fault: ReplayFault) -> PlayFault {
        PlayFault::Replay(fault)
    }
}

impl From<AllocError> for PlayFault {
    fn from(_: AllocError) -> PlayFault {
        PlayFault::Replay(ReplayFault::Memory)
    }
}
