//! Why a call of a queue is refused.

use nvt_fields::{FatalErrorStatus, Status};
use thiserror::Error;

/// Why a call of a queue is refused. After `Fault`, `Term` and `Refused` the queue has failed; after the
/// others it is as it was.
#[derive(Clone, Copy, Debug, PartialEq, Eq, Error)]
pub enum HostFault {
    /// The queue failed before.
    #[error("failed")]
    Failed,
    /// The controller's PDU breaks the transport's rules: an H2CTermReq says so (TCP Transport 1.0,
    /// section 3.6).
    #[error("fault {} {fei}", fes.code())]
    Fault { fes: FatalErrorStatus, fei: u32 },
    /// A C2HTermReq came. Its status may be one that no standard names.
    #[error("term {fes} {fei}")]
    Term { fes: u16, fei: u32 },
    /// The controller refused the Connect.
    #[error("status {:02x} {:02x}", .0.sct, .0.sc)]
    Refused(Status),
    /// The Connect is not answered yet.
    #[error("not connected")]
    NotConnected,
    /// A command with more than 131,072 bytes of data.
    #[error("too large")]
    TooLarge,
    /// As many commands are outstanding as the queue may have.
    #[error("queue full")]
    QueueFull,
    #[error("memory")]
    Memory,
}
