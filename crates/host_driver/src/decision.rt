//! What a PDU leads to, as a value: decided by looking alone, before anything changes.
ghost use Rattle.std.specs.Prelude.{◌≡◌};
ghost use Rattle.host_driver.specs.Decision.{terminate};

use crate::phase::TransportLimits;
use nvt_fields::{FatalErrorStatus, Status};
use pdu_codec::{R2t, TermReq};

/// What a queue owes to a whole PDU.
#[derive(Clone, Copy)]
pub enum HostDecision {
    /// The ICResp is accepted: the Connect is sent.
    Initialize(TransportLimits),
    /// The Connect succeeded, for the controller of this identifier.
    Connect { cntlid: u16 },
    /// The Connect is refused: the queue fails.
    Refuse(Status),
    /// Data of this command came, and its completion is still owed.
    Receive { cid: u16 },
    /// Data of this command came, and stand for its completion with success too.
    ReceiveLast { cid: u16 },
    /// A command is completed.
    Complete(CommandCompletion),
    /// Data of a command are asked for, and sent at once.
    Send(R2t),
    /// The controller terminated the connection: the queue fails, and nothing is sent.
    Close(TermReq),
    /// The queue fails by an H2CTermReq.
    Terminate(HostTermination),
}

/// What a response says of the command that it completes.
#[derive(Clone, Copy, Debug, PartialEq, Eq)]
pub struct CommandCompletion {
    pub cid: u16,
    pub status: Status,
    /// What the command defines, in dwords 0 and 1 of the entry.
    pub result: u64,
}

/// Why a queue terminates its connection (TCP Transport 1.0, section 3.6).
#[derive(Clone, Copy, Debug, PartialEq, Eq)]
pub struct HostTermination {
    pub fes: FatalErrorStatus,
    /// The offset of the field in error, where the status asks for one.
    pub fei: u32,
}

pub(crate) fn terminate(fes: FatalErrorStatus, fei: u32) -> HostDecision
    ensures { result ≡ terminate fes fei }
{
    HostDecision::Terminate(HostTermination { fes, fei })
}
