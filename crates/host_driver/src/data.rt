//! The data of commands: what came, and what is asked for.
ghost use Rattle.std.specs.Prelude.{◌≡◌};
ghost use Rattle.host_driver.specs.Decision.{accepted, received, requested};

use crate::decision::{HostDecision, terminate};
use crate::outstanding::Outstanding;
use nvt_fields::FatalErrorStatus;
use pdu_codec::{DataHead, R2t};

/// What is owed to a C2HData that carries so many bytes, by the command that it names.
pub(crate) fn receive(command: Option<Outstanding>, head: DataHead, carried: usize) -> HostDecision
    ensures { result ≡ received command head carried }
{
    let Some(command) = command else {
        return terminate(FatalErrorStatus::InvalidHeaderField, 8);
    };
    if command.into == 0 {
        return terminate(FatalErrorStatus::InvalidHeaderField, 8);
    }
    if head.datal as usize != carried {
        return terminate(FatalErrorStatus::InvalidHeaderField, 16);
    }
    let end = u64::from(command.came) + u64::from(head.datal);
    if head.datao != command.came || end > u64::from(command.into) {
        return terminate(FatalErrorStatus::DataOutOfRange, 0);
    }
    accept(command, head, end)
}

// C2HData that are in their place, up to this end.
fn accept(command: Outstanding, head: DataHead, end: u64) -> HostDecision
    ensures { result ≡ accepted command head end }
{
    if !head.success {
        return HostDecision::Receive { cid: head.cccid };
    }
    if !head.last_pdu {
        return terminate(FatalErrorStatus::InvalidHeaderField, 1);
    }
    if end < u64::from(command.into) {
        return terminate(FatalErrorStatus::SequenceError, 0);
    }
    HostDecision::ReceiveLast { cid: head.cccid }
}

/// What is owed to an R2T, by the command that it names.
pub(crate) fn request(command: Option<Outstanding>, request: R2t) -> HostDecision
    ensures { result ≡ requested command request }
{
    let Some(command) = command else {
        return terminate(FatalErrorStatus::InvalidHeaderField, 8);
    };
    if command.out == 0 {
        return terminate(FatalErrorStatus::InvalidHeaderField, 8);
    }
    let end = u64::from(command.asked) + u64::from(request.r2tl);
    if request.r2to != command.asked || end > u64::from(command.out) {
        return terminate(FatalErrorStatus::DataOutOfRange, 0);
    }
    HostDecision::Send(request)
}
