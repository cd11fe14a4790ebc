//! A response: the completion of a command, or of the Connect.
ghost use Rattle.std.specs.Prelude.{◌≡◌};
ghost use Rattle.host_driver.specs.Decision.{completed, connected, is_early, response_in};

use crate::decision::{CommandCompletion, HostDecision, terminate};
use crate::outstanding::Outstanding;
use crate::phase::Phase;
use nvt_fields::{FatalErrorStatus, PduType, Status};
use pdu_codec::Cqe;
use pdu_cut::PduView;

/// The response that a CapsuleResp brings.
pub(crate) fn response(pdu: &PduView<'_>) -> CommandCompletion
    requires { pdu.now.kind ≡ PduType.CapsuleResp }
    ensures { result ≡ response_in pdu.now }
{
    let header = <&[u8; 24]>::try_from(pdu.header()).unwrap();
    let entry = Cqe::read(header);
    CommandCompletion {
        cid: entry.cid(),
        status: entry.status(),
        result: entry.result(),
    }
}

/// What is owed to a response, by the command that it names.
pub(crate) fn complete(
    phase: Phase,
    command: Option<Outstanding>,
    response: CommandCompletion,
) -> HostDecision
    ensures { result ≡ completed phase command response }
{
    let Some(command) = command else {
        return terminate(FatalErrorStatus::InvalidHeaderField, 20);
    };
    if is_early(command, response.status) {
        return terminate(FatalErrorStatus::SequenceError, 0);
    }
    match phase {
        Phase::Connected(_) => HostDecision::Complete(response),
        Phase::Opened | Phase::Initialized(_) | Phase::Failed => connect(response),
    }
}

// Whether a command succeeds before all of its data came.
fn is_early(command: Outstanding, status: Status) -> bool
    ensures { result ≡ is_early command status }
{
    status.sct == 0 && status.sc == 0 && command.came < command.into
}

// The reply to the Connect.
fn connect(response: CommandCompletion) -> HostDecision
    ensures { result ≡ connected response }
{
    if response.status.sct == 0 && response.status.sc == 0 {
        HostDecision::Connect {
            cntlid: (response.result % 0x1_0000) as u16,
        }
    } else {
        HostDecision::Refuse(response.status)
    }
}
