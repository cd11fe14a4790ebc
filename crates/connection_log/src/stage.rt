//! Which of a target's responses answers the Connect of a connection.
ghost use Rattle.std.specs.Prelude.{◌≡◌, ◌≤◌, length};
ghost use Rattle.std.specs.Option.{option_copied};
ghost use Rattle.connection_log.specs.Stages.{after_reply, after_request, after_response, told_by};
ghost use Rattle.connection_log.specs.Stages.{capsule_header, is_connect, is_success, response_in};

use nvt_fields::Status;
use pdu_codec::Sqe;
use pdu_words::{Explanation, ResponseFields, explain};

/// What is known of the Connect of a connection. An answer is a CapsuleResp, and each capsule of a command gets one.
#[derive(Clone, Copy, Debug, PartialEq, Eq)]
pub enum Stage {
    /// No Connect waits for its answer. So many capsules that came wait for theirs.
    Before { ahead: u32 },
    /// A Connect came whole. So many answers come before its own, and `passed` says whether bytes came behind it, which
    /// were not looked at.
    Waits { ahead: u32, passed: bool },
    /// A Connect succeeded; or one was refused, and which answer the next one gets is not known. What the host sends is
    /// not looked at.
    Over,
}

// The type of a CapsuleCmd, and the length of its header (TCP Transport 1.0, section 3.6).
const CAPSULE_CMD: u8 = 0x04;

pub(crate) const CAPSULE_LEN: usize = 72;

// The opcode of Fabrics commands, and the type of Connect (Base 2.0, section 6).
const FABRICS: u8 = 0x7F;

const CONNECT: u8 = 0x01;

// After a whole PDU of the host that begins with these bytes.
#[tactic(auto, unfolding(crate::specs::Stages::after_request))]
pub(crate) fn after_request(front: &[u8], ahead: u32) -> Stage
    ensures { result ≡ after_request front.now ahead }
{
    let Some(header) = capsule_header(front) else {
        return Stage::Before { ahead };
    };
    if is_connect(&Sqe::read(header)) {
        return Stage::Waits {
            ahead,
            passed: false,
        };
    }
    Stage::Before {
        ahead: ahead.saturating_add(1),
    }
}

// The header of the CapsuleCmd that begins with these bytes.
pub(crate) fn capsule_header(front: &[u8]) -> Option<&[u8; 72]>
    ensures { option_copied result ≡ capsule_header front.now }
{
    if front.len() < CAPSULE_LEN || front[0] != CAPSULE_CMD {
        return None;
    }
    Some(<&[u8; 72]>::try_from(&front[0..CAPSULE_LEN]).unwrap())
}

pub(crate) fn is_connect(sqe: &Sqe) -> bool
    ensures { result ≡ is_connect sqe.now.entry.now }
{
    sqe.opcode() == FABRICS && sqe.fctype() == CONNECT
}

// What the response says that begins with these bytes.
#[tactic(auto, unfolding(crate::specs::Stages::response_in))]
pub(crate) fn response_in(front: &[u8]) -> Option<ResponseFields>
    ensures { result ≡ response_in front.now }
{
    match explain(front, None) {
        Explanation::CapsuleResp { completion, .. } => Some(completion),
        _ => None,
    }
}

// What is told of a whole PDU of the target, which may be a response.
pub(crate) fn told_by(response: Option<ResponseFields>, stage: Stage) -> Option<ResponseFields>
    ensures { result ≡ told_by response stage }
{
    match stage {
        Stage::Waits { ahead: 0, .. } => response,
        _ => None,
    }
}

pub(crate) fn after_reply(response: Option<ResponseFields>, stage: Stage) -> Stage
    ensures { result ≡ after_reply response stage }
{
    match response {
        Some(completion) => after_response(is_success(completion.status), stage),
        None => stage,
    }
}

// After a response, to a command that succeeded or did not.
fn after_response(succeeded: bool, stage: Stage) -> Stage
    ensures { result ≡ after_response succeeded stage }
{
    match stage {
        Stage::Before { ahead } => Stage::Before {
            ahead: ahead.saturating_sub(1),
        },
        Stage::Waits { ahead: 0, passed } if succeeded || passed => Stage::Over,
        Stage::Waits { ahead: 0, .. } => Stage::Before { ahead: 0 },
        Stage::Waits { ahead, passed } => Stage::Waits {
            ahead: ahead - 1,
            passed,
        },
        Stage::Over => Stage::Over,
    }
}

fn is_success(status: Status) -> bool
    ensures { result ≡ is_success status }
{
    status.sct == 0 && status.sc == 0
}
