//! What an admin command comes to.
ghost use Rattle.std.specs.Prelude.{◌≡◌};
ghost use Rattle.admin_queue.specs.Outcome.{done, returned};
ghost use Rattle.admin_queue.specs.Payload.{payload_len};

use crate::NoticeUpdate;
use crate::payload::Payload;
use nvt_fields::Status;
use pdu_codec::{SglType, Sqe};

/// What is done about a command, or the status that it is refused with.
pub type Outcome = Result<Accepted, Status>;

/// What is done about a command that is not refused.
#[derive(Clone, Copy)]
pub enum Accepted {
    Answered(Success),
    /// An event request waits until there is something to tell.
    Waits,
}

/// What a command that succeeds gives.
#[derive(Clone, Copy)]
pub struct Success {
    pub result: u64,
    pub payload: Option<Payload>,
    pub effect: Effect,
}

/// What a command does to its controller.
#[derive(Clone, Copy)]
pub enum Effect {
    Nothing,
    /// It starts the Keep Alive Timer again.
    KeepAlive,
    /// It sets the keep alive timeout, in ms, and starts the timer again.
    KeepAliveTimeout(u32),
    /// It changes what its host is to be told.
    Notices(NoticeUpdate),
}

// Without data.
pub(crate) fn done(value: u64, effect: Effect) -> Outcome
    ensures { result ≡ done value effect }
{
    Ok(Accepted::Answered(Success {
        result: value,
        payload: None,
        effect,
    }))
}

// The data goes to the host as a whole: the descriptor has to ask for all of it, in a transport data
// block (Base 2.0, section 4.1.1).
pub(crate) fn returned(payload: Payload, effect: Effect, sqe: &Sqe<'_>) -> Outcome
    ensures { result ≡ returned payload effect sqe.now.entry.now }
{
    let sgl = sqe.sgl1();
    if sgl.sgl_type != SglType::Transport {
        return Err(Status::SGL_TYPE_INVALID);
    }
    if sgl.len as usize != payload.len() {
        return Err(Status::DATA_SGL_LENGTH_INVALID);
    }
    Ok(Accepted::Answered(Success {
        result: 0,
        payload: Some(payload),
        effect,
    }))
}
