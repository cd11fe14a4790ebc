//! Asynchronous Event Request (Base 2.0, section 5.2).
ghost use Rattle.std.specs.Prelude.{◌≡◌};
ghost use Rattle.admin_queue.specs.Controller.{controller_in};
ghost use Rattle.admin_queue.specs.EventRequest.{event_request};

use crate::NoticeUpdate;
use crate::controller::AdminController;
use crate::outcome::{Accepted, Effect, Outcome, done};
use event_queue::LimitExceeded;
use nvt_fields::Status;
use pdu_codec::Sqe;

/// It is answered at once where something is to be told, and waits else.
pub(crate) fn command(controller: &AdminController<'_>, sqe: &Sqe<'_>) -> Outcome
    ensures { result ≡ event_request (controller_in controller.now) sqe.now.entry.now }
{
    let cid = sqe.cid();
    match controller.notices.events().answer_to(cid) {
        Ok(Some(completion)) => done(
            completion.result,
            Effect::Notices(NoticeUpdate::Requested { cid }),
        ),
        Ok(None) => Ok(Accepted::Waits),
        Err(LimitExceeded) => Err(Status::ASYNCHRONOUS_EVENT_REQUEST_LIMIT_EXCEEDED),
    }
}
