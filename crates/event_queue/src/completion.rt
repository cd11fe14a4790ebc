//! The completion of an event request.
ghost use Rattle.std.specs.Prelude.{◌≡◌};
ghost use Rattle.event_queue.specs.Completion.{completion_of};

use crate::kind::EventKind;

/// That a request is completed, with success.
#[derive(Clone, Copy, Default, PartialEq, Eq)]
pub struct Completion {
    /// The command identifier of the request.
    pub cid: u16,
    /// The result of the completion queue entry.
    pub result: u64,
}

impl Completion {
    // The completion of that request by that kind.
    pub(crate) fn new(cid: u16, kind: EventKind) -> Completion
        ensures { result ≡ completion_of kind cid }
    {
        Completion {
            cid,
            result: kind.result(),
        }
    }
}
