//! Laws of the events of one controller, in the words of the subject. Each of these functions does
//! nothing: its contract is the law, whatever happened to the controller.
ghost use Rattle.event_queue.specs.Laws.{EditsAreTold, OneChangeIsOneEvent, ToldAsItHappened};
ghost use Rattle.event_queue.specs.Laws.{ToldOnceToTheOldest};

/// What is pending, what was reported, which kinds are enabled and which requests wait is what a look
/// back over all requests, changes, reads, settings and resets since the controller's beginning says,
/// and each completion is the one that is owed then.
#[tactic(auto, using(crate::proofs::Steps::told_as_it_happened))]
pub fn told_as_it_happened()
    ensures { ToldAsItHappened }
{}

/// A kind is told once until its log page is read, to the oldest request; and no request waits while
/// something is to be told.
#[tactic(auto, using(crate::proofs::Steps::told_once_to_the_oldest))]
pub fn told_once_to_the_oldest()
    ensures { ToldOnceToTheOldest }
{}

/// An edit is an event for namespaces or for Asymmetric Namespace Access, and never for both.
#[tactic(auto, using(crate::proofs::Counting::one_change_is_one_event))]
pub fn one_change_is_one_event()
    ensures { OneChangeIsOneEvent }
{}

/// An edit makes of the events, and sends, what a look back says over an occurrence for each kind that
/// it is an event for, in the order of kinds.
#[tactic(auto, using(crate::proofs::Edits::edits_are_told))]
pub fn edits_are_told()
    ensures { EditsAreTold }
{}
