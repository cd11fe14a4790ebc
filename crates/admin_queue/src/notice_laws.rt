//! A law of what the host of one controller is told. The function does nothing: its contract is the
//! law, whatever happened to the controller.
ghost use Rattle.admin_queue.specs.NoticeLaws.{NoticesLookBack};

/// After any edits, commands of its host, resets and enablings, what the host of a controller is told
/// is what look-backs over all that happened to the controller say: its events, its counts and its
/// set. What an edit completes, and what a request is answered, is what is owed then.
#[tactic(auto, using(crate::proofs::LookingBack::notices_look_back))]
pub fn notices_look_back()
    ensures { NoticesLookBack }
{}
