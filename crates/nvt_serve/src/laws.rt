//! Laws of what is done while a target is served, in the words of its history. Each of these functions does
//! nothing: its contract is the law, for whatever was done.
ghost use Rattle.nvt_serve.specs.History.{DeedsArePossible, DeedsHaveMoments, LinesAreAnswered, PortsTellDeeds};
ghost use Rattle.nvt_serve.specs.History.{ServedTargetsAgree, SlotsCarryTheirConnections};

/// A target that was served agrees with the history that is longer by the events of what was done: each tick, each
/// connection that was opened, ended or given up, each edit that was made, and each step.
#[tactic(auto, using(crate::proofs::History::served_targets_agree))]
pub fn served_targets_agree()
    ensures { ServedTargetsAgree }
{}

/// The events of what was done are events that the target does not refuse: an edit that the configuration accepts, a
/// connection on a port that there is, by the least number that is free, a step of one that is known and not ended.
#[tactic(auto, using(crate::proofs::History::deeds_are_possible))]
pub fn deeds_are_possible()
    ensures { DeedsArePossible }
{}

/// Ports that tell say what was handed out for what was done, in its order, how often they were asked, what they took in
/// each slot, what was replied to each line, and the configuration that stands, where an edit was made.
#[tactic(auto, using(crate::proofs::Telling::ports_tell_deeds))]
pub fn ports_tell_deeds()
    ensures { PortsTellDeeds }
{}

/// Each line that was handed out is answered once, in the order of the lines: by `ok` where its edit was made, or by why not.
#[tactic(auto, using(crate::proofs::Telling::lines_are_answered))]
pub fn lines_are_answered()
    ensures { LinesAreAnswered }
{}

/// While a connection that was opened in a slot is in it, it received what was handed out for the slot since, and what
/// was taken from it is what the slot took.
#[tactic(auto, using(crate::proofs::Slots::slots_carry_their_connections))]
pub fn slots_carry_their_connections()
    ensures { SlotsCarryTheirConnections }
{}

/// What holds after all that was done holds at each moment of it.
#[tactic(auto, using(crate::proofs::History::deeds_have_moments))]
pub fn deeds_have_moments()
    ensures { DeedsHaveMoments }
{}
