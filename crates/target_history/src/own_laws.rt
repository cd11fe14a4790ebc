//! Laws of histories, in the words of the subject: what a connection's own steps end of it, what ends with
//! it, and what identifier a controller's own row has. Each of these functions does nothing: its contract is the
//! law, for whatever happened.
ghost use Rattle.target_history.specs.Identifiers.{RowsHaveTheirIdentifiers};
ghost use Rattle.target_history.specs.Noticing.{HostsAreToldByLookingBack};
ghost use Rattle.target_history.specs.Terminations.{EndedHaveNoTransfers, StepsEndTheirOwn};

/// A connection whose own step ends it was not ended before that step, and is after it; another step
/// of it leaves it as it was. So what else ends it is no step of it.
#[tactic(auto, using(crate::proofs::Terminations::steps_end_their_own))]
pub fn steps_end_their_own()
    ensures { StepsEndTheirOwn }
{}

/// A connection that is ended has no transfer: no command of it waits for data.
#[tactic(auto, using(crate::proofs::Terminations::ended_have_no_transfers))]
pub fn ended_have_no_transfers()
    ensures { EndedHaveNoTransfers }
{}

/// The row of a controller that lives has the identifier under which the controller lives.
#[tactic(auto, using(crate::proofs::Identifiers::rows_have_their_identifiers))]
pub fn rows_have_their_identifiers()
    ensures { RowsHaveTheirIdentifiers }
{}

/// What the host of a controller is told on its admin queue is what the look-backs over all that happened to
/// the controller say of its own views: over the accepted edits that it outlived, its host's own reads, requests
/// and settings, its resets and enablings. One more event makes of it, on whatever connection, what follows from that
/// event and from what was told before. Each edit completes the requests that are owed then.
#[tactic(auto, using(crate::proofs::Noticing::hosts_are_told_by_looking_back))]
pub fn hosts_are_told_by_looking_back()
    ensures { HostsAreToldByLookingBack }
{}
