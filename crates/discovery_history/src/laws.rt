//! Laws of hosts and targets. Each of these functions does nothing: its contract is the law, for whatever events
//! and answers there were.
ghost use Rattle.discovery_history.specs.Laws.{DiscoveryPagesAreMoments, HostsLearnOneMoment};

/// The discovery log pages that a target owes a host, after each event of its history, are one page as time goes
/// on: its generation counter is one higher where its records changed, round 64 bits, and else the same.
#[tactic(auto, using(crate::proofs::Growing::discovery_pages_are_moments))]
pub fn discovery_pages_are_moments()
    ensures { DiscoveryPagesAreMoments }
{}

/// Where each answer to a host's reads shows that page as of some event, and none as of an earlier one than the
/// answer before, the page that the host has is the one that the target owed it at each read of its last try.
#[tactic(auto, using(crate::proofs::Learning::hosts_learn_one_moment))]
pub fn hosts_learn_one_moment()
    ensures { HostsLearnOneMoment }
{}
