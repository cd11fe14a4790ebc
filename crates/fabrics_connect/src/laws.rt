//! Laws of the answer to a Connect, and of the controllers that live, in the words of the subject.
//! Each of these functions does nothing: its contract is the law, whatever the configuration and the
//! controllers are.
ghost use Rattle.fabrics_connect.specs.Laws.{BeginningsArePermitted, HostsAreAdmitted};
ghost use Rattle.fabrics_connect.specs.Laws.{HostsNeedPermission, IdentifiersAreLeast};
ghost use Rattle.fabrics_connect.specs.Laws.{LiveAreWalked, QueuesJoinTheirMaker};

/// A host that may not use a subsystem on a port is admitted to no controller and no queue of it.
#[tactic(auto, using(crate::proofs::Consequences::hosts_need_permission))]
pub fn hosts_need_permission()
    ensures { HostsNeedPermission }
{}

/// A controller that begins is a discovery controller, or one of a subsystem that its host may use
/// on its port.
#[tactic(auto, using(crate::proofs::Consequences::beginnings_are_permitted))]
pub fn beginnings_are_permitted()
    ensures { BeginningsArePermitted }
{}

/// A controller that begins gets the least identifier from 1 to 32 that no controller has.
#[tactic(auto, using(crate::proofs::Consequences::identifiers_are_least))]
pub fn identifiers_are_least()
    ensures { IdentifiersAreLeast }
{}

/// An I/O queue joins a controller that is ready, on the port and of the subsystem that the Connect
/// names, for the host that made it alone, and under an identifier that the controller has not.
#[tactic(auto, using(crate::proofs::Consequences::queues_join_their_maker))]
pub fn queues_join_their_maker()
    ensures { QueuesJoinTheirMaker }
{}

/// A Connect for an admin queue is admitted where it asks rightly, its host may use the subsystem,
/// and an identifier is free.
#[tactic(auto, using(crate::proofs::Admissible::hosts_are_admitted))]
pub fn hosts_are_admitted()
    ensures { HostsAreAdmitted }
{}

/// A walk over the controllers yields each that lives once, under rising identifiers from 1 to 32,
/// and nothing else.
#[tactic(auto, using(crate::proofs::Live::live_are_walked))]
pub fn live_are_walked()
    ensures { LiveAreWalked }
{}
