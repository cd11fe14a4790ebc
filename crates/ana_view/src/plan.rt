//! What an edit makes of the ANA groups.
ghost use Rattle.std.specs.Prelude.{◌≡◌};
ghost use Rattle.ana_view.specs.View.{reached_in};

use crate::subsystem::SubsystemGroups;
use std::marker::Model;
use tables::{NameTable, Variants};

/// What an edit will make of a view. It keeps no configuration: of the one subsystem whose groups the
/// edit may change, those before it and those after it, for each host that sees them otherwise than
/// strangers do, or for the one host that it reaches. By them each controller counts what changes
/// (`AnaCounts::note`). An allow, a host or a port reaches no subsystem, and its plan keeps nothing.
#[derive(Drop)]
pub struct Plan {
    pub(crate) reached: Reached,
}

#[derive(Drop)]
pub(crate) enum Reached {
    Nothing,
    Everyone(EveryoneGroups),
    Host(HostGroups),
}

/// The groups of a subsystem, before an edit and after it.
#[derive(Drop)]
pub(crate) struct EveryoneGroups {
    pub(crate) subsystem: Vec<u8>,
    pub(crate) before: Variants<SubsystemGroups>,
    pub(crate) after: Variants<SubsystemGroups>,
}

/// The groups of one host, before an edit that reaches that host alone, and after it.
#[derive(Drop)]
pub(crate) struct HostGroups {
    pub(crate) subsystem: Vec<u8>,
    pub(crate) host: Vec<u8>,
    pub(crate) before: SubsystemGroups,
    pub(crate) after: SubsystemGroups,
    // What strangers see of a subsystem that is not there yet.
    pub(crate) nobody: SubsystemGroups,
    // Whether the host is shown a namespace of the subsystem after the edit.
    pub(crate) is_own: bool,
    pub(crate) room: NameTable<SubsystemGroups>,
}

/// The groups of one subsystem that one host sees, before an edit and after it, lent.
#[derive(Drop)]
pub(crate) struct ReachedGroups<'a> {
    pub(crate) before: &'a SubsystemGroups,
    pub(crate) after: &'a SubsystemGroups,
}

impl Model for EveryoneGroups {
    ghost use Rattle.ana_view.specs.View.{EveryoneReached};

    ghost Value = { EveryoneReached };

    ghost view = { λ r. record { subsystem = r.subsystem.items; before = r.before; after = r.after } };
}

impl Model for HostGroups {
    ghost use Rattle.std.specs.Prelude.{◌≡◌};
    ghost use Rattle.ana_view.specs.Bodies.{no_groups};
    ghost use Rattle.ana_view.specs.View.{HostReached};

    ghost Value = { HostReached };

    ghost view = { λ r. record {
      subsystem = r.subsystem.items;
      host = r.host.items;
      before = r.before;
      after = r.after;
      is_own = r.is_own;
      room = r.room;
    } };

    ghost invariant = { λ r. r.nobody ≡ no_groups };
}

impl<'a> Model for ReachedGroups<'a> {
    ghost use Rattle.ana_view.specs.View.{BeforeAfter};

    ghost Value = { BeforeAfter };

    ghost view = { λ r. record { before = r.before.now; after = r.after.now } };
}

impl Model for Plan {
    ghost use Rattle.ana_view.specs.Plan.{planned};
    ghost use Rattle.ana_view.specs.View.{Planned};

    ghost Value = { Planned };

    ghost view = { λ plan. planned plan.reached };
}

impl Plan {
    /// The groups of a subsystem that a host sees, before the edit and after it, where the plan reaches
    /// them.
    pub(crate) fn reached(&self, host: &[u8], subsystem: &[u8]) -> Option<ReachedGroups<'_>>
        ensures { result ≡ reached_in self.now host.now subsystem.now }
    {
        match &self.reached {
            Reached::Everyone(reached) if subsystem == reached.subsystem.as_slice() => {
                Some(ReachedGroups {
                    before: reached.before.get(host),
                    after: reached.after.get(host),
                })
            }
            Reached::Host(reached)
                if subsystem == reached.subsystem.as_slice() && host == reached.host.as_slice() => {
                Some(ReachedGroups {
                    before: &reached.before,
                    after: &reached.after,
                })
            }
            _ => None,
        }
    }
}
