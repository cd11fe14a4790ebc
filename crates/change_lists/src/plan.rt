//! What an edit will make of a view of the active namespaces.
ghost use Rattle.std.specs.Prelude.{◌≡◌};
ghost use Rattle.std.specs.Option.{option_copied};
ghost use Rattle.change_lists.specs.ActiveView.{changed_in};

use crate::nsid_list::NsidList;
use config_lists::NsidSet;
use std::marker::Model;
use tables::{NameTable, Variants};

/// What an edit will make of a view: the lists of the subsystem that it reaches, and which of its
/// namespaces the edit changes, for each host that sees them otherwise than strangers do; or those of the
/// one host that it reaches.
#[derive(Drop)]
pub struct Plan {
    pub(crate) reached: Reached,
}

#[derive(Drop)]
pub(crate) enum Reached {
    Nothing,
    Everyone(EveryoneLists),
    Host(HostLists),
}

/// The lists of a subsystem after an edit, and which of its namespaces the edit changes.
#[derive(Drop)]
pub(crate) struct EveryoneLists {
    pub(crate) subsystem: Vec<u8>,
    pub(crate) lists: Variants<NsidList>,
    pub(crate) changed: Variants<NsidSet>,
}

/// The list of one host after an edit that reaches that host alone.
#[derive(Drop)]
pub(crate) struct HostLists {
    pub(crate) subsystem: Vec<u8>,
    pub(crate) host: Vec<u8>,
    pub(crate) nsids: NsidList,
    // What strangers see of a subsystem that is not there yet.
    pub(crate) nobody: NsidList,
    pub(crate) changed: NsidSet,
    // Whether the host is shown a namespace of the subsystem after the edit.
    pub(crate) is_own: bool,
    pub(crate) room: NameTable<NsidList>,
}

impl Model for EveryoneLists {
    ghost use Rattle.change_lists.specs.ActiveView.{EveryoneReached};

    ghost Value = { EveryoneReached };

    ghost view = { λ r. record { subsystem = r.subsystem.items; lists = r.lists; changed = r.changed } };
}

impl Model for HostLists {
    ghost use Rattle.std.specs.Prelude.{◌≡◌, []};
    ghost use Rattle.change_lists.specs.ActiveView.{HostReached};

    ghost Value = { HostReached };

    ghost view = { λ r. record {
      subsystem = r.subsystem.items;
      host = r.host.items;
      nsids = r.nsids;
      changed = r.changed;
      is_own = r.is_own;
      room = r.room;
    } };

    ghost invariant = { λ r. r.nobody ≡ [] };
}

impl Model for Plan {
    ghost use Rattle.change_lists.specs.ActiveView.{Planned};
    ghost use Rattle.change_lists.specs.Plan.{planned};

    ghost Value = { Planned };

    ghost view = { λ plan. planned plan.reached };
}

impl Plan {
    /// The identifiers of a subsystem's namespaces whose size, block size, UUID or presence the edit
    /// changes for a host, as it sees them: none where the edit does not reach them.
    pub fn changed(&self, host: &[u8], subsystem: &[u8]) -> Option<&NsidSet>
        ensures { option_copied result ≡ changed_in self.now host.now subsystem.now }
    {
        match &self.reached {
            Reached::Everyone(reached) if subsystem == reached.subsystem.as_slice() => {
                Some(reached.changed.get(host))
            }
            Reached::Host(reached)
                if subsystem == reached.subsystem.as_slice() && host == reached.host.as_slice() => {
                Some(&reached.changed)
            }
            _ => None,
        }
    }
}
