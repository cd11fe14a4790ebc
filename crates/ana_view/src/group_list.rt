//! The ANA groups of one subsystem on one port, ready.
ghost use Rattle.std.specs.Prelude.{◌≡◌, ◌↔◌, [], IfOk, IsTrue};
ghost use Rattle.ana_view.specs.Tables.{listing_of};
ghost use Rattle.ana_view.specs.View.{AreFew};

use crate::groups::Groups;
use config_lists::GROUP_END;
use nvt_config::AnaState;
use std::alloc::{AllocError, Global};
use std::marker::Model;

/// An ANA group as the controllers of a subsystem on a port show it (Base 2.0, section 8.1).
#[derive(Drop)]
pub struct AnaGroup {
    id: u32,
    state: AnaState,
    nsids: Vec<u32>,
}

impl Model for AnaGroup {
    ghost use Rattle.ana_view.specs.Group.{Descriptor};

    ghost Value = { Descriptor };

    ghost view = { λ g. record { id = g.id; state = g.state; nsids = g.nsids.items } };
}

impl AnaGroup {
    /// Its identifier (ANAGRPID), from 1 to 32.
    pub fn id(&self) -> u32
        ensures { result ≡ self.now.id }
    {
        self.id
    }

    /// Its state on the port.
    pub fn state(&self) -> AnaState
        ensures { result ≡ self.now.state }
    {
        self.state
    }

    /// The identifiers of the subsystem's namespaces in it that the host sees, rising. There is at least
    /// one.
    pub fn nsids(&self) -> &[u32]
        ensures { result.now ≡ self.now.nsids }
    {
        self.nsids.as_slice()
    }
}

/// The groups that hold a namespace, rising.
#[derive(Drop)]
pub(crate) struct GroupList {
    groups: Vec<AnaGroup>,
}

impl Model for GroupList {
    ghost use Rattle.std.specs.Prelude.{List};
    ghost use Rattle.ana_view.specs.Group.{Descriptor};
    ghost use Rattle.ana_view.specs.View.{AreFew};

    ghost Value = { List Descriptor };

    ghost view = { λ l. l.groups.items };

    ghost invariant = { λ l. AreFew l.groups.items };
}

impl GroupList {
    /// None.
    pub(crate) fn empty(alloc: Global) -> GroupList
        ensures { result ≡ [] }
    {
        GroupList {
            groups: Vec::new(alloc),
        }
    }

    /// Those of these tables.
    pub(crate) fn of(alloc: Global, groups: &Groups<'_>) -> Result<GroupList, AllocError>
        ensures { IfOk result (λ list. list ≡ listing_of groups.now) }
    {
        let members = groups.members(alloc)?;
        let mut list = Vec::new(alloc);
        for group in 1..GROUP_END {
            let nsids = members[group as usize].as_slice();
            if !nsids.is_empty() {
                list.push(AnaGroup {
                    id: group,
                    state: groups.state(group),
                    nsids: Vec::from_slice(alloc, nsids)?,
                })?;
            }
        }
        Ok(GroupList { groups: list })
    }

    /// All of them.
    pub(crate) fn as_slice(&self) -> &[AnaGroup]
        ensures lent { result.now ≡ self.now }
        ensures few { AreFew self.now }
    {
        self.groups.as_slice()
    }

    /// Whether there is none.
    pub(crate) fn is_empty(&self) -> bool
        ensures { IsTrue result ↔ (self.now ≡ []) }
    {
        self.groups.is_empty()
    }
}
