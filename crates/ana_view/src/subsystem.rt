//! The ANA groups of one subsystem on each port, ready.
ghost use Rattle.std.specs.Prelude.{◌≡◌, ◌≢◌, ◌↔◌, [], IfOk, IsTrue, OnOk};
ghost use Rattle.ana_view.specs.Bodies.{AreListed, HasMore, HasPorts, no_groups};
ghost use Rattle.ana_view.specs.Tables.{AreNamespacesOf};
ghost use Rattle.ana_view.specs.View.{AreFew, AreGroupsOf, groups_on};

use crate::group_list::{AnaGroup, GroupList};
use crate::groups::Groups;
use config_lists::NamespaceTable;
use indexmap::IndexMap;
use nvt_config::Seen;
use std::alloc::{AllocError, Global};
use std::marker::Model;

/// The groups of one subsystem: on each port for which a state was set, and those on every other port,
/// where each state is optimized. Where no namespace of it is seen there are none, and no port.
#[derive(Drop)]
pub(crate) struct SubsystemGroups {
    plain: GroupList,
    ports: IndexMap<u16, GroupList>,
}

impl Model for SubsystemGroups {
    ghost use Rattle.ana_view.specs.View.{OfSubsystem};

    ghost Value = { OfSubsystem };

    ghost view = { λ g. record { plain = g.plain; ports = g.ports.entries } };
}

impl SubsystemGroups {
    /// None.
    pub(crate) fn empty(alloc: Global) -> SubsystemGroups
        ensures { result ≡ no_groups }
    {
        SubsystemGroups {
            plain: GroupList::empty(alloc),
            ports: IndexMap::new(alloc),
        }
    }

    /// Those of a configuration as it is seen.
    pub(crate) fn of(
        alloc: Global,
        seen: &Seen<'_>,
        subsystem: &[u8],
    ) -> Result<SubsystemGroups, AllocError>
        ensures groups { IfOk result (AreGroupsOf seen.now subsystem.now) }
        ensures sparse { IfOk result (λ groups. groups.plain ≡ [] → groups ≡ no_groups) }
    {
        let namespaces = seen.table(subsystem);
        let plain = GroupList::of(alloc, &Groups::plain(&namespaces))?;
        let mut groups = SubsystemGroups {
            plain,
            ports: IndexMap::new(alloc),
        };
        groups.add_ports(alloc, seen, subsystem, &namespaces)?;
        Ok(groups)
    }

    /// Those on a port.
    pub(crate) fn on(&self, port: u16) -> &[AnaGroup]
        ensures lent { result.now ≡ groups_on self.now port }
        ensures few { AreFew result.now }
    {
        match self.ports.get(&port) {
            Some(list) => list.as_slice(),
            None => self.plain.as_slice(),
        }
    }

    /// Whether there are none, and no port.
    pub(crate) fn is_empty(&self) -> bool
        ensures { IsTrue result ↔ (self.now ≡ no_groups) }
    {
        self.plain.is_empty() && self.ports.is_empty()
    }

    // Adds those on each port for which a state was set, unless no namespace is there.
    fn add_ports(
        &mut self,
        alloc: Global,
        seen: &Seen<'_>,
        subsystem: &[u8],
        namespaces: &NamespaceTable<'_>,
    ) -> Result<(), AllocError>
        requires namespaces { AreNamespacesOf seen.now subsystem.now namespaces.now }
        requires none { self.old.ports ≡ [] }
        ensures listed { OnOk result (AreListed seen.now subsystem.now self.new.ports) }
        ensures ports { OnOk result (self.new.plain ≢ []
            → HasPorts subsystem.now seen.now.states self.new.ports) }
        ensures sparse { OnOk result (self.new.plain ≡ [] → self.new.ports ≡ []) }
        ensures plain { self.new.plain ≡ self.old.plain }
    {
        if self.plain.is_empty() {
            return Ok(());
        }
        for state in seen.states() {
            if state.subsystem.as_bytes() == subsystem {
                self.add(alloc, seen, subsystem, namespaces, state.port)?;
            }
        }
        Ok(())
    }

    // Adds those on a port, unless they are there.
    fn add(
        &mut self,
        alloc: Global,
        seen: &Seen<'_>,
        subsystem: &[u8],
        namespaces: &NamespaceTable<'_>,
        port: u16,
    ) -> Result<(), AllocError>
        requires namespaces { AreNamespacesOf seen.now subsystem.now namespaces.now }
        requires listed { AreListed seen.now subsystem.now self.old.ports }
        ensures listed { OnOk result (AreListed seen.now subsystem.now self.new.ports) }
        ensures more { OnOk result (HasMore self.old.ports self.new.ports port) }
        ensures plain { self.new.plain ≡ self.old.plain }
    {
        if self.ports.contains_key(&port) {
            return Ok(());
        }
        let list = GroupList::of(alloc, &Groups::of(namespaces, seen, subsystem, port))?;
        self.ports.insert(port, list)?;
        Ok(())
    }
}
