//! The ANA groups that the controllers of one subsystem on one port show.
ghost use Rattle.std.specs.Prelude.{◌≡◌, ◌<◌, ℕ, List, [], IfOk, OnOk, length, replicate};
ghost use Rattle.config_lists.specs.declared.group_state.AnaState.TheVariants.{Optimized};
ghost use Rattle.nvt_config.specs.Configuration.{Configuration};
ghost use Rattle.ana_view.specs.Group.{descriptor, descriptor_with, members};
ghost use Rattle.ana_view.specs.Tables.{each_of, with_member};

use config_lists::{GROUP_END, NamespaceTable, StateTable};
use nvt_config::{AnaState, Seen};
use std::alloc::{AllocError, Global};

/// Of a subsystem on a port, its namespaces, which say their groups, and the state of each group. The
/// states are taken by one walk over a configuration's, which takes no memory.
#[derive(Drop)]
pub(crate) struct Groups<'a> {
    // By NSID. One table serves all ports.
    pub(crate) namespaces: &'a NamespaceTable<'a>,
    // By group.
    pub(crate) states: StateTable<'a>,
}

impl<'a> Groups<'a> {
    ghost use Rattle.ana_view.specs.Tables.{AreMembers, AreNamespacesOf, descriptor_of, state_of};

    /// Those of a configuration as it is seen, whose namespaces of the subsystem are these.
    pub(crate) fn of(
        namespaces: &'a NamespaceTable<'a>,
        seen: &Seen<'a>,
        subsystem: &[u8],
        port: u16,
    ) -> Groups<'a>
        requires { AreNamespacesOf seen.now subsystem.now namespaces.now }
        ensures { (group : ℕ) → group < 33
            → descriptor_of result group ≡ descriptor seen.now subsystem.now port group }
    {
        Groups {
            namespaces,
            states: StateTable::of(seen.states(), subsystem, port),
        }
    }

    /// Those on a port for which no state was set, of these namespaces of a subsystem.
    pub(crate) fn plain(namespaces: &'a NamespaceTable<'a>) -> Groups<'a>
        ensures { (c : Configuration) (subsystem : List ℕ)
            → AreNamespacesOf c subsystem namespaces.now → (group : ℕ) → group < 33
            → descriptor_of result group
            ≡ descriptor_with group Optimized (members c subsystem group) }
    {
        Groups {
            namespaces,
            states: StateTable::of(&[], &[], 0),
        }
    }

    /// By group, the identifiers of the namespaces in it, rising. The namespaces are walked over once.
    pub(crate) fn members(&self, alloc: Global) -> Result<Vec<Vec<u32>>, AllocError>
        ensures len { IfOk result (λ members. length members.items ≡ 33) }
        ensures members { IfOk result (λ members. AreMembers self.now (each_of members)) }
    {
        let mut members = no_members(alloc)?;
        for nsid in self.namespaces.nsids() {
            if let Some(namespace) = self.namespaces.get(nsid) {
                add_member(&mut members, namespace.group, nsid)?;
            }
        }
        Ok(members)
    }

    /// The state of the group: optimized where none was set.
    pub(crate) fn state(&self, group: u32) -> AnaState
        ensures { result ≡ state_of self.now group }
    {
        self.states.get(group)
    }
}

// Of each group none.
fn no_members(alloc: Global) -> Result<Vec<Vec<u32>>, AllocError>
    ensures { IfOk result (λ members. each_of members ≡ replicate 33 []) }
{
    let mut members = Vec::with_capacity(alloc, GROUP_END as usize)?;
    for _ in 0..GROUP_END {
        members.push(Vec::new(alloc))?;
    }
    Ok(members)
}

// One more in the group, where there is such a group.
fn add_member(members: &mut Vec<Vec<u32>>, group: u32, nsid: u32) -> Result<(), AllocError>
    ensures { OnOk result (each_of members.new ≡ with_member group nsid (each_of members.old)) }
{
    let at = group as usize;
    if at < members.len() {
        members[at].push(nsid)?;
    }
    Ok(())
}
