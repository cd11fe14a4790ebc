//! The ANA groups of each subsystem on each port, ready for each host.
ghost use Rattle.std.specs.Prelude.{◌≡◌, ◌≤◌, ◌<◌, [], None, IfOk, OnOk};
ghost use Rattle.tables.specs.NameTable.{value_of};
ghost use Rattle.tables.specs.Variants.{count_at};
ghost use Rattle.ana_view.specs.Bodies.{AreSet, no_variants};
ghost use Rattle.ana_view.specs.Reached.{AreVariantsOf};
ghost use Rattle.ana_view.specs.View.{AreFew, IsPlannedFor, IsShownAfter, ShowsAna};
ghost use Rattle.ana_view.specs.View.{everyone, groups_in, one_host};

use crate::group_list::AnaGroup;
use crate::plan::{EveryoneGroups, HostGroups};
use crate::subsystem::SubsystemGroups;
use nvt_config::Config;
use std::alloc::{AllocError, Global};
use std::marker::Model;
use tables::{NameTable, VariantTable, Variants};

/// By a subsystem's name its groups: those that strangers see, and of each host that is shown one of
/// its namespaces those that it sees. Hosts that are shown none share those of strangers.
#[derive(Drop)]
pub(crate) struct Bodies {
    subsystems: VariantTable<SubsystemGroups>,
}

impl Model for Bodies {
    ghost use Rattle.ana_view.specs.View.{ViewState};

    ghost Value = { ViewState };

    ghost view = { λ b. record {
      shown = record { subsystems = b.subsystems.values };
      room = b.subsystems.room;
    } };
}

impl Bodies {
    ghost use Rattle.ana_view.specs.Bodies.{AddsVariants};

    /// Those of a configuration.
    pub(crate) fn of(alloc: Global, config: &Config) -> Result<Bodies, AllocError>
        ensures { IfOk result (λ bodies. ShowsAna config.now bodies.shown) }
    {
        let mut bodies = Bodies {
            subsystems: VariantTable::new(alloc),
        };
        for subsystem in config.subsystems() {
            bodies.add(alloc, config, subsystem.nqn.as_bytes())?;
        }
        Ok(bodies)
    }

    /// Those of a subsystem on a port that a host sees: none where the subsystem is not there.
    pub(crate) fn get(&self, host: &[u8], subsystem: &[u8], port: u16) -> &[AnaGroup]
        ensures lent { result.now ≡ groups_in self.now.shown host.now subsystem.now port }
        ensures few { AreFew result.now }
    {
        match self.subsystems.get(subsystem, host) {
            Some(groups) => groups.on(port),
            None => &[],
        }
    }

    /// Makes room for one subsystem more.
    pub(crate) fn reserve(&mut self) -> Result<(), AllocError>
        ensures room { OnOk result (1 ≤ self.new.room) }
        ensures kept { self.new.shown ≡ self.old.shown }
    {
        self.subsystems.reserve()
    }

    /// Room for the groups of one more host of a subsystem.
    pub(crate) fn room_for_host(
        &self,
        alloc: Global,
        subsystem: &[u8],
    ) -> Result<NameTable<SubsystemGroups>, AllocError>
        ensures empty { IfOk result (λ room. room.values ≡ []) }
        ensures wide { IfOk result
            (λ room. count_at self.now.shown.subsystems subsystem.now < room.room) }
    {
        self.subsystems.room_for_own(alloc, subsystem)
    }

    /// Puts the groups of a subsystem in the place of those of before. Takes no memory.
    pub(crate) fn replace(&mut self, reached: EveryoneGroups)
        requires { IsPlannedFor self.old (everyone reached) }
        ensures { IsShownAfter self.old.shown (everyone reached) self.new.shown }
    {
        let EveryoneGroups {
            subsystem,
            before,
            after,
        } = reached;
        drop(before);
        self.set(subsystem, after);
    }

    /// Puts the groups of one host of a subsystem in the place of those of before, or takes these away:
    /// then the host sees what strangers see. Takes no memory.
    pub(crate) fn replace_of_host(&mut self, reached: HostGroups)
        requires { IsPlannedFor self.old (one_host reached) }
        ensures { IsShownAfter self.old.shown (one_host reached) self.new.shown }
    {
        let HostGroups {
            subsystem,
            host,
            before,
            after,
            nobody,
            is_own,
            room,
        } = reached;
        drop(before);
        if is_own {
            self.subsystems
                .put_own_within(subsystem, host, after, nobody, room);
        } else {
            self.subsystems.remove_own(subsystem, host.as_slice());
        }
    }

    // Sets the groups of a subsystem, for which there is room. Where nobody sees a namespace of it, it
    // takes no place. Takes no memory.
    fn set(&mut self, subsystem: Vec<u8>, groups: Variants<SubsystemGroups>)
        requires { 1 ≤ self.old.room }
        ensures set { AreSet self.old.shown subsystem.items groups self.new.shown }
        ensures sparse { groups ≡ no_variants
            → value_of self.new.shown.subsystems subsystem.items ≡ None }
    {
        if groups.is_uniform() && groups.common().is_empty() {
            self.subsystems.remove(subsystem.as_slice());
        } else {
            self.subsystems.put_within(subsystem, groups);
        }
    }

    // Sets those that a subsystem has in a configuration.
    fn add(&mut self, alloc: Global, config: &Config, subsystem: &[u8]) -> Result<(), AllocError>
        ensures { OnOk result (AddsVariants config.now self.old.shown subsystem.now self.new.shown) }
    {
        let name = Vec::from_slice(alloc, subsystem)?;
        self.reserve()?;
        let groups = groups_of(alloc, config, subsystem)?;
        self.set(name, groups);
        Ok(())
    }
}

/// The groups of a subsystem: those that strangers see, and of each host that is shown one of its
/// namespaces those that it sees.
pub(crate) fn groups_of(
    alloc: Global,
    config: &Config,
    subsystem: &[u8],
) -> Result<Variants<SubsystemGroups>, AllocError>
    ensures { IfOk result (AreVariantsOf config.now subsystem.now) }
{
    let strangers = SubsystemGroups::of(alloc, &config.seen_by_strangers(), subsystem)?;
    let mut groups = Variants::new(alloc, strangers);
    for show in config.shows() {
        let host = show.host.as_bytes();
        if show.subsystem.as_bytes() == subsystem && groups.own(host).is_none() {
            let own = SubsystemGroups::of(alloc, &config.seen_by(host), subsystem)?;
            groups.put(alloc, host, own)?;
        }
    }
    Ok(groups)
}
