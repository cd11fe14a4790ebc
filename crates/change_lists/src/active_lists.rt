//! The identifiers of each subsystem's namespaces, ready for each host.
ghost use Rattle.std.specs.Prelude.{◌≡◌, ◌≤◌, ◌<◌, [], IfOk, OnOk};
ghost use Rattle.nvt_config.specs.SeenBy.{seen_by_strangers};
ghost use Rattle.config_lists.specs.Numbered.{active_nsids};
ghost use Rattle.nvt_config.specs.Viewers.{AreOwnOf};
ghost use Rattle.tables.specs.NameTable.{IsPut};
ghost use Rattle.tables.specs.Variants.{count_at};
ghost use Rattle.change_lists.specs.ActiveView.{IsPlannedFor, IsShownAfter, ShowsActive};
ghost use Rattle.change_lists.specs.ActiveView.{nsids_in};
ghost use Rattle.change_lists.specs.ActiveView.{everyone, one_host};
ghost use Rattle.change_lists.specs.Reached.{IsListFor};

use crate::nsid_list::NsidList;
use crate::plan::{EveryoneLists, HostLists};
use nvt_config::Config;
use std::alloc::{AllocError, Global};
use std::marker::Model;
use tables::{NameTable, VariantTable, Variants};

/// By a subsystem's name the identifiers of its namespaces, rising: those that strangers see, and of each
/// host that is shown some those that it sees.
#[derive(Drop)]
pub(crate) struct ActiveLists {
    lists: VariantTable<NsidList>,
}

impl Model for ActiveLists {
    ghost use Rattle.change_lists.specs.ActiveView.{ViewState};

    ghost Value = { ViewState };

    ghost view = { λ l. record { shown = record { lists = l.lists.values }; room = l.lists.room } };
}

impl ActiveLists {
    /// Those of a configuration.
    pub(crate) fn of(alloc: Global, config: &Config) -> Result<ActiveLists, AllocError>
        ensures { IfOk result (λ lists. ShowsActive config.now lists.shown) }
    {
        let mut lists = ActiveLists {
            lists: VariantTable::new(alloc),
        };
        for subsystem in config.subsystems() {
            let name = subsystem.nqn.as_bytes();
            let nsids = lists_of(alloc, config, name)?;
            lists.put(alloc, name, nsids)?;
        }
        Ok(lists)
    }

    // Puts the lists of a subsystem.
    fn put(
        &mut self,
        alloc: Global,
        subsystem: &[u8],
        lists: Variants<NsidList>,
    ) -> Result<(), AllocError>
        ensures { OnOk result (IsPut self.old.shown.lists self.new.shown.lists subsystem.now lists) }
    {
        self.lists.put(alloc, subsystem, lists)
    }

    /// The identifiers of a subsystem's namespaces that a host sees: none where the subsystem is not there.
    pub(crate) fn get(&self, host: &[u8], subsystem: &[u8]) -> &[u32]
        ensures { result.now ≡ nsids_in self.now.shown host.now subsystem.now }
    {
        match self.lists.get(subsystem, host) {
            Some(nsids) => nsids.as_slice(),
            None => &[],
        }
    }

    /// Makes room for the lists of one subsystem more.
    pub(crate) fn reserve(&mut self) -> Result<(), AllocError>
        ensures room { OnOk result (1 ≤ self.new.room) }
        ensures kept { self.new.shown ≡ self.old.shown }
    {
        self.lists.reserve()
    }

    /// Room for a list of one more host of a subsystem.
    pub(crate) fn room_for_host(
        &self,
        alloc: Global,
        subsystem: &[u8],
    ) -> Result<NameTable<NsidList>, AllocError>
        ensures empty { IfOk result (λ room. room.values ≡ []) }
        ensures wide { IfOk result (λ room. count_at self.now.shown.lists subsystem.now < room.room) }
    {
        self.lists.room_for_own(alloc, subsystem)
    }

    /// Puts the lists of a subsystem in the place of those of before. A subsystem of whose namespaces
    /// nobody sees one takes no place.
    pub(crate) fn replace(&mut self, reached: EveryoneLists)
        requires { IsPlannedFor self.old (everyone reached) }
        ensures { IsShownAfter self.old.shown (everyone reached) self.new.shown }
    {
        let EveryoneLists {
            subsystem,
            lists,
            changed,
        } = reached;
        drop(changed);
        if lists.is_uniform() && lists.common().is_empty() {
            self.lists.remove(subsystem.as_slice());
        } else {
            self.lists.put_within(subsystem, lists);
        }
    }

    /// Puts the list of one host of a subsystem in the place of the one of before, or takes that away.
    pub(crate) fn replace_of_host(&mut self, reached: HostLists)
        requires { IsPlannedFor self.old (one_host reached) }
        ensures { IsShownAfter self.old.shown (one_host reached) self.new.shown }
    {
        let HostLists {
            subsystem,
            host,
            nsids,
            nobody,
            changed,
            is_own,
            room,
        } = reached;
        drop(changed);
        if is_own {
            self.lists
                .put_own_within(subsystem, host, nsids, nobody, room);
        } else {
            self.lists.remove_own(subsystem, host.as_slice());
        }
    }
}

/// The identifiers of a subsystem's namespaces: those that strangers see, and of each host that is shown
/// some those that it sees.
pub(crate) fn lists_of(
    alloc: Global,
    config: &Config,
    subsystem: &[u8],
) -> Result<Variants<NsidList>, AllocError>
    ensures common { let seen = seen_by_strangers config.now in IfOk result
        (λ lists. lists.common ≡ active_nsids seen.namespaces subsystem.now) }
    ensures own { IfOk result (λ lists. AreOwnOf config.now.shows subsystem.now
        (IsListFor config.now subsystem.now) lists.own) }
{
    let strangers = NsidList::of(alloc, &config.seen_by_strangers(), subsystem)?;
    let mut lists = Variants::new(alloc, strangers);
    for show in config.shows() {
        let host = show.host.as_bytes();
        if show.subsystem.as_bytes() == subsystem && lists.own(host).is_none() {
            let list = NsidList::of(alloc, &config.seen_by(host), subsystem)?;
            lists.put(alloc, host, list)?;
        }
    }
    Ok(lists)
}
