//! A view of the active namespaces: it follows the edits of a configuration and lends each subsystem's
//! list, as each host sees it.
ghost use Rattle.std.specs.Prelude.{◌≡◌, IfOk, IsOk, Ok, Some, length};
ghost use Rattle.nvt_config.specs.Accept.{accept};
ghost use Rattle.nvt_fields.specs.Window.{window};
ghost use Rattle.change_lists.specs.ActiveView.{IsPlannedFor, IsShownAfter, LeadsTo, PlansEdit};
ghost use Rattle.change_lists.specs.ActiveView.{ShowsActive, active_page, nsids_in};
ghost use Rattle.change_lists.specs.Reached.{IsOfEveryone, IsOfHost};
ghost use Rattle.nvt_config.specs.Reach.{host_reached, subsystem_reached};
ghost use Rattle.tables.specs.Variants.{count_at};
ghost use Rattle.std.specs.Prelude.{◌<◌, []};

use crate::active_list::write_list;
use crate::active_lists::{ActiveLists, lists_of};
use crate::differences::{changed_nsids, changes_of};
use crate::nsid_list::NsidList;
use crate::plan::{EveryoneLists, HostLists, Plan, Reached};
use config_lists::Shows;
use nvt_config::{Config, Edit, host_reached, subsystem_reached};
use std::alloc::{AllocError, Global};
use std::marker::Model;

/// The identifiers of each subsystem's namespaces, as each host sees them. They are ready: no call but
/// `new` and `prepare` walks over a configuration, and nothing is kept of one. Hosts that are shown
/// nothing of a subsystem share its list.
#[derive(Drop)]
pub struct ActiveView {
    alloc: Global,
    lists: ActiveLists,
}

impl Model for ActiveView {
    ghost use Rattle.change_lists.specs.ActiveView.{ViewState};

    ghost Value = { ViewState };

    ghost view = { λ v. v.lists };
}

impl ActiveView {
    /// The view of a configuration.
    pub fn new(alloc: Global, config: &Config) -> Result<ActiveView, AllocError>
        ensures { IfOk result (λ view. ShowsActive config.now view.shown) }
    {
        let lists = ActiveLists::of(alloc, config)?;
        Ok(ActiveView { alloc, lists })
    }

    /// Takes all the memory to go over to what an edit makes of the configuration that the view shows.
    /// Every answer is as before, also where memory ran out. An edit that reaches no subsystem's
    /// namespaces costs nothing, one that reaches a subsystem's costs its own, for strangers and for each
    /// host that is shown some, and one that shows or hides a namespace costs those of its host, and copies
    /// no configuration.
    pub fn prepare(&mut self, config: &Config, edit: &Edit) -> Result<Plan, AllocError>
        requires { IsOk (accept config.now edit.now) }
        ensures plan { IfOk result (λ plan. IfOk (accept config.now edit.now)
            (λ next. PlansEdit config.now next plan)) }
        ensures next { ShowsActive config.now self.old.shown → IfOk result (λ plan.
            IfOk (accept config.now edit.now) (λ next. LeadsTo next self.old.shown plan)) }
        ensures room { IfOk result (IsPlannedFor self.new) }
        ensures kept { self.new.shown ≡ self.old.shown }
    {
        let Some(subsystem) = subsystem_reached(edit) else {
            return Ok(Plan {
                reached: Reached::Nothing,
            });
        };
        let Some(host) = host_reached(edit) else {
            let next = config.edited(edit)?;
            return self.prepare_to(config, &next, edit);
        };
        self.prepare_one(config, edit, host, subsystem)
    }

    /// Prepares the same where the configuration that the edit makes is there already.
    pub fn prepare_to(
        &mut self,
        config: &Config,
        next: &Config,
        edit: &Edit,
    ) -> Result<Plan, AllocError>
        requires { accept config.now edit.now ≡ Ok next.now }
        ensures plan { IfOk result (PlansEdit config.now next.now) }
        ensures next { ShowsActive config.now self.old.shown
            → IfOk result (LeadsTo next.now self.old.shown) }
        ensures room { IfOk result (IsPlannedFor self.new) }
        ensures kept { self.new.shown ≡ self.old.shown }
    {
        let Some(subsystem) = subsystem_reached(edit) else {
            return Ok(Plan {
                reached: Reached::Nothing,
            });
        };
        let Some(host) = host_reached(edit) else {
            self.lists.reserve()?;
            let everyone = self.everyone(config, next, subsystem)?;
            return Ok(Plan {
                reached: Reached::Everyone(everyone),
            });
        };
        self.prepare_one(config, edit, host, subsystem)
    }

    // Prepares an edit that reaches one host alone. Nothing of the configuration is copied.
    fn prepare_one(
        &mut self,
        config: &Config,
        edit: &Edit,
        host: &[u8],
        subsystem: &[u8],
    ) -> Result<Plan, AllocError>
        requires subsystem { subsystem_reached edit.now ≡ Some subsystem.now }
        requires host { host_reached edit.now ≡ Some host.now }
        ensures plan { IfOk result (λ plan. IfOk (accept config.now edit.now)
            (λ next. PlansEdit config.now next plan)) }
        ensures next { ShowsActive config.now self.old.shown → IfOk result (λ plan.
            IfOk (accept config.now edit.now) (λ next. LeadsTo next self.old.shown plan)) }
        ensures room { IfOk result (IsPlannedFor self.new) }
        ensures kept { self.new.shown ≡ self.old.shown }
    {
        self.lists.reserve()?;
        let one = self.of_host(config, config.shows_after(edit), host, subsystem)?;
        Ok(Plan {
            reached: Reached::Host(one),
        })
    }

    // What an edit makes of a subsystem for every host.
    fn everyone(
        &self,
        old: &Config,
        new: &Config,
        subsystem: &[u8],
    ) -> Result<EveryoneLists, AllocError>
        ensures { IfOk result (IsOfEveryone old.now new.now subsystem.now) }
    {
        let name = Vec::from_slice(self.alloc, subsystem)?;
        let lists = lists_of(self.alloc, new, subsystem)?;
        let changed = changes_of(self.alloc, old, new, subsystem)?;
        Ok(EveryoneLists {
            subsystem: name,
            lists,
            changed,
        })
    }

    // What an edit makes of a subsystem for one host: after it there are these shows.
    fn of_host(
        &self,
        config: &Config,
        shows: Shows<'_>,
        host: &[u8],
        subsystem: &[u8],
    ) -> Result<HostLists, AllocError>
        ensures of { let next = record config.now { shows = shows.entry } in
            IfOk result (IsOfHost config.now next host.now subsystem.now) }
        ensures empty { IfOk result (λ r. r.room.values ≡ []) }
        ensures wide { IfOk result
            (λ r. count_at self.now.shown.lists subsystem.now < r.room.room) }
    {
        let is_own = shows.is_shown_of(subsystem, host);
        let seen = config.seen_with(shows, host);
        let nsids = NsidList::of(self.alloc, &seen, subsystem)?;
        let room = self.lists.room_for_host(self.alloc, subsystem)?;
        let name = Vec::from_slice(self.alloc, subsystem)?;
        Ok(HostLists {
            subsystem: name,
            host: Vec::from_slice(self.alloc, host)?,
            nsids,
            nobody: NsidList::empty(self.alloc),
            changed: changed_nsids(&config.seen_by(host), &seen, subsystem),
            is_own,
            room,
        })
    }

    /// Goes over to what was prepared last. Takes no memory.
    pub fn commit(&mut self, plan: Plan)
        requires { IsPlannedFor self.old plan }
        ensures { IsShownAfter self.old.shown plan self.new.shown }
    {
        match plan.reached {
            Reached::Nothing => {}
            Reached::Everyone(reached) => self.lists.replace(reached),
            Reached::Host(reached) => self.lists.replace_of_host(reached),
        }
    }

    /// The identifiers of a subsystem's namespaces that the host of that name sees (Base 2.0, section
    /// 3.2.1.3), rising. The host may be one that was never added.
    pub fn nsids(&self, host: &[u8], subsystem: &[u8]) -> &[u32]
        ensures { result.now ≡ nsids_in self.now.shown host.now subsystem.now }
    {
        self.lists.get(host, subsystem)
    }

    /// Fills `out` with the Active Namespace ID list of a subsystem (Base 2.0, section 5.17.2.2): the
    /// identifiers above one of its namespaces that the host of that name sees, rising, 4 bytes each, and
    /// zeros past the list's end.
    pub fn window(&self, host: &[u8], subsystem: &[u8], above: u32, out: &mut [u8])
        ensures { out.new ≡ window (active_page self.now.shown host.now subsystem.now above) 0
            (length out.old) }
    {
        write_list(out, self.nsids(host, subsystem), above);
    }
}
