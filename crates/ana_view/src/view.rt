//! A view of the ANA groups: it follows the edits of a configuration and writes the log page of each
//! controller, as its host sees it.
ghost use Rattle.std.specs.Prelude.{◌≡◌, ◌<◌, [], IfOk, IsOk, Ok, Some, length, slice_get};
ghost use Rattle.std.specs.Option.{option_copied};
ghost use Rattle.nvt_config.specs.Accept.{accept};
ghost use Rattle.nvt_config.specs.Reach.{host_reached, subsystem_reached};
ghost use Rattle.tables.specs.Variants.{count_at};
ghost use Rattle.nvt_fields.specs.Window.{window};
ghost use Rattle.ana_view.specs.Counts.{Counts};
ghost use Rattle.ana_view.specs.Reached.{IsOfEveryone, IsOfHost};
ghost use Rattle.ana_view.specs.View.{IsPlannedFor, IsShownAfter, LeadsTo, PlansEdit, ShowsAna};
ghost use Rattle.ana_view.specs.View.{groups_in, page_in};

use crate::bodies::{Bodies, groups_of};
use crate::counts::AnaCounts;
use crate::group_list::AnaGroup;
use crate::page::{page_len, write_page};
use crate::plan::{EveryoneGroups, HostGroups, Plan, Reached};
use crate::subsystem::SubsystemGroups;
use config_lists::Shows;
use nvt_config::{Config, Edit, host_reached, subsystem_reached};
use std::alloc::{AllocError, Global};
use std::marker::Model;

/// The ANA groups that the controllers of each subsystem on each port show to each host.
///
/// They are ready: no call but `new`, `prepare` and `prepare_to` walks over a configuration, and nothing
/// is kept of one. Hosts that are shown nothing of a subsystem share its groups.
#[derive(Drop)]
pub struct AnaView {
    alloc: Global,
    bodies: Bodies,
}

impl Model for AnaView {
    ghost use Rattle.ana_view.specs.View.{ViewState};

    ghost Value = { ViewState };

    ghost view = { λ v. v.bodies };
}

impl AnaView {
    /// The view of a configuration.
    pub fn new(alloc: Global, config: &Config) -> Result<AnaView, AllocError>
        ensures { IfOk result (λ view. ShowsAna config.now view.shown) }
    {
        let bodies = Bodies::of(alloc, config)?;
        Ok(AnaView { alloc, bodies })
    }

    /// Takes all the memory to go over to what an edit makes of the configuration that the view shows.
    /// Every answer is as before, also where memory ran out. An edit that reaches no subsystem's
    /// namespaces or states costs nothing, one that reaches a subsystem's costs its own, for strangers
    /// and for each host that is shown some, and one that shows or hides a namespace costs those of its
    /// host, and copies no configuration.
    pub fn prepare(&mut self, config: &Config, edit: &Edit) -> Result<Plan, AllocError>
        requires { IsOk (accept config.now edit.now) }
        ensures planned { IfOk result (λ plan. IfOk (accept config.now edit.now)
            (λ next. PlansEdit config.now next plan)) }
        ensures next { ShowsAna config.now self.old.shown → IfOk result (λ plan.
            IfOk (accept config.now edit.now) (λ next. LeadsTo next self.old.shown plan)) }
        ensures room { IfOk result (IsPlannedFor self.new) }
        ensures kept { self.new.shown ≡ self.old.shown }
    {
        let Some(subsystem) = subsystem_reached(edit) else {
            return Ok(Plan {
                reached: Reached::Nothing,
            });
        };
        let Some(host) = host_reached(edit) else {
            let next = config.edited(edit)?;
            return self.prepare_to(config, &next, edit);
        };
        self.prepare_one(config, edit, host, subsystem)
    }

    /// The same, for a caller that has the configuration after the edit already.
    pub fn prepare_to(
        &mut self,
        config: &Config,
        next: &Config,
        edit: &Edit,
    ) -> Result<Plan, AllocError>
        requires { accept config.now edit.now ≡ Ok next.now }
        ensures planned { IfOk result (PlansEdit config.now next.now) }
        ensures next { ShowsAna config.now self.old.shown
            → IfOk result (LeadsTo next.now self.old.shown) }
        ensures room { IfOk result (IsPlannedFor self.new) }
        ensures kept { self.new.shown ≡ self.old.shown }
    {
        let Some(subsystem) = subsystem_reached(edit) else {
            return Ok(Plan {
                reached: Reached::Nothing,
            });
        };
        let Some(host) = host_reached(edit) else {
            self.bodies.reserve()?;
            let everyone = self.everyone(config, next, subsystem)?;
            return Ok(Plan {
                reached: Reached::Everyone(everyone),
            });
        };
        self.prepare_one(config, edit, host, subsystem)
    }

    // Prepares an edit that reaches one host alone. Nothing of the configuration is copied.
    fn prepare_one(
        &mut self,
        config: &Config,
        edit: &Edit,
        host: &[u8],
        subsystem: &[u8],
    ) -> Result<Plan, AllocError>
        requires subsystem { subsystem_reached edit.now ≡ Some subsystem.now }
        requires host { host_reached edit.now ≡ Some host.now }
        ensures planned { IfOk result (λ plan. IfOk (accept config.now edit.now)
            (λ next. PlansEdit config.now next plan)) }
        ensures next { ShowsAna config.now self.old.shown → IfOk result (λ plan.
            IfOk (accept config.now edit.now) (λ next. LeadsTo next self.old.shown plan)) }
        ensures room { IfOk result (IsPlannedFor self.new) }
        ensures kept { self.new.shown ≡ self.old.shown }
    {
        self.bodies.reserve()?;
        let one = self.of_host(config, config.shows_after(edit), host, subsystem)?;
        Ok(Plan {
            reached: Reached::Host(one),
        })
    }

    // What an edit makes of a subsystem for every host.
    fn everyone(
        &self,
        old: &Config,
        new: &Config,
        subsystem: &[u8],
    ) -> Result<EveryoneGroups, AllocError>
        ensures { IfOk result (IsOfEveryone old.now new.now subsystem.now) }
    {
        let name = Vec::from_slice(self.alloc, subsystem)?;
        let before = groups_of(self.alloc, old, subsystem)?;
        let after = groups_of(self.alloc, new, subsystem)?;
        Ok(EveryoneGroups {
            subsystem: name,
            before,
            after,
        })
    }

    // What an edit makes of a subsystem for one host: after it there are these shows.
    fn of_host(
        &self,
        config: &Config,
        shows: Shows<'_>,
        host: &[u8],
        subsystem: &[u8],
    ) -> Result<HostGroups, AllocError>
        ensures of { let next = record config.now { shows = shows.entry } in
            IfOk result (IsOfHost config.now next host.now subsystem.now) }
        ensures empty { IfOk result (λ r. r.room.values ≡ []) }
        ensures wide { IfOk result
            (λ r. count_at self.now.shown.subsystems subsystem.now < r.room.room) }
    {
        let is_own = shows.is_shown_of(subsystem, host);
        let before = SubsystemGroups::of(self.alloc, &config.seen_by(host), subsystem)?;
        let seen = config.seen_with(shows, host);
        let after = SubsystemGroups::of(self.alloc, &seen, subsystem)?;
        let room = self.bodies.room_for_host(self.alloc, subsystem)?;
        Ok(HostGroups {
            subsystem: Vec::from_slice(self.alloc, subsystem)?,
            host: Vec::from_slice(self.alloc, host)?,
            before,
            after,
            nobody: SubsystemGroups::empty(self.alloc),
            is_own,
            room,
        })
    }

    /// Goes over to what was prepared last. Takes no memory.
    pub fn commit(&mut self, plan: Plan)
        requires { IsPlannedFor self.old plan }
        ensures { IsShownAfter self.old.shown plan self.new.shown }
    {
        match plan.reached {
            Reached::Nothing => {}
            Reached::Everyone(reached) => self.bodies.replace(reached),
            Reached::Host(reached) => self.bodies.replace_of_host(reached),
        }
    }

    /// The group of this number, from 0, of those that a controller of that subsystem on that port shows
    /// to the host of that name. The host may be one that was never added.
    pub fn group(&self, host: &[u8], subsystem: &[u8], port: u16, index: usize) -> Option<&AnaGroup>
        ensures { option_copied result
            ≡ slice_get (groups_in self.now.shown host.now subsystem.now port) index }
    {
        self.bodies.get(host, subsystem, port).get(index)
    }

    /// Fills `out` with the Asymmetric Namespace Access log page (Base 2.0, section 5.16.1.13) of a
    /// controller of that subsystem on that port for the host of that name, with its counts, from an
    /// offset on, and with zeros past the page's end. With `groups_only` (Return Groups Only) no
    /// descriptor has identifiers.
    pub fn window(
        &self,
        host: &[u8],
        subsystem: &[u8],
        port: u16,
        counts: &AnaCounts,
        groups_only: bool,
        offset: u64,
        out: &mut [u8],
    )
        ensures { out.new
            ≡ window (page_in self.now.shown host.now subsystem.now port counts.now groups_only)
            offset (length out.old) }
    {
        write_page(
            out,
            offset,
            self.bodies.get(host, subsystem, port),
            counts,
            groups_only,
        );
    }

    /// The length of that page in bytes.
    pub fn len(&self, host: &[u8], subsystem: &[u8], port: u16, groups_only: bool) -> u64
        ensures { (counts : Counts) → result
            ≡ length (page_in self.now.shown host.now subsystem.now port counts groups_only) }
    {
        page_len(self.bodies.get(host, subsystem, port), groups_only)
    }
}
