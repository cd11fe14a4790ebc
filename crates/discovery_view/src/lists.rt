//! A table of records, and for each host the places of its records in it.
ghost use Rattle.std.specs.Prelude.{◌≡◌, IfOk, IsOk, Some};
ghost use Rattle.nvt_config.specs.Accept.{accept};
ghost use Rattle.nvt_config.specs.Configuration.{Configuration};
ghost use Rattle.discovery_view.specs.Allowed.{allows_after, edit_of, host_of};
ghost use Rattle.discovery_view.specs.Catalog.{catalog_of};
ghost use Rattle.discovery_view.specs.Plan.{IsPlannedFor, LeadsTo, rows_after, shown_after};
ghost use Rattle.discovery_view.specs.Plan.{slots_after, table_stays};
ghost use Rattle.discovery_view.specs.Ready.{AreFound, AreOf, AreWithin, IsWithin, names_in, next_places};
ghost use Rattle.discovery_view.specs.Ready.{row_at, shown_by};
ghost use Rattle.discovery_view.specs.View.{ShowsFirst, changes_discovery, row_in};

use crate::allowed::{Allowance, allowed_after};
use crate::catalog::{Catalog, kept, same_at_first, same_at_last};
use crate::finding::Finding;
use crate::kept::KeptRecord;
use crate::reach::{Reach, reach_of};
use crate::ready::Ready;
use crate::rows_plan::RowsPlan;
use crate::shown::ShownRecords;
use crate::splice::splice;
use crate::table::Table;
use nvt_config::{Config, Edit};
use std::alloc::{AllocError, Global};
use std::marker::Model;

/// The records of a configuration, one table for all hosts, and for each host the places of those
/// that it is shown, and its count.
#[derive(Drop)]
pub(crate) struct Lists {
    slots: Vec<KeptRecord>,
    table: Table,
}

impl Model for Lists {
    ghost use Rattle.std.specs.Prelude.{◌-◌, vec_capacity, vec_len};
    ghost use Rattle.discovery_view.specs.Ready.{AreWithin, ListsState, shown_by};

    ghost Value = { ListsState };

    ghost view = { λ l. record {
      shown = shown_by l.slots.items l.table;
      slots = l.slots.items;
      rows = l.table;
      room = vec_capacity l.slots - vec_len l.slots;
    } };

    ghost invariant = { λ l. AreWithin l.slots.items l.table };
}

/// What becomes of the lists where they go over to another configuration: which records of the table
/// stay, the first of it and the last, which others come between, and the rows.
#[derive(Drop)]
pub(crate) struct ListsPlan {
    first: usize,
    last: usize,
    fresh: Vec<KeptRecord>,
    rows: RowsPlan,
}

impl Model for ListsPlan {
    ghost use Rattle.discovery_view.specs.Plan.{Planned};

    ghost Value = { Planned };

    ghost view = { λ plan. record {
      first = plan.first;
      last = plan.last;
      fresh = plan.fresh.items;
      rows = plan.rows;
    } };
}

impl ListsPlan {
    /// How many of the first records of the table stay.
    pub(crate) fn first(&self) -> usize
        ensures { result ≡ self.now.first }
    {
        self.first
    }

    /// How many of the last.
    pub(crate) fn last(&self) -> usize
        ensures { result ≡ self.now.last }
    {
        self.last
    }

    /// The records that come between.
    pub(crate) fn fresh(&self) -> &[KeptRecord]
        ensures { result.now ≡ self.now.fresh }
    {
        self.fresh.as_slice()
    }
}

impl Lists {
    /// Those of a configuration that no edit has changed yet.
    pub(crate) fn new(alloc: Global, config: &Config) -> Result<Lists, AllocError>
        ensures shown { IfOk result (λ lists. ShowsFirst config.now lists.shown) }
        ensures of { IfOk result (λ lists. AreOf config.now lists.slots lists.rows) }
    {
        let catalog = Catalog::new(alloc, config)?;
        let table = Table::following(alloc, None, Finding::Sought, &catalog)?;
        let slots = kept(alloc, catalog.entries())?;
        Ok(Lists { slots, table })
    }

    /// Takes all the memory to go over to what an edit makes of this configuration.
    pub(crate) fn prepare(
        &mut self,
        alloc: Global,
        config: &Config,
        edit: &Edit,
    ) -> Result<ListsPlan, AllocError>
        requires accepted { IsOk (accept config.now edit.now) }
        requires of { AreOf config.now self.old.slots self.old.rows }
        ensures planned { IfOk result (λ plan.
            IsPlannedFor self.new.slots self.new.rows self.new.room plan) }
        ensures next { IfOk result (λ plan. IfOk (accept config.now edit.now)
            (λ next. LeadsTo next self.old.shown self.old.slots self.old.rows plan)) }
        ensures shown { self.new.shown ≡ self.old.shown }
        ensures slots { self.new.slots ≡ self.old.slots }
        ensures rows { self.new.rows ≡ self.old.rows }
    {
        match reach_of(edit) {
            Reach::Nobody => Ok(self.staying(alloc, RowsPlan::Stay)),
            Reach::Host(allowance) => self.prepare_host(alloc, config, edit, allowance),
            Reach::Records => self.prepare_all(alloc, &config.edited(edit)?, Finding::Kept),
            Reach::Anybody => self.prepare_all(alloc, &config.edited(edit)?, Finding::Sought),
        }
    }

    // The table of records stays.
    fn staying(&self, alloc: Global, rows: RowsPlan) -> ListsPlan
        ensures plan { result ≡ table_stays self.now.slots rows }
        ensures shown { self.now.shown ≡ shown_by self.now.slots self.now.rows }
        ensures within { AreWithin self.now.slots self.now.rows }
    {
        ListsPlan {
            first: self.slots.len(),
            last: 0,
            fresh: Vec::new(alloc),
            rows,
        }
    }

    // Takes the memory to go over to what an edit makes of this configuration, which shows other records to
    // one host alone.
    fn prepare_host(
        &mut self,
        alloc: Global,
        config: &Config,
        edit: &Edit,
        allowance: Allowance<'_>,
    ) -> Result<ListsPlan, AllocError>
        requires accepted { IsOk (accept config.now edit.now) }
        requires edit { edit.now ≡ edit_of allowance }
        requires of { AreOf config.now self.old.slots self.old.rows }
        ensures planned { IfOk result (λ plan.
            IsPlannedFor self.new.slots self.new.rows self.new.room plan) }
        ensures next { IfOk result (λ plan. IfOk (accept config.now edit.now)
            (λ next. LeadsTo next self.old.shown self.old.slots self.old.rows plan)) }
        ensures shown { self.new.shown ≡ self.old.shown }
        ensures slots { self.new.slots ≡ self.old.slots }
        ensures rows { self.new.rows ≡ self.old.rows }
    {
        match self.table.place_of(allowance.host()) {
            Some(place) => {
                let ready = self.next_row(alloc, config, allowance)?;
                Ok(self.staying(alloc, RowsPlan::One(place, ready)))
            }
            None => self.prepare_all(alloc, &config.edited(edit)?, Finding::Sought),
        }
    }

    // What is ready for the host of an allowance once that is given or taken. The configuration is not
    // copied: its records stay.
    fn next_row(
        &self,
        alloc: Global,
        config: &Config,
        allowance: Allowance<'_>,
    ) -> Result<Ready, AllocError>
        requires { self.now.slots ≡ catalog_of config.now }
        ensures { IfOk result (λ ready. ready ≡ next_places (Some self.now.shown)
            (record config.now { allows = allows_after config.now.allows allowance.entry })
            (host_of allowance.entry)) }
    {
        let catalog = Catalog::of_kept(alloc, config, &self.slots)?;
        let names = allowed_after(alloc, config, allowance)?;
        let before = self.shown(allowance.host());
        Ready::allowed_by(alloc, Some(before), &catalog, &names)
    }

    // Takes all the memory to go over to another configuration.
    fn prepare_all(
        &mut self,
        alloc: Global,
        next: &Config,
        finding: Finding,
    ) -> Result<ListsPlan, AllocError>
        requires { AreFound finding (Some self.old) next.now }
        ensures planned { IfOk result (λ plan.
            IsPlannedFor self.new.slots self.new.rows self.new.room plan) }
        ensures next { IfOk result (λ plan.
            LeadsTo next.now self.old.shown self.old.slots self.old.rows plan) }
        ensures shown { self.new.shown ≡ self.old.shown }
        ensures slots { self.new.slots ≡ self.old.slots }
        ensures rows { self.new.rows ≡ self.old.rows }
    {
        let catalog = Catalog::new(alloc, next)?;
        let table = Table::following(alloc, Some(&*self), finding, &catalog)?;
        let entries = catalog.entries();
        let first = same_at_first(&self.slots, entries);
        let last = same_at_last(&self.slots[first..], &entries[first..]);
        let fresh = kept(alloc, &entries[first..entries.len() - last])?;
        self.slots.reserve(fresh.len())?;
        Ok(ListsPlan {
            first,
            last,
            fresh,
            rows: RowsPlan::All(table),
        })
    }

    /// Goes over to what was prepared. Takes no memory.
    pub(crate) fn commit(&mut self, plan: ListsPlan)
        requires { IsPlannedFor self.old.slots self.old.rows self.old.room plan }
        ensures shown { self.new.shown ≡ shown_after self.old.slots self.old.rows plan }
        ensures slots { self.new.slots ≡ slots_after self.old.slots plan }
        ensures rows { self.new.rows ≡ rows_after self.old.rows plan.rows }
    {
        let ListsPlan {
            first,
            last,
            fresh,
            rows,
        } = plan;
        splice(&mut self.slots, first, fresh, last);
        self.table.follow(rows);
    }

    /// What the host of this name is shown.
    pub(crate) fn shown(&self, host: &[u8]) -> ShownRecords<'_>
        ensures { result ≡ row_in self.now.shown host.now }
    {
        ShownRecords::new(self.slots.as_slice(), self.table.row(host))
    }

    /// What the strangers are shown.
    pub(crate) fn shown_to_strangers(&self) -> ShownRecords<'_>
        ensures { result ≡ self.now.shown.strangers }
    {
        ShownRecords::new(self.slots.as_slice(), self.table.strangers())
    }

    /// What is ready for the host of this name.
    pub(crate) fn row(&self, host: &[u8]) -> &Ready
        ensures row { row_at self.now.slots result.now ≡ row_in self.now.shown host.now }
        ensures ready { result.now ≡ row_in self.now.rows host.now }
        ensures within { IsWithin self.now.slots result.now }
    {
        self.table.row(host)
    }

    /// Whether a plan changes the records of the host of this name: its count goes on.
    pub(crate) fn changes(&self, plan: &ListsPlan, host: &[u8]) -> bool
        ensures { (c d : Configuration) → AreOf c self.now.slots self.now.rows
            → LeadsTo d self.now.shown self.now.slots self.now.rows plan.now
            → result ≡ changes_discovery c d host.now }
    {
        let after = self.table.row_after(&plan.rows, host);
        after.count() != self.table.row(host).count()
    }

    /// The table of records.
    pub(crate) fn slots(&self) -> &[KeptRecord]
        ensures { result.now ≡ self.now.slots }
    {
        self.slots.as_slice()
    }

    /// The rows of places.
    pub(crate) fn table(&self) -> &Table
        ensures { names_in result.now ≡ names_in self.now.shown }
    {
        &self.table
    }
}
