//! What a view has ready for each host.
ghost use Rattle.std.specs.Prelude.{◌≡◌, ◌∷◌, ◌++◌, [], false, IfOk, IsFalse, MatchOption, OnOk};
ghost use Rattle.std.specs.Prelude.{map};
ghost use Rattle.std.specs.Option.{option_copied};
ghost use Rattle.nvt_config.specs.Configuration.{has_host};
ghost use Rattle.nvt_config.specs.Valid.{IsValid};
ghost use Rattle.discovery_view.specs.Plan.{IsPlaceOf, row_set, rows_after};
ghost use Rattle.discovery_view.specs.Ready.{AreFound, Follows, has_row, names_before, next_places};
ghost use Rattle.discovery_view.specs.Ready.{places_after};
ghost use Rattle.discovery_view.specs.Ready.{row_before, shown_before, stranger, strangers_before};
ghost use Rattle.discovery_view.specs.Ready.{with_row, with_rows};
ghost use Rattle.discovery_view.specs.View.{row_among, row_in};

use crate::catalog::Catalog;
use crate::finding::Finding;
use crate::lists::Lists;
use crate::ready::Ready;
use crate::rows_plan::RowsPlan;
use crate::shown::ShownRecords;
use indexmap::IndexMap;
use std::alloc::{AllocError, Global};
use std::marker::Model;

/// The places and the count of each host whose name was ever added, by its name, and those of the
/// strangers: the hosts whose names never were.
#[derive(Drop)]
pub(crate) struct Table {
    hosts: IndexMap<Vec<u8>, Ready>,
    strangers: Ready,
}

impl Model for Table {
    ghost use Rattle.std.specs.Prelude.{map};
    ghost use Rattle.discovery_view.specs.Ready.{Places};
    ghost use Rattle.discovery_view.specs.View.{Rows};

    ghost Value = { Rows Places };

    ghost view = { λ t. record {
      hosts = map (λ e. record { name = e.0.items; row = e.1 }) t.hosts.entries;
      strangers = t.strangers;
    } };
}

// A text that is longer than any name, and so the name of no host.
const STRANGER: [u8; 224] = [0; 224];

impl Table {
    /// What a configuration of this catalog shows to each host. Each count goes on from the one before,
    /// that of a new name from the strangers'; where nothing was before, each begins at 0.
    pub(crate) fn following(
        alloc: Global,
        before: Option<&Lists>,
        finding: Finding,
        catalog: &Catalog<'_>,
    ) -> Result<Table, AllocError>
        requires { AreFound finding (option_copied before) catalog.now }
        ensures rows { IfOk result (λ table. Follows
            (next_places (shown_before (option_copied before.entry)) catalog.now) table) }
        ensures strangers { IfOk result (λ table. table.strangers ≡ places_after
            (strangers_before (shown_before (option_copied before.entry))) catalog.now stranger) }
    {
        let last = strangers_of(before);
        let strangers = Ready::following(alloc, last, catalog, &STRANGER)?;
        let mut table = Table {
            hosts: IndexMap::new(alloc),
            strangers,
        };
        table.add_known(alloc, before, finding, catalog)?;
        table.add_hosts(alloc, before, finding, catalog)?;
        Ok(table)
    }

    /// What is ready for the host of this name.
    pub(crate) fn row(&self, host: &[u8]) -> &Ready
        ensures { result.now ≡ row_in self.now host.now }
    {
        match self.hosts.get(host) {
            Some(ready) => ready,
            None => &self.strangers,
        }
    }

    /// What is ready for the host of this name once a plan is followed.
    pub(crate) fn row_after<'a>(&'a self, plan: &'a RowsPlan, host: &[u8]) -> &'a Ready
        ensures { result.now ≡ row_in (rows_after self.now plan.now) host.now }
    {
        match plan {
            RowsPlan::Stay => self.row(host),
            RowsPlan::One(place, ready) => self.row_beside(*place, ready, host),
            RowsPlan::All(table) => table.row(host),
        }
    }

    // What is ready for the host of this name where this row comes to a place.
    fn row_beside<'a>(&'a self, place: usize, ready: &'a Ready, host: &[u8]) -> &'a Ready
        ensures { result.now
            ≡ row_among (row_set self.now.hosts place ready.now) self.now.strangers host.now }
    {
        match self.place_of(host) {
            Some(there) => {
                if there == place {
                    ready
                } else {
                    self.row(host)
                }
            }
            None => self.row(host),
        }
    }

    /// What is ready for the strangers.
    pub(crate) fn strangers(&self) -> &Ready
        ensures { result.now ≡ self.now.strangers }
    {
        &self.strangers
    }

    /// The place of the row of that name among those of hosts, where it has one.
    pub(crate) fn place_of(&self, host: &[u8]) -> Option<usize>
        ensures { MatchOption result (has_row self.now.hosts host.now ≡ false)
            (IsPlaceOf host.now self.now.hosts) }
    {
        self.hosts.get_index_of(host)
    }

    /// Goes over to what was planned. Takes no memory.
    pub(crate) fn follow(&mut self, plan: RowsPlan)
        ensures { self.new ≡ rows_after self.old plan }
    {
        match plan {
            RowsPlan::Stay => {}
            RowsPlan::One(place, ready) => self.set(place, ready),
            RowsPlan::All(table) => *self = table,
        }
    }

    // Another row at a place among those of hosts.
    fn set(&mut self, place: usize, ready: Ready)
        ensures { self.new ≡ record self.old { hosts = row_set self.old.hosts place ready } }
    {
        let Some(row) = self.hosts.get_index_mut(place) else {
            return;
        };
        *row = ready;
    }

    // Whether the name is there.
    fn has(&self, host: &[u8]) -> bool
        ensures { result ≡ has_row self.now.hosts host.now }
    {
        self.hosts.contains_key(host)
    }

    // Adds the names that were there before.
    fn add_known(
        &mut self,
        alloc: Global,
        before: Option<&Lists>,
        finding: Finding,
        catalog: &Catalog<'_>,
    ) -> Result<(), AllocError>
        requires { AreFound finding (option_copied before) catalog.now }
        ensures { let shown = shown_before (option_copied before.entry) in OnOk result (self.new
            ≡ with_rows (next_places shown catalog.now) self.old (names_before shown)) }
    {
        let Some(known) = before else {
            return Ok(());
        };
        for (name, _) in known.table().hosts.iter() {
            self.add(alloc, before, finding, catalog, name)?;
        }
        Ok(())
    }

    // Adds the names of a configuration's hosts.
    fn add_hosts(
        &mut self,
        alloc: Global,
        before: Option<&Lists>,
        finding: Finding,
        catalog: &Catalog<'_>,
    ) -> Result<(), AllocError>
        requires { AreFound finding (option_copied before) catalog.now }
        ensures rows { let shown = shown_before (option_copied before.entry) in OnOk result (self.new
            ≡ with_rows (next_places shown catalog.now) self.old
            (map (λ host. host.nqn) catalog.now.hosts)) }
        ensures short { OnOk result (IsFalse (has_host catalog.now.hosts stranger)) }
        ensures valid { OnOk result (IsValid catalog.now) }
    {
        for host in catalog.config().hosts() {
            // A name has at most 223 bytes.
            let _ = host.nqn.len();
            self.add(alloc, before, finding, catalog, host.nqn.as_bytes())?;
        }
        Ok(())
    }

    // Adds a name, unless it is there.
    fn add(
        &mut self,
        alloc: Global,
        before: Option<&Lists>,
        finding: Finding,
        catalog: &Catalog<'_>,
        name: &[u8],
    ) -> Result<(), AllocError>
        requires { AreFound finding (option_copied before) catalog.now }
        ensures { let shown = shown_before (option_copied before.entry) in OnOk result (self.new
            ≡ with_row (next_places shown catalog.now) self.old name.now) }
    {
        if self.has(name) {
            return Ok(());
        }
        let ready = next_ready(alloc, before, finding, catalog, name)?;
        self.put(Vec::from_slice(alloc, name)?, ready)
    }

    // Adds a row of a name that is not there.
    fn put(&mut self, name: Vec<u8>, ready: Ready) -> Result<(), AllocError>
        requires { IsFalse (has_row self.old.hosts name.items) }
        ensures { OnOk result (self.new ≡ record self.old {
          hosts
              = self.old.hosts ++ (record { name = name.items; row = ready }) ∷ [];
        }) }
    {
        self.hosts.insert(name, ready)?;
        Ok(())
    }
}

// What a configuration of this catalog shows to the host of this name.
fn next_ready(
    alloc: Global,
    before: Option<&Lists>,
    finding: Finding,
    catalog: &Catalog<'_>,
    name: &[u8],
) -> Result<Ready, AllocError>
    requires { AreFound finding (option_copied before) catalog.now }
    ensures { IfOk result (λ ready. ready
        ≡ next_places (shown_before (option_copied before.entry)) catalog.now name.now) }
{
    match (before, finding) {
        (Some(lists), Finding::Kept) => {
            let places = lists.row(name).places();
            Ready::staying(alloc, lists.shown(name), places, catalog)
        }
        _ => Ready::following(alloc, row_of(before, name), catalog, name),
    }
}

// What the host of this name was shown, where anything was before.
fn row_of<'a>(before: Option<&'a Lists>, host: &[u8]) -> Option<ShownRecords<'a>>
    ensures { result ≡ row_before (shown_before (option_copied before.entry)) host.now }
{
    match before {
        Some(lists) => Some(lists.shown(host)),
        None => None,
    }
}

// What the strangers were shown, where anything was before.
fn strangers_of(before: Option<&Lists>) -> Option<ShownRecords<'_>>
    ensures { result ≡ strangers_before (shown_before (option_copied before.entry)) }
{
    match before {
        Some(lists) => Some(lists.shown_to_strangers()),
        None => None,
    }
}
