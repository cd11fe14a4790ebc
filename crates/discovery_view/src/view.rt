//! A discovery view: it follows the edits of a configuration and lends each host its page.
ghost use Rattle.std.specs.Prelude.{◌≡◌, ◌≤◌, ◌+◌, IsOk, IfOk, MatchOption, OnErr, length, nat_lt};
ghost use Rattle.std.specs.Prelude.{slice_index_or};
ghost use Rattle.nvt_config.specs.Accept.{accept};
ghost use Rattle.nvt_config.specs.Configuration.{Configuration};
ghost use Rattle.nvt_fields.specs.Window.{window};
ghost use Rattle.discovery_view.specs.Plan.{IsPlannedFor, LeadsTo, rows_after, shown_after};
ghost use Rattle.discovery_view.specs.Plan.{slots_after};
ghost use Rattle.discovery_view.specs.Ready.{AreOf};
ghost use Rattle.discovery_view.specs.Catalog.{catalog_of, no_parts};
ghost use Rattle.discovery_view.specs.Forming.{reach};
ghost use Rattle.discovery_view.specs.Record.{record_of};
ghost use Rattle.discovery_view.specs.View.{ShowsFirst, changes_discovery, count_in};
ghost use Rattle.discovery_view.specs.View.{page_in};
ghost use Rattle.discovery_view.specs.View.{records_in, row_in};

use crate::formed::FormedRecords;
use crate::former::{Former, RecordFormer, form_all};
use crate::lists::{Lists, ListsPlan};
use crate::page::{page_len, write_page};
use crate::splice::splice;
use nvt_config::{Config, Edit};
use std::alloc::{AllocError, Global};
use std::marker::Model;

/// The records of each host, and how often edits changed them. They are ready: no call but `new` and
/// `prepare` walks over a configuration, and nothing is kept of one.
#[derive(Drop)]
pub struct DiscoveryView<F: Former = RecordFormer> {
    alloc: Global,
    former: F,
    // A formed record for each of the table.
    formed: Vec<F::Record>,
    lists: Lists,
}

impl<F: Former> Model for DiscoveryView<F> {
    ghost use Rattle.std.specs.Prelude.{◌≡◌, ◌-◌, map, min, vec_capacity, vec_len};
    ghost use Rattle.discovery_view.specs.Ready.{ViewState};
    ghost use Rattle.discovery_view.specs.Record.{record_of};

    ghost Value = { ViewState };

    ghost view = { λ v. record {
      shown = v.lists.shown;
      slots = v.lists.slots;
      rows = v.lists.rows;
      room = min v.lists.room (vec_capacity v.formed - vec_len v.formed);
      formed = F.count v.former;
    } };

    ghost invariant = { λ v. map F.bytes_of v.formed.items ≡ map record_of v.lists.slots };
}

/// What an edit will make of a view. A contract sees what becomes of its table and its rows.
#[derive(Drop)]
pub struct Plan<F: Former = RecordFormer> {
    fresh: Vec<F::Record>,
    lists: ListsPlan,
}

impl<F: Former> Model for Plan<F> {
    ghost use Rattle.std.specs.Prelude.{◌≡◌, map};
    ghost use Rattle.discovery_view.specs.Plan.{Planned};
    ghost use Rattle.discovery_view.specs.Record.{record_of};

    ghost Value = { Planned };

    ghost view = { λ plan. plan.lists };

    ghost invariant = { λ plan. map F.bytes_of plan.fresh.items ≡ map record_of plan.lists.fresh };
}

impl<F: Former + Drop> DiscoveryView<F> {
    /// The view of a configuration that no edit has changed yet, whose records this forms.
    pub fn new(alloc: Global, config: &Config, former: F) -> Result<DiscoveryView<F>, AllocError>
        ensures shown { IfOk result (λ view. ShowsFirst config.now view.shown) }
        ensures of { IfOk result (λ view. AreOf config.now view.slots view.rows) }
        ensures formed { IfOk result (λ view.
            view.formed ≤ F.count former + length (catalog_of config.now)) }
    {
        let mut former = former;
        let lists = Lists::new(alloc, config)?;
        let formed = form_all(alloc, &mut former, lists.slots())?;
        Ok(DiscoveryView {
            alloc,
            former,
            formed,
            lists,
        })
    }

    /// Takes all the memory to go over to the configuration that an edit makes of this one, which is
    /// the one that the view shows, and forms the records that are new: no more than the edit reaches.
    /// Every answer but `formed` is as before, also where memory ran out.
    pub fn prepare(&mut self, config: &Config, edit: &Edit) -> Result<Plan<F>, AllocError>
        requires accepted { IsOk (accept config.now edit.now) }
        requires of { AreOf config.now self.old.slots self.old.rows }
        ensures next { IfOk result (λ plan. IfOk (accept config.now edit.now)
            (λ next. LeadsTo next self.old.shown self.old.slots self.old.rows plan)) }
        ensures planned { IfOk result (λ plan.
            IsPlannedFor self.new.slots self.new.rows self.new.room plan) }
        ensures formed { IfOk result (λ plan. self.new.formed ≤ self.old.formed + length plan.fresh) }
        ensures reach { self.new.formed ≤ self.old.formed + reach config.now edit.now }
        ensures unformed { OnErr result (self.new.formed ≡ self.old.formed) }
        ensures kept { self.new.shown ≡ self.old.shown }
        ensures slots { self.new.slots ≡ self.old.slots }
        ensures rows { self.new.rows ≡ self.old.rows }
    {
        // prover: a configuration is valid, and so an edit forms no more than it reaches.
        config.units();
        let lists = self.lists.prepare(self.alloc, config, edit)?;
        self.formed.reserve(lists.fresh().len())?;
        let fresh = form_all(self.alloc, &mut self.former, lists.fresh())?;
        Ok(Plan { fresh, lists })
    }

    /// Goes over to what was prepared. Takes no memory and forms no record. The plan is the last that
    /// was prepared, and none was committed since, so that the counts go on from those of now.
    pub fn commit(&mut self, plan: Plan<F>)
        requires { IsPlannedFor self.old.slots self.old.rows self.old.room plan }
        ensures shown { self.new.shown ≡ shown_after self.old.slots self.old.rows plan }
        ensures slots { self.new.slots ≡ slots_after self.old.slots plan }
        ensures rows { self.new.rows ≡ rows_after self.old.rows plan.rows }
        ensures formed { self.new.formed ≡ self.old.formed }
    {
        let Plan { fresh, lists } = plan;
        splice(&mut self.formed, lists.first(), fresh, lists.last());
        self.lists.commit(lists);
    }

    /// Whether a plan, the last that was prepared, changes the records of the host of this name: as the
    /// host is told by a Discovery Log Page Change event (Base 2.0, section 5.2.1), and as its generation
    /// counter counts.
    pub fn changes(&self, plan: &Plan<F>, host: &[u8]) -> bool
        ensures { (c d : Configuration) → AreOf c self.now.slots self.now.rows
            → LeadsTo d self.now.shown self.now.slots self.now.rows plan.now
            → result ≡ changes_discovery c d host.now }
    {
        self.lists.changes(&plan.lists, host)
    }

    // What the host of this name is shown.
    fn shown(&self, host: &[u8]) -> FormedRecords<'_, F>
        ensures { result ≡ row_in self.now.shown host.now }
    {
        FormedRecords::new(
            self.formed.as_slice(),
            self.lists.slots(),
            self.lists.row(host),
        )
    }

    /// Fills `out` with the host's page from an offset on, and with zeros past the page's end.
    #[tactic(auto, unfolding(crate::specs::View::records_in, crate::specs::View::count_in))]
    pub fn window(&self, host: &[u8], offset: u64, out: &mut [u8])
        ensures { out.new ≡ window (page_in self.now.shown host.now) offset (length out.old) }
    {
        write_page(out, offset, &self.shown(host));
    }

    /// The length of the host's page in bytes.
    #[tactic(auto, unfolding(crate::specs::View::records_in))]
    pub fn len(&self, host: &[u8]) -> u64
        ensures { result ≡ length (page_in self.now.shown host.now) }
    {
        page_len(&self.shown(host))
    }

    /// Whether an offset is past the end of the host's page.
    pub fn is_past_end(&self, host: &[u8], offset: u64) -> bool
        ensures { result ≡ nat_lt (length (page_in self.now.shown host.now)) offset }
    {
        offset > self.len(host)
    }

    /// The host's generation counter (GENCTR): how many edits have changed its records.
    #[tactic(auto, unfolding(crate::specs::View::count_in))]
    pub fn count(&self, host: &[u8]) -> u64
        ensures { result ≡ count_in self.now.shown host.now }
    {
        self.shown(host).count()
    }

    /// The record of this number, from 0, of the host's page.
    #[tactic(auto, unfolding(crate::specs::View::records_in))]
    pub fn record(&self, host: &[u8], index: usize) -> Option<&F::Record>
        ensures { let records = records_in self.now.shown host.now in MatchOption result
            (length records ≤ index) (λ r. F.bytes_of r.now
            ≡ record_of (slice_index_or records index no_parts)) }
    {
        let shown = self.shown(host);
        if index < shown.len() {
            Some(shown.get(index))
        } else {
            None
        }
    }

    /// How many records were formed, or the greatest number of 64 bits where they are more.
    pub fn formed(&self) -> u64
        ensures { result ≡ self.now.formed }
    {
        self.former.formed()
    }
}
