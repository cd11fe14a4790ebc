//! The views follow the edits of a configuration together.
ghost use Rattle.std.specs.Prelude.{◌≡◌, ◌≤◌, ◌+◌, IfOk, IsOk, MatchResult, Ok, OnErr, Err, length};
ghost use Rattle.admin_queue.specs.Pages.{pages_in};
ghost use Rattle.ana_view.specs.View.{IsPlannedFor as AnaIsPlannedFor, ShowsAna};
ghost use Rattle.change_lists.specs.ActiveView.{IsPlannedFor as ActiveIsPlannedFor, ShowsActive};
ghost use Rattle.nvt_config.specs.Accept.{accept};
ghost use Rattle.nvt_config.specs.Configuration.{Configuration};
ghost use Rattle.discovery_view.specs.Catalog.{catalog_of};
ghost use Rattle.discovery_view.specs.Forming.{reach};
ghost use Rattle.target_state.specs.Views.{ArePlannedFor, AreViewsOf, LeadTo, ListsLeadTo, ShowFirst};
ghost use Rattle.target_state.specs.Views.{ShowNext};
ghost use Rattle.target_state.specs.Views.{active_state, ana_state, pages_shown, planned_by};

use admin_queue::{Pages, PlannedEdit};
use ana_view::{AnaView, Plan as AnaPlan};
use change_lists::{ActiveView, Plan as ActivePlan};
use discovery_view::{DiscoveryView, Plan as DiscoveryPlan, RecordFormer};
use nvt_config::{Config, Edit, host_reached, subsystem_reached};
use std::alloc::{AllocError, Global};
use std::marker::Model;

/// A view for each log page and each list. A further one is a field more.
#[derive(Drop)]
pub struct Views {
    discovery: DiscoveryView,
    active: ActiveView,
    ana: AnaView,
}

impl Model for Views {
    ghost use Rattle.target_state.specs.Views.{ViewsState};

    ghost Value = { ViewsState };

    ghost view = { λ v. record {
      shown = record {
        discovery = v.discovery.shown;
        active = v.active.shown;
        ana = v.ana.shown;
      };
      slots = v.discovery.slots;
      rows = v.discovery.rows;
      room = v.discovery.room;
      formed = v.discovery.formed;
      active_room = v.active.room;
      ana_room = v.ana.room;
    } };
}

/// What an edit will make of the views.
#[derive(Drop)]
pub struct Plans {
    discovery: DiscoveryPlan,
    active: ActivePlan,
    ana: AnaPlan,
}

impl Model for Plans {
    ghost use Rattle.target_state.specs.Views.{PlansState};

    ghost Value = { PlansState };

    ghost view = { λ plans. record {
      discovery = plans.discovery;
      active = plans.active;
      ana = plans.ana;
    } };
}

impl Views {
    /// The views of a configuration that no edit has changed yet.
    pub fn new(alloc: Global, config: &Config) -> Result<Views, AllocError>
        ensures shown { IfOk result (λ views. ShowFirst config.now views.shown) }
        ensures of { IfOk result (AreViewsOf config.now) }
        ensures formed { IfOk result (λ views. views.formed ≤ length (catalog_of config.now)) }
    {
        let discovery = DiscoveryView::new(alloc, config, RecordFormer::new())?;
        let (discovery, active) = both(discovery, ActiveView::new(alloc, config))?;
        let ((discovery, active), ana) = both((discovery, active), AnaView::new(alloc, config))?;
        Ok(Views {
            discovery,
            active,
            ana,
        })
    }

    /// Takes all the memory to go over to what an edit makes of this configuration, whose views they
    /// are, and forms the records that are new: no more than the edit reaches. Every page is as before.
    /// So is `formed` where memory ran out, since what forms records comes last.
    pub fn prepare(&mut self, config: &Config, edit: &Edit) -> Result<Plans, AllocError>
        requires accepted { IsOk (accept config.now edit.now) }
        requires of { AreViewsOf config.now self.old }
        ensures planned { IfOk result (ArePlannedFor self.new) }
        ensures leads { IfOk result (λ plans. IfOk (accept config.now edit.now)
            (λ next. LeadTo config.now next self.new plans)) }
        ensures kept { self.new.shown ≡ self.old.shown }
        ensures stays { (c : Configuration) → AreViewsOf c self.old → AreViewsOf c self.new }
        ensures reach { self.new.formed ≤ self.old.formed + reach config.now edit.now }
        ensures unformed { OnErr result (self.new.formed ≡ self.old.formed) }
    {
        let lists = self.prepare_lists(config, edit)?;
        let discovery = self.discovery.prepare(config, edit);
        let ((active, ana), discovery) = both(lists, discovery)?;
        Ok(Plans {
            discovery,
            active,
            ana,
        })
    }

    // Prepares the views of namespaces, which change where the edit reaches a subsystem. The configuration
    // that it makes is made once for both, and not at all where it reaches one host alone.
    fn prepare_lists(
        &mut self,
        config: &Config,
        edit: &Edit,
    ) -> Result<(ActivePlan, AnaPlan), AllocError>
        requires { IsOk (accept config.now edit.now) }
        ensures active { IfOk result (λ plans. ActiveIsPlannedFor (active_state self.new) plans.0) }
        ensures ana { IfOk result (λ plans. AnaIsPlannedFor (ana_state self.new) plans.1) }
        ensures lead { ShowsActive config.now self.old.shown.active → ShowsAna config.now self.old.shown.ana
            → IfOk result (λ plans. IfOk (accept config.now edit.now)
            (λ next. ListsLeadTo config.now next self.old.shown plans.0 plans.1)) }
        ensures kept { self.new ≡ record self.old { active_room = self.new.active_room; ana_room = self.new.ana_room } }
    {
        if subsystem_reached(edit).is_none() || host_reached(edit).is_some() {
            let active = self.active.prepare(config, edit)?;
            return both(active, self.ana.prepare(config, edit));
        }
        let next = config.edited(edit)?;
        let active = self.active.prepare_to(config, &next, edit)?;
        both(active, self.ana.prepare_to(config, &next, edit))
    }

    /// The edit that was prepared last, as it is told.
    pub fn planned<'a>(&'a self, plans: &'a Plans) -> PlannedEdit<'a>
        ensures { result ≡ planned_by self.now plans.now }
    {
        PlannedEdit::new(&self.discovery, &plans.discovery, &plans.active, &plans.ana)
    }

    /// Goes over to what was prepared last. Takes no memory and forms no record.
    pub fn commit(&mut self, plans: Plans)
        requires { ArePlannedFor self.old plans }
        ensures shown { (c next : Configuration) → LeadTo c next self.old plans
            → ShowNext next self.old.shown self.new.shown }
        ensures of { (c next : Configuration) → LeadTo c next self.old plans
            → AreViewsOf next self.new }
        ensures formed { self.new.formed ≡ self.old.formed }
    {
        let Plans {
            discovery,
            active,
            ana,
        } = plans;
        self.discovery.commit(discovery);
        self.active.commit(active);
        self.ana.commit(ana);
    }

    /// What replies are written from.
    pub fn pages(&self) -> Pages<'_>
        ensures { pages_in result ≡ pages_shown self.now.shown }
    {
        Pages {
            discovery: &self.discovery,
            active: &self.active,
            ana: &self.ana,
        }
    }

    /// How many records of the discovery log page were formed, or the greatest number of 64 bits where
    /// they are more.
    pub fn formed(&self) -> u64
        ensures { result ≡ self.now.formed }
    {
        self.discovery.formed()
    }
}

// Both, where the second is there. What drops the first is proved for any type, and not of each part of
// a view.
fn both<A: Drop, B: Drop>(first: A, second: Result<B, AllocError>) -> Result<(A, B), AllocError>
    ensures { MatchResult second (λ b. result ≡ Ok (first, b)) (λ error. result ≡ Err error) }
{
    match second {
        Ok(second) => Ok((first, second)),
        Err(error) => Err(error),
    }
}
