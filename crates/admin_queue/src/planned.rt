//! An edit that the views have planned.
ghost use Rattle.std.specs.Prelude.{◌≡◌};
ghost use Rattle.nvt_config.specs.Configuration.{Configuration};
ghost use Rattle.discovery_view.specs.View.{changes_discovery};

use ana_view::Plan as AnaPlan;
use change_lists::Plan as ActivePlan;
use discovery_view::{DiscoveryView, Plan as DiscoveryPlan};
use std::marker::Model;

/// An edit that the views have planned and that is not committed. What it tells is looked up in their
/// plans, and no configuration is looked into. A contract goes by the configuration before the edit and
/// the one after it, whichever the plans lie between.
#[derive(Drop)]
pub struct PlannedEdit<'a> {
    view: &'a DiscoveryView,
    discovery: &'a DiscoveryPlan,
    active: &'a ActivePlan,
    ana: &'a AnaPlan,
}

impl<'a> Model for PlannedEdit<'a> {
    ghost use Rattle.admin_queue.specs.Planned.{PlanState};

    ghost Value = { PlanState };

    ghost view = { λ p. record {
      view = p.view.now;
      discovery = p.discovery.now;
      active = p.active.now;
      ana = p.ana.now;
    } };
}

impl<'a> PlannedEdit<'a> {
    ghost use Rattle.admin_queue.specs.Planned.{Plans};

    /// The edit by what each view planned: the discovery view, which lends its own, and the others.
    pub fn new(
        view: &'a DiscoveryView,
        discovery: &'a DiscoveryPlan,
        active: &'a ActivePlan,
        ana: &'a AnaPlan,
    ) -> PlannedEdit<'a>
        ensures { result ≡ record {
          view = view.now;
          discovery = discovery.now;
          active = active.now;
          ana = ana.now;
        } }
    {
        PlannedEdit {
            view,
            discovery,
            active,
            ana,
        }
    }

    /// Whether the edit changes the records of the host of this name.
    pub fn changes_discovery(&self, host: &[u8]) -> bool
        ensures { (old new : Configuration) → Plans old new self.now
            → result ≡ changes_discovery old new host.now }
    {
        self.view.changes(self.discovery, host)
    }

    /// What it makes of the active lists.
    pub(crate) fn active(&self) -> &ActivePlan
        ensures { result.now ≡ self.now.active }
    {
        self.active
    }

    /// What it makes of the ANA groups.
    pub(crate) fn ana(&self) -> &AnaPlan
        ensures { result.now ≡ self.now.ana }
    {
        self.ana
    }
}
