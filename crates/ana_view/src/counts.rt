//! How often edits changed what one controller shows.
ghost use Rattle.std.specs.Prelude.{◌≡◌};
ghost use Rattle.nvt_config.specs.Configuration.{Configuration};
ghost use Rattle.nvt_config.specs.SeenBy.{seen_by};
ghost use Rattle.ana_view.specs.Counts.{count_after, count_in, counts_with, for_each_group};
ghost use Rattle.ana_view.specs.Group.{any_group, changes_ana};
ghost use Rattle.ana_view.specs.GroupChanges.{has_changed};
ghost use Rattle.ana_view.specs.View.{PlansEdit};

use crate::group_changes::{GROUPS, GroupChanges};
use crate::plan::Plan;
use config_lists::GROUP_END;
use std::marker::Model;

/// The change counts of the Asymmetric Namespace Access log page of one controller: the page's own,
/// and one for each group. They take no memory, and go round after 64 bits.
#[derive(Drop)]
pub struct AnaCounts {
    changes: u64,
    // That of the first group first.
    groups: [u64; GROUPS],
}

impl Model for AnaCounts {
    ghost use Rattle.ana_view.specs.Counts.{Counts};

    ghost Value = { Counts };

    ghost view = { λ c. record { changes = c.changes; groups = c.groups } };
}

impl AnaCounts {
    ghost use Rattle.ana_view.specs.Counts.{count_in, counts_after, no_changes};
    ghost use Rattle.ana_view.specs.Group.{changes_ana};

    /// The counts of a controller that has just been enabled: 0.
    pub fn new() -> AnaCounts
        ensures { result ≡ no_changes }
    {
        AnaCounts {
            changes: 0,
            groups: [0; GROUPS],
        }
    }

    /// Sets each count to 0, as the controller is enabled.
    pub fn reset(&mut self)
        ensures { self.new ≡ no_changes }
    {
        *self = AnaCounts::new();
    }

    /// Counts what an edit is going to change of what the controllers of that subsystem on that port
    /// show to the host of that name; whether it changes anything. It comes before the plan is
    /// committed. A group that comes, goes, gets or loses a namespace that the host sees, or goes over to
    /// another state has changed.
    pub fn note(&mut self, plan: &Plan, host: &[u8], subsystem: &[u8], port: u16) -> bool
        ensures changed { (old new : Configuration) → PlansEdit old new plan.now → result
            ≡ changes_ana (seen_by old host.now) (seen_by new host.now) subsystem.now port }
        ensures counts { (old new : Configuration) → PlansEdit old new plan.now → self.new
            ≡ counts_after (seen_by old host.now) (seen_by new host.now) subsystem.now port self.old }
    {
        self.count(&GroupChanges::of(plan, host, subsystem, port))
    }

    /// Counts each of these groups, and the page, where there is one; whether there is.
    pub fn count(&mut self, changes: &GroupChanges) -> bool
        ensures changed { result ≡ any_group (has_changed changes.now) }
        ensures counts { self.new ≡ counts_with (has_changed changes.now) self.old }
    {
        let changed = count_groups(&mut self.groups, changes);
        if changed {
            self.changes = self.changes.wrapping_add(1);
        }
        changed
    }

    /// How often what the controller shows has changed.
    pub(crate) fn changes(&self) -> u64
        ensures { result ≡ self.now.changes }
    {
        self.changes
    }

    /// How often the group has changed.
    pub(crate) fn of(&self, group: u32) -> u64
        ensures { result ≡ count_in self.now.groups group }
    {
        match self.groups.get(group.saturating_sub(1) as usize) {
            Some(count) => *count,
            None => 0,
        }
    }
}

// Counts each of these groups; whether there is one.
fn count_groups(counts: &mut [u64; GROUPS], changes: &GroupChanges) -> bool
    ensures changed { result ≡ any_group (has_changed changes.now) }
    ensures counts { counts.new ≡ for_each_group
        (λ group. count_after (has_changed changes.now group) (count_in counts.old group)) }
{
    let mut changed = false;
    for group in 1..GROUP_END {
        if changes.has(group) {
            let at = group as usize - 1;
            counts[at] = counts[at].wrapping_add(1);
            changed = true;
        }
    }
    changed
}
