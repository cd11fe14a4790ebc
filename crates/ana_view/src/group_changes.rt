//! Which ANA groups an edit changes.
ghost use Rattle.std.specs.Prelude.{◌≡◌, ◌≤◌, ℕ, Some};
ghost use Rattle.std.specs.Option.{option_copied};
ghost use Rattle.nvt_config.specs.Configuration.{Configuration};
ghost use Rattle.nvt_config.specs.SeenBy.{seen_by};
ghost use Rattle.ana_view.specs.Group.{are_same, are_same_numbers};
ghost use Rattle.ana_view.specs.GroupChanges.{AreChanges, differs_in, group_in, has_changed};
ghost use Rattle.ana_view.specs.View.{PlansEdit};

use crate::group_list::AnaGroup;
use crate::plan::Plan;
use crate::state::state_code;
use config_lists::GROUP_END;
use std::marker::Model;

/// How many ANA groups there may be.
pub(crate) const GROUPS: usize = GROUP_END as usize - 1;

/// The ANA groups that an edit changes, of those that the controllers of one subsystem on one port show to
/// one host. Each of these controllers counts them (`AnaCounts::count`). It takes no memory.
#[derive(Drop)]
pub struct GroupChanges {
    // Of the first group first.
    changed: [bool; GROUPS],
}

impl Model for GroupChanges {
    ghost use Rattle.std.specs.Prelude.{Bool, List};

    ghost Value = { List Bool };

    ghost view = { λ c. c.changed };
}

impl GroupChanges {
    /// Those that an edit is going to change as the host of that name sees them. It comes before the plan
    /// is committed. A group that comes, goes, gets or loses a namespace that the host sees, or goes over
    /// to another state has changed.
    pub fn of(plan: &Plan, host: &[u8], subsystem: &[u8], port: u16) -> GroupChanges
        ensures { (old new : Configuration) → PlansEdit old new plan.now
            → AreChanges (seen_by old host.now) (seen_by new host.now) subsystem.now port result }
    {
        match plan.reached(host, subsystem) {
            Some(groups) => GroupChanges {
                changed: differences(groups.before.on(port), groups.after.on(port)),
            },
            None => GroupChanges {
                changed: [false; GROUPS],
            },
        }
    }

    /// Whether the group is one of them.
    pub fn has(&self, group: u32) -> bool
        ensures { result ≡ has_changed self.now group }
    {
        match self.changed.get(group.saturating_sub(1) as usize) {
            Some(changed) => *changed,
            None => false,
        }
    }
}

// Of each group whether it is another in the second listing than in the first.
fn differences(old: &[AnaGroup], new: &[AnaGroup]) -> [bool; GROUPS]
    ensures { (group : ℕ) → 1 ≤ group → group ≤ 32
        → has_changed result group ≡ differs_in old.now new.now group }
{
    let mut changed = [false; GROUPS];
    for group in 1..GROUP_END {
        changed[group as usize - 1] = !is_same(find(old, group), find(new, group));
    }
    changed
}

// The group of that identifier, if it is there.
fn find(groups: &[AnaGroup], id: u32) -> Option<&AnaGroup>
    ensures { option_copied result ≡ group_in groups.now id }
{
    for group in groups {
        if group.id() == id {
            return Some(group);
        }
    }
    None
}

// Whether a group is what it was, absence being a value.
fn is_same(old: Option<&AnaGroup>, new: Option<&AnaGroup>) -> bool
    ensures { result ≡ are_same (option_copied old.entry) (option_copied new.entry) }
{
    match (old, new) {
        (None, None) => true,
        (Some(old), Some(new)) => has_same(old, new),
        _ => false,
    }
}

// Whether the state and the namespaces are the same.
fn has_same(old: &AnaGroup, new: &AnaGroup) -> bool
    ensures { result ≡ are_same (Some old.now) (Some new.now) }
{
    state_code(old.state()) == state_code(new.state()) && are_same_numbers(old.nsids(), new.nsids())
}

#[tactic(auto, using(crate::proofs::Members::same_numbers))]
fn are_same_numbers(old: &[u32], new: &[u32]) -> bool
    ensures { result ≡ are_same_numbers old.now new.now }
{
    old == new
}
