//! Whether a planned edit changes the records of a host, beside those of the plain program.
use super::followed::{Followed, start};
use super::plain;
use super::random::{HOSTS, command, line};
use discovery_view::{DiscoveryView, Plan};
use nvt_config::{Config, Edit};
use rand_core::utils::NextWord;
use rand_pcg::Pcg32;
use std::alloc::{AllocError, Global};
use testkit_edits::edit;
use testkit_tables::{Outcome, Placed, check, pass};

const SCRIPTS: u64 = 60;

const STEPS: usize = 40;

const SEED: u64 = 0x6368_616E;

// How often the records of a host changed, and how often they did not.
#[derive(Clone, Copy)]
struct Seen {
    changed: u32,
    kept: u32,
}

impl Seen {
    fn count(&mut self, has_changed: bool) {
        if has_changed {
            self.changed = self.changed.saturating_add(1);
        } else {
            self.kept = self.kept.saturating_add(1);
        }
    }
}

// Of each host, whether the view says that the plan changes its records.
fn told(alloc: Global, view: &DiscoveryView, plan: &Plan) -> Result<Vec<bool>, AllocError> {
    let mut told = Vec::new(alloc);
    for host in HOSTS {
        told.push(view.changes(plan, host))?;
    }
    Ok(told)
}

// The host is told of a change exactly where the records of the plain program differ.
fn check_host(
    alloc: Global,
    before: &Config,
    after: &Config,
    host: &[u8],
    is_told: bool,
    seen: &mut Seen,
) -> Outcome {
    let old = plain::records(alloc, before, host)?;
    let new = plain::records(alloc, after, host)?;
    let has_changed = *old != *new;
    seen.count(has_changed);
    check(is_told == has_changed, "whether the records change")
}

// The rows are the hosts.
fn check_hosts(
    alloc: Global,
    before: &Config,
    after: &Config,
    told: &[bool],
    seen: &mut Seen,
) -> Outcome {
    pass!(check(told.len() == HOSTS.len(), "an answer for each host"));
    for (row, (host, is_told)) in HOSTS.iter().zip(told).enumerate() {
        pass!(check_host(alloc, before, after, host, *is_told, seen).in_row(row));
    }
    Ok(())
}

// Makes an edit, unless it is refused.
fn check_edit(alloc: Global, followed: &mut Followed, edit: &Edit, seen: &mut Seen) -> Outcome {
    if followed.config.check(edit).is_err() {
        return Ok(());
    }
    let before = followed.config.try_clone()?;
    let plan = followed.view.prepare(&followed.config, edit)?;
    let told = told(alloc, &followed.view, &plan)?;
    if followed.config.apply(edit).is_err() {
        return check(false, "memory");
    }
    followed.view.commit(plan);
    check_hosts(alloc, &before, &followed.config, &told, seen)
}

fn check_next(
    alloc: Global,
    random: &mut Pcg32,
    followed: &mut Followed,
    seen: &mut Seen,
) -> Outcome {
    let command = command(random);
    match edit(alloc, line(command, random)) {
        Ok(edit) => check_edit(alloc, followed, &edit, seen),
        Err(_) => Ok(()),
    }
}

// Makes one to three edits, some of which are refused.
fn check_step(
    alloc: Global,
    random: &mut Pcg32,
    followed: &mut Followed,
    seen: &mut Seen,
) -> Outcome {
    for _ in 0..=random.next_word() % 3 {
        pass!(check_next(alloc, random, followed, seen));
    }
    Ok(())
}

fn check_steps(alloc: Global, followed: &mut Followed, number: u64, seen: &mut Seen) -> Outcome {
    let mut random = Pcg32::new(SEED, number);
    for step in 0..STEPS {
        pass!(check_step(alloc, &mut random, followed, seen).at_step(step));
    }
    Ok(())
}

fn check_script(alloc: Global, number: u64, seen: &mut Seen) -> Outcome {
    match start(alloc) {
        Ok(mut followed) => check_steps(alloc, &mut followed, number, seen),
        Err(_) => check(false, "memory"),
    }
}

#[test]
fn changes_are_those_of_the_plain_program(rt: HostRuntime) -> Outcome {
    let mut seen = Seen {
        changed: 0,
        kept: 0,
    };
    for number in 0..SCRIPTS {
        pass!(check_script(rt.alloc(), number, &mut seen).in_script(SEED, number));
    }
    check(
        seen.changed > 500 && seen.kept > 500,
        "changes that were seen",
    )
}
