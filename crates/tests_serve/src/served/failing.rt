//! Slots that fail when something is given to them.
use crate::served::pdus::{answers, pieces};
use std::alloc::{AllocError, Global};
use testkit_tables::{Outcome, Placed, check, check_bytes, pass};
use testkit_targets::serving::{Rig, Scenario, Step, add, counted, holds_over};

// How many hosts there are. Each of them is to get three answers.
const HOSTS: usize = 3;

// Each host is opened in a turn of its own. Bytes take two turns, the second to find their end, and one where their slot
// is closed.
fn turns(answered: u64) -> u64 {
    3 + 2 * 9 - 2u64.saturating_sub(answered)
}

// The host of the slot that fails gets the answers before it alone, and is gone; the others get all of theirs.
fn check_hosts(alloc: Global, failed: usize, answered: u64, rig: &Rig) -> Outcome {
    for slot in 0..HOSTS {
        let count = if slot == failed { answered } else { 3 };
        pass!(check_bytes(rig.got(slot), &answers(alloc, count)?).at_step(slot));
        pass!(check((rig.room(slot) == 0) == (slot == failed), "it is gone").at_step(slot));
    }
    Ok(())
}

// The nth call of `give` fails. Behind all that was handed out each slot is opened again: one of them is free.
#[derive(Drop)]
struct Failing {
    alloc: Global,
    n: u64,
}

impl Scenario for Failing {
    fn holds(&self, rig: &mut Rig) -> Outcome {
        let answered = self.n.saturating_sub(1) / 3;
        let failed = (self.n.saturating_sub(1) % 3) as usize;
        rig.fail_give(self.n);
        rig.serve(turns(answered));
        pass!(check_hosts(self.alloc, failed, answered, rig));
        check(
            rig.serve(3) == counted(3, 1, 0, 0),
            "its slot alone is free",
        )
    }
}

fn open_each(steps: &mut Vec<Step<'_>>) -> Result<(), AllocError> {
    for slot in 0..HOSTS {
        add(steps, Step::Open { slot, port: 1 })?;
    }
    Ok(())
}

// Each host sends each piece, in turn.
fn add_all<'a>(steps: &mut Vec<Step<'a>>, pieces: &'a [Vec<u8>]) -> Result<(), AllocError> {
    open_each(steps)?;
    for bytes in pieces {
        for slot in 0..HOSTS {
            add(steps, Step::Bytes { slot, bytes })?;
        }
    }
    open_each(steps)
}

fn fail(alloc: Global, n: u64) -> Outcome {
    let pieces = pieces(alloc)?;
    let mut steps = Vec::with_capacity(alloc, 15)?;
    add_all(&mut steps, &pieces)?;
    holds_over(alloc, &steps, &Failing { alloc, n })
}

#[test]
fn the_slot_that_fails_is_closed_and_no_other(rt: HostRuntime) -> Outcome {
    for n in 1..10 {
        pass!(fail(rt.alloc(), n).in_row(n as usize));
    }
    Ok(())
}
