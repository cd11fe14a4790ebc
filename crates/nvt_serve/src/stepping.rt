//! Connections step.
ghost use Rattle.std.specs.Prelude.{◌≡◌, ◌<◌, true};
ghost use Rattle.nvt_serve.specs.Looks.{AreLooks, IsAlone};
ghost use Rattle.nvt_serve.specs.Served.{IsQuiet};
ghost use Rattle.nvt_serve.specs.Sets.{is_in};
ghost use Rattle.nvt_serve.specs.Stepping.{GoesBySteps, StepsOut};
ghost use Rattle.target_core.specs.Marks.{SameKnown};

use crate::ties::Ties;
use block_store::Disk;
use target_core::{StepFault, Stepped, Target};

/// Lets each connection that has nothing to send step, until it has, or until it is idle or ended, in rising
/// number; answers how many wanted memory.
pub fn step_all<D: Disk + Drop>(target: &mut Target<D>, ties: &mut Ties) -> u64
    requires alone { IsAlone ties.old.connections }
    requires looks { AreLooks target.old ties.old }
    ensures goes { GoesBySteps target.old target.new }
    ensures known { SameKnown target.old target.new }
    ensures quiet { result ≡ 0 → IsQuiet target.new }
    ensures connections { ties.new.connections ≡ ties.old.connections }
    ensures looks { AreLooks target.new ties.new }
{
    let mut memory = 0u64;
    let mut least = 0;
    while let Some(k) = ties.ready_from(least) {
        let wants = step(target, ties, k);
        memory = memory.saturating_add(u64::from(wants));
        least = k + 1;
    }
    memory
}

// Lets a connection that has nothing to send step, and answers whether it lacks memory.
fn step<D: Disk + Drop>(target: &mut Target<D>, ties: &mut Ties, k: usize) -> bool
    requires k { k < 64 }
    requires ready { is_in ties.old.ready.bits k ≡ true }
    requires alone { IsAlone ties.old.connections }
    requires looks { AreLooks target.old ties.old }
    ensures steps { StepsOut k result target.old target.new }
    ensures connections { ties.new.connections ≡ ties.old.connections }
    ensures looks { AreLooks target.new ties.new }
{
    if !target.output(k).is_empty() {
        return false;
    }
    let wants = step_out(target, k);
    ties.stepped(k, target.room(k));
    if !wants && target.output(k).is_empty() {
        ties.rests(k);
    }
    wants
}

// Lets a connection step until it has something to send, is idle or ended, or lacks memory. Answers whether it does.
fn step_out<D: Disk + Drop>(target: &mut Target<D>, k: usize) -> bool
    ensures { StepsOut k result target.old target.new }
{
    while target.output(k).is_empty() {
        match target.step(k) {
            Ok(Stepped::One) => {}
            Ok(Stepped::Ended) => {}
            Ok(Stepped::Idle) => return false,
            Err(StepFault::NoConn) => return false,
            Err(StepFault::Memory) => return true,
        }
    }
    false
}
