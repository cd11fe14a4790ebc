//! What is done with a rig.
use crate::serving::rig::Rig;
use crate::serving::script::Step;
use std::alloc::{AllocError, Global};
use testkit_tables::{Outcome, check};

/// What a test does with a rig.
pub trait Scenario {
    /// All is as it has to be.
    fn holds(&self, rig: &mut Rig) -> Outcome;
}

/// Makes a rig whose ports go through these steps, and lends it to a scenario: all is as it has to be.
pub fn holds_over<S: Scenario>(alloc: Global, steps: &[Step<'_>], scenario: &S) -> Outcome {
    match try_over(alloc, steps, scenario) {
        Ok(outcome) => outcome,
        Err(AllocError) => check(false, "memory for a rig"),
    }
}

/// The same, or that memory ran out for the rig.
// A rig is owned here alone, since each way out of a function is proved with all that is owned there. `drop` is written
// out, since what is dropped at the end of a scope is proved there field by field.
pub fn try_over<S: Scenario>(
    alloc: Global,
    steps: &[Step<'_>],
    scenario: &S,
) -> Result<Outcome, AllocError> {
    match Rig::new(alloc, steps) {
        Ok(mut rig) => {
            let outcome = scenario.holds(&mut rig);
            drop(rig);
            Ok(outcome)
        }
        Err(AllocError) => Err(AllocError),
    }
}
