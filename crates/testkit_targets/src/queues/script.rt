//! What is done with a driver.
use crate::queues::driver::Driver;
use block_store::Disk;
use std::alloc::Global;
use testkit_tables::{Outcome, check};

/// What a test or a benchmark does with a driver.
pub trait Script<D: Disk> {
    /// All is as it has to be.
    fn holds(&self, driver: &mut Driver<D>) -> Outcome;
}

/// Makes a target over these disks, and lends its driver to a script: all is as it has to be.
// A driver is owned here alone, since each way out of a function is proved with all that is owned there. `drop` is
// written out, since what is dropped at the end of a scope is proved there field by field.
pub fn holds_over<D: Disk + Drop, S: Script<D>>(
    alloc: Global,
    disks: Vec<D>,
    script: &S,
) -> Outcome {
    match Driver::new(alloc, disks) {
        Some(mut driver) => {
            let outcome = script.holds(&mut driver);
            drop(driver);
            outcome
        }
        None => check(false, "a target over these disks"),
    }
}
