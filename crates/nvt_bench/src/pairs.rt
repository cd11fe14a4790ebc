//! What is measured of a host that is joined to a target in memory: commands on one queue, as many outstanding as it
//! takes.
use crate::clock::{micros_since, now, rate};
use crate::fault::BenchFault;
use crate::joined_pairs::{PairWork, pair_runs};
use std::rt::Clock;

/// Prints a figure for each kind of command.
pub fn measure<R: Clock + Print + AllocGlobal>(rt: &R) -> Result<(), BenchFault> {
    measure_one(rt, PairWork::Read, 1_000_000)?;
    measure_one(rt, PairWork::LongestWrite, 20_000)
}

// The time of the commands has that of the connection in it, less than a thousandth.
fn measure_one<R: Clock + Print + AllocGlobal>(
    rt: &R,
    work: PairWork,
    times: u32,
) -> Result<(), BenchFault> {
    let begun = now(rt)?;
    if !pair_runs(rt.alloc(), work, times) {
        return Err(BenchFault::OtherAnswer);
    }
    let micros = micros_since(rt, begun)?;
    let rate = rate(u64::from(times), micros);
    let text = format_args!(
        "{times} {work} of a host and a target, 31 at a time, in {micros} microseconds: {rate} a second\n"
    );
    match rt.print(text) {
        Ok(()) => Ok(()),
        Err(_) => Err(BenchFault::Io),
    }
}
