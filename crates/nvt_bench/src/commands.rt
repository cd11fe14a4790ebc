//! What is measured of I/O commands: each received, stepped, sent and taken, in memory, against a bare
//! copy of as many bytes.
use crate::clock::{micros_since, now, rate};
use crate::fault::BenchFault;
use crate::target_queues::{Work, copies, runs};
use std::rt::Clock;

/// Prints a figure for each kind of command.
pub fn measure<R: Clock + Print + AllocGlobal>(rt: &R) -> Result<(), BenchFault> {
    measure_one(rt, Work::Read, 2_000_000)?;
    measure_one(rt, Work::Write, 2_000_000)?;
    measure_one(rt, Work::LongRead, 500_000)?;
    measure_one(rt, Work::LongestRead, 100_000)?;
    measure_one(rt, Work::LongestWrite, 100_000)
}

// The time of the commands has that of the connection in it, less than a thousandth.
fn measure_one<R: Clock + Print + AllocGlobal>(
    rt: &R,
    work: Work,
    times: u32,
) -> Result<(), BenchFault> {
    let begun = now(rt)?;
    copies(rt.alloc(), work, times)?;
    let copies = micros_since(rt, begun)?;
    let begun = now(rt)?;
    if !runs(rt.alloc(), work, times) {
        return Err(BenchFault::OtherAnswer);
    }
    report(rt, work, times, micros_since(rt, begun)?, copies)
}

fn report<R: Print>(
    rt: &R,
    work: Work,
    times: u32,
    micros: u64,
    copies: u64,
) -> Result<(), BenchFault> {
    let rate = rate(u64::from(times), micros);
    let tenths = micros.saturating_mul(10) / copies.max(1);
    let (whole, tenth) = (tenths / 10, tenths % 10);
    let text = format_args!(
        "{times} {work} in {micros} microseconds: {rate} a second, each in {whole}.{tenth} copies' time\n"
    );
    match rt.print(text) {
        Ok(()) => Ok(()),
        Err(_) => Err(BenchFault::Io),
    }
}
