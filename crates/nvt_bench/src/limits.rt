//! What is measured at the limits of a configuration: edits that change the records of one host, and of all,
//! and reads of the discovery log page, against a bare copy of as many bytes.
use crate::clock::{micros_since, now, rate};
use crate::edits::read_all;
use crate::fault::BenchFault;
use crate::memory::report_memory;
use crate::target_queues::{Limits, Work, copies};
use nvt_config::Edit;
use std::rt::{Clock, Files};

/// How often the edits that change what concerns one host are made.
pub const ROUNDS: u32 = 100;

const READS: u32 = 100_000;

/// Makes the configuration of the set-up, and prints a figure for the edits of each kind and the memory, at
/// first and after many, and a figure for the reads.
pub fn measure<R: Files + Clock + Print + AllocGlobal>(
    rt: &R,
    setup: &[u8],
    of_one: &[u8],
    of_all: &[u8],
) -> Result<(), BenchFault> {
    let alloc = rt.alloc();
    let setup = read_all(alloc, setup)?;
    let of_one = read_all(alloc, of_one)?;
    let of_all = read_all(alloc, of_all)?;
    match Limits::configured(alloc, &setup) {
        Some(mut limits) => measure_on(rt, &mut limits, &of_one, &of_all),
        None => Err(BenchFault::OtherAnswer),
    }
}

fn measure_on<R: Files + Clock + Print + AllocGlobal>(
    rt: &R,
    limits: &mut Limits,
    of_one: &[Edit],
    of_all: &[Edit],
) -> Result<(), BenchFault> {
    measure_edits(rt, limits, of_one, "one host's records, at first")?;
    measure_edits(rt, limits, of_all, "all hosts' records, at first")?;
    report_memory(rt)?;
    make_more(limits, of_one)?;
    measure_edits(rt, limits, of_one, "one host's records, after many")?;
    measure_edits(rt, limits, of_all, "all hosts' records, after many")?;
    report_memory(rt)?;
    measure_reads(rt, limits)
}

// All rounds but the one that was measured.
fn make_more(limits: &mut Limits, edits: &[Edit]) -> Result<(), BenchFault> {
    for _ in 1..ROUNDS {
        make(limits, edits)?;
    }
    Ok(())
}

fn measure_edits<R: Clock + Print>(
    rt: &R,
    limits: &mut Limits,
    edits: &[Edit],
    what: &str,
) -> Result<(), BenchFault> {
    let begun = now(rt)?;
    make(limits, edits)?;
    report_edits(rt, edits.len(), what, micros_since(rt, begun)?)
}

/// Prints a figure for so many edits that took so long.
pub fn report_edits<R: Print>(
    rt: &R,
    count: usize,
    what: &str,
    micros: u64,
) -> Result<(), BenchFault> {
    let rate = rate(count as u64, micros);
    let text = format_args!("{count} edits of {what}, in {micros} microseconds: {rate} a second\n");
    match rt.print(text) {
        Ok(()) => Ok(()),
        Err(_) => Err(BenchFault::Io),
    }
}

fn make(limits: &mut Limits, edits: &[Edit]) -> Result<(), BenchFault> {
    if limits.makes_all(edits) {
        Ok(())
    } else {
        Err(BenchFault::OtherAnswer)
    }
}

fn measure_reads<R: Clock + Print + AllocGlobal>(
    rt: &R,
    limits: &mut Limits,
) -> Result<(), BenchFault> {
    let begun = now(rt)?;
    copies(rt.alloc(), Work::LongRead, READS)?;
    let copies = micros_since(rt, begun)?;
    let begun = now(rt)?;
    if !limits.reads(READS) {
        return Err(BenchFault::OtherAnswer);
    }
    report_reads(rt, micros_since(rt, begun)?, copies)
}

fn report_reads<R: Print>(rt: &R, micros: u64, copies: u64) -> Result<(), BenchFault> {
    let rate = rate(u64::from(READS), micros);
    let tenths = micros.saturating_mul(10) / copies.max(1);
    let (whole, tenth) = (tenths / 10, tenths % 10);
    let text = format_args!(
        "{READS} reads of 32 KiB of a discovery log page in {micros} microseconds: {rate} a second, each in {whole}.{tenth} copies' time\n"
    );
    match rt.print(text) {
        Ok(()) => Ok(()),
        Err(_) => Err(BenchFault::Io),
    }
}
