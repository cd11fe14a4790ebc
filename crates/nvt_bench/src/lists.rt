//! What is measured of lists of namespaces: reads of that of the active ones and of the ANA log page, edits of a size
//! that each host is told of, and reads of the list of those that changed.
use crate::clock::{micros_since, nanos_since, now, rate};
use crate::edits::read_all;
use crate::fault::BenchFault;
use crate::target_queues::{Hosts, Page};
use nvt_config::Edit;
use std::rt::Clock;

const READS: u32 = 500_000;

// How many edits of a size there are before each host reads which namespaces changed. It is told of the first.
const CHANGED: usize = 3;

// How many rounds of such edits there were, and how long their first ones took and the reads.
#[derive(Clone, Copy)]
struct Rounds {
    count: u64,
    edit_nanos: u64,
    read_nanos: u64,
}

/// Makes the configuration of the set-up, with hosts on it, and prints a figure for the reads of each list and one
/// for the edits. Each of three edits in a row is to be of another namespace.
pub fn measure<R: Clock + Print + AllocGlobal>(
    rt: &R,
    setup: &[u8],
    sizes: &[u8],
) -> Result<(), BenchFault> {
    let alloc = rt.alloc();
    let setup = read_all(alloc, setup)?;
    let sizes = read_all(alloc, sizes)?;
    match Hosts::connected(alloc, &setup) {
        Some(mut hosts) => measure_on(rt, &mut hosts, &sizes),
        None => Err(BenchFault::OtherAnswer),
    }
}

fn measure_on<R: Clock + Print>(
    rt: &R,
    hosts: &mut Hosts,
    sizes: &[Edit],
) -> Result<(), BenchFault> {
    measure_reads(
        rt,
        hosts,
        Page::ActiveNamespaces,
        "the list of active namespaces",
    )?;
    measure_reads(rt, hosts, Page::Ana, "the ANA log page")?;
    let mut rounds = Rounds {
        count: 0,
        edit_nanos: 0,
        read_nanos: 0,
    };
    for edits in sizes.chunks_exact(CHANGED) {
        run_round(rt, hosts, edits, &mut rounds)?;
    }
    report_rounds(rt, hosts.count() as u64, rounds)
}

/// Prints a figure for reads of this page by the first host.
pub fn measure_reads<R: Clock + Print>(
    rt: &R,
    hosts: &mut Hosts,
    page: Page,
    what: &str,
) -> Result<(), BenchFault> {
    let begun = now(rt)?;
    is_answered(hosts.reads(page, READS))?;
    let micros = micros_since(rt, begun)?;
    let rate = rate(u64::from(READS), micros);
    let text = format_args!("{READS} reads of {what} in {micros} microseconds: {rate} a second\n");
    match rt.print(text) {
        Ok(()) => Ok(()),
        Err(_) => Err(BenchFault::Io),
    }
}

fn is_answered(answered: bool) -> Result<(), BenchFault> {
    if answered {
        Ok(())
    } else {
        Err(BenchFault::OtherAnswer)
    }
}

// Makes the edits, of which each host is told by the first, and has each host read its list.
fn run_round(
    rt: &impl Clock,
    hosts: &mut Hosts,
    edits: &[Edit],
    rounds: &mut Rounds,
) -> Result<(), BenchFault> {
    let Some((first, others)) = edits.split_first() else {
        return Err(BenchFault::OtherAnswer);
    };
    let begun = now(rt)?;
    is_answered(hosts.makes(first))?;
    let edit_nanos = nanos_since(rt, begun)?;
    for edit in others {
        is_answered(hosts.makes(edit))?;
    }
    is_answered(hosts.wait_anew())?;
    let begun = now(rt)?;
    is_answered(hosts.read_changed())?;
    let read_nanos = nanos_since(rt, begun)?;
    rounds.count = rounds.count.saturating_add(1);
    rounds.edit_nanos = rounds.edit_nanos.saturating_add(edit_nanos);
    rounds.read_nanos = rounds.read_nanos.saturating_add(read_nanos);
    Ok(())
}

fn report_rounds(rt: &impl Print, hosts: u64, rounds: Rounds) -> Result<(), BenchFault> {
    let Rounds {
        count,
        edit_nanos,
        read_nanos,
    } = rounds;
    report(
        rt,
        count,
        "edits of a size that each host is told of",
        edit_nanos / 1000,
    )?;
    let reads = count.saturating_mul(hosts);
    report(
        rt,
        reads,
        "reads of a list of 3 changed namespaces",
        read_nanos / 1000,
    )
}

fn report(rt: &impl Print, count: u64, what: &str, micros: u64) -> Result<(), BenchFault> {
    let rate = rate(count, micros);
    let text = format_args!("{count} {what} in {micros} microseconds: {rate} a second\n");
    match rt.print(text) {
        Ok(()) => Ok(()),
        Err(_) => Err(BenchFault::Io),
    }
}
