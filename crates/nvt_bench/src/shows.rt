//! What is measured where as many namespaces are shown to named hosts as may be: edits of what one host is shown, of
//! one host's records, of all hosts' and of the namespaces, the memory, and what a host reads of those that it sees.
use crate::clock::{micros_since, now};
use crate::edits::read_all;
use crate::fault::BenchFault;
use crate::limits::{ROUNDS, report_edits};
use crate::lists::measure_reads;
use crate::memory::report_memory;
use crate::target_queues::{Hosts, Page};
use nvt_config::Edit;
use std::rt::{Clock, Files};

/// The lines of edits that are measured.
#[derive(Clone, Copy)]
pub struct Lines<'a> {
    /// Those of what one host is shown.
    pub shows: &'a [u8],
    /// Those that change the records of one host.
    pub one: &'a [u8],
    /// Those that change the records of all.
    pub all: &'a [u8],
    /// Those that change the namespaces.
    pub changes: &'a [u8],
}

/// Makes the configuration of the set-up, with hosts on it, and prints a figure for the edits of each kind and for
/// the reads, and the memory at first and after many edits.
pub fn measure<R: Files + Clock + Print + AllocGlobal>(
    rt: &R,
    setup: &[u8],
    lines: Lines<'_>,
) -> Result<(), BenchFault> {
    let setup = read_all(rt.alloc(), setup)?;
    match Hosts::connected(rt.alloc(), &setup) {
        Some(mut hosts) => measure_on(rt, &mut hosts, lines),
        None => Err(BenchFault::OtherAnswer),
    }
}

fn measure_on<R: Files + Clock + Print + AllocGlobal>(
    rt: &R,
    hosts: &mut Hosts,
    lines: Lines<'_>,
) -> Result<(), BenchFault> {
    measure_shows(rt, hosts, lines.shows)?;
    measure_lines(rt, hosts, lines.one, "one host's records, beside shows")?;
    measure_lines(rt, hosts, lines.all, "all hosts' records, beside shows")?;
    measure_lines(
        rt,
        hosts,
        lines.changes,
        "namespaces and their groups, beside shows",
    )?;
    measure_reads(
        rt,
        hosts,
        Page::ActiveNamespaces,
        "the list of active namespaces, beside shows",
    )?;
    measure_reads(
        rt,
        hosts,
        Page::ChangedNamespaces,
        "the list of changed namespaces, beside shows",
    )?;
    measure_reads(rt, hosts, Page::Ana, "the ANA log page, beside shows")
}

fn measure_shows<R: Files + Clock + Print + AllocGlobal>(
    rt: &R,
    hosts: &mut Hosts,
    shows: &[u8],
) -> Result<(), BenchFault> {
    let shows = read_all(rt.alloc(), shows)?;
    measure_edits(rt, hosts, &shows, "what one host is shown, at first")?;
    report_memory(rt)?;
    for _ in 2..ROUNDS {
        make(hosts, &shows)?;
    }
    measure_edits(rt, hosts, &shows, "what one host is shown, after many")?;
    report_memory(rt)
}

fn measure_lines<R: Clock + Print + AllocGlobal>(
    rt: &R,
    hosts: &mut Hosts,
    lines: &[u8],
    what: &str,
) -> Result<(), BenchFault> {
    let edits = read_all(rt.alloc(), lines)?;
    measure_edits(rt, hosts, &edits, what)
}

fn measure_edits<R: Clock + Print>(
    rt: &R,
    hosts: &mut Hosts,
    edits: &[Edit],
    what: &str,
) -> Result<(), BenchFault> {
    let begun = now(rt)?;
    make(hosts, edits)?;
    report_edits(rt, edits.len(), what, micros_since(rt, begun)?)
}

fn make(hosts: &mut Hosts, edits: &[Edit]) -> Result<(), BenchFault> {
    if hosts.makes_all(edits) {
        Ok(())
    } else {
        Err(BenchFault::OtherAnswer)
    }
}
