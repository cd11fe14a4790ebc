//! What is measured of edits that hosts are told of: each made, and then the log page that it is told
//! by read by each host.
use crate::clock::{nanos_since, now, rate};
use crate::edits::read_all;
use crate::fault::BenchFault;
use crate::target_queues::Hosts;
use nvt_config::Edit;
use std::rt::Clock;

// How many edits there were and reads, and how long they took.
#[derive(Clone, Copy)]
struct Told {
    edits: u64,
    edit_nanos: u64,
    reads: u64,
    read_nanos: u64,
}

/// Makes the configuration of the set-up, with hosts on it, and prints a figure for the edits and one
/// for the reads.
pub fn measure<R: Clock + Print + AllocGlobal>(
    rt: &R,
    setup: &[u8],
    changes: &[u8],
) -> Result<(), BenchFault> {
    let alloc = rt.alloc();
    let setup = read_all(alloc, setup)?;
    let changes = read_all(alloc, changes)?;
    match Hosts::connected(alloc, &setup) {
        Some(mut hosts) => measure_on(rt, &mut hosts, &changes),
        None => Err(BenchFault::OtherAnswer),
    }
}

fn measure_on<R: Clock + Print>(
    rt: &R,
    hosts: &mut Hosts,
    changes: &[Edit],
) -> Result<(), BenchFault> {
    let mut told = Told {
        edits: 0,
        edit_nanos: 0,
        reads: 0,
        read_nanos: 0,
    };
    for edit in changes {
        tell(rt, hosts, edit, &mut told)?;
    }
    report(rt, hosts.count(), told)
}

// Makes an edit, and has the hosts read.
fn tell(
    rt: &impl Clock,
    hosts: &mut Hosts,
    edit: &Edit,
    told: &mut Told,
) -> Result<(), BenchFault> {
    let begun = now(rt)?;
    if !hosts.makes(edit) {
        return Err(BenchFault::OtherAnswer);
    }
    let edit_nanos = nanos_since(rt, begun)?;
    let begun = now(rt)?;
    let Some(reads) = hosts.read() else {
        return Err(BenchFault::OtherAnswer);
    };
    let read_nanos = nanos_since(rt, begun)?;
    told.edits = told.edits.saturating_add(1);
    told.edit_nanos = told.edit_nanos.saturating_add(edit_nanos);
    told.reads = told.reads.saturating_add(reads as u64);
    told.read_nanos = told.read_nanos.saturating_add(read_nanos);
    Ok(())
}

fn report(rt: &impl Print, hosts: usize, told: Told) -> Result<(), BenchFault> {
    let Told {
        edits,
        edit_nanos,
        reads,
        read_nanos,
    } = told;
    let (edit_micros, read_micros) = (edit_nanos / 1000, read_nanos / 1000);
    let (edit_rate, read_rate) = (rate(edits, edit_micros), rate(reads, read_micros));
    let text = format_args!(
        "{edits} edits beside {hosts} hosts in {edit_micros} microseconds: {edit_rate} a second\n{reads} reads of what they were told in {read_micros} microseconds: {read_rate} a second\n"
    );
    match rt.print(text) {
        Ok(()) => Ok(()),
        Err(_) => Err(BenchFault::Io),
    }
}
