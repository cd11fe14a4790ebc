//! What is measured of edits: each line read, written back and checked.

use crate::clock::{micros_since, now, rate};
use crate::fault::BenchFault;
use bytes::BytesMut;
use config_text::{Lines, read_edit, write_edit};
use nvt_config::{Config, Edit};
use std::alloc::Global;
use std::rt::Clock;
use std::time::Instant;

const DISKS: usize = 256;

const UNITS: u64 = 1 << 21;

const LINE_MAX: usize = 1_024;

/// Makes the configuration of the set-up, and prints a figure for each thing that is measured.
pub fn measure<R: Clock + Print + AllocGlobal>(
    rt: &R,
    setup: &[u8],
    lines: &[u8],
) -> Result<(), BenchFault> {
    let mut config = Config::new(rt.alloc(), &[UNITS; DISKS])?;
    measure_from(rt, &mut config, setup, lines)
}

// Makes the set-up's configuration of one that is empty.
fn measure_from<R: Clock + Print + AllocGlobal>(
    rt: &R,
    config: &mut Config,
    setup: &[u8],
    lines: &[u8],
) -> Result<(), BenchFault> {
    configure(rt.alloc(), config, setup)?;
    measure_all(rt, config, lines)
}

fn configure(alloc: Global, config: &mut Config, setup: &[u8]) -> Result<(), BenchFault> {
    for line in Lines::of(setup) {
        apply(alloc, config, line)?;
    }
    Ok(())
}

fn apply(alloc: Global, config: &mut Config, line: &[u8]) -> Result<(), BenchFault> {
    let edit = read_edit(alloc, line)?;
    let applied = config.apply(&edit);
    // What is dropped at the end of a scope is proved there field by field.
    drop(edit);
    Ok(applied?)
}

fn measure_all<R: Clock + Print + AllocGlobal>(
    rt: &R,
    config: &Config,
    lines: &[u8],
) -> Result<(), BenchFault> {
    let begun = now(rt)?;
    let edits = read_all(rt.alloc(), lines)?;
    measure_read(rt, config, &edits, lines, begun)
}

// The reading of the edits began at this time.
fn measure_read<R: Clock + Print + AllocGlobal>(
    rt: &R,
    config: &Config,
    edits: &[Edit],
    lines: &[u8],
    begun: Instant,
) -> Result<(), BenchFault> {
    report(rt, "read", edits.len(), begun)?;
    write_all(rt, edits, lines)?;
    let begun = now(rt)?;
    let accepted = check_all(config, edits);
    report(rt, "checked", edits.len(), begun)?;
    print(rt, "accepted by the configuration", accepted)
}

/// Reads each line of a file.
pub fn read_all(alloc: Global, lines: &[u8]) -> Result<Vec<Edit>, BenchFault> {
    let mut edits = Vec::new(alloc);
    read_behind(alloc, &mut edits, lines)?;
    Ok(edits)
}

fn read_behind(alloc: Global, edits: &mut Vec<Edit>, lines: &[u8]) -> Result<(), BenchFault> {
    for line in Lines::of(lines) {
        read_one(alloc, edits, line)?;
    }
    Ok(())
}

fn read_one(alloc: Global, edits: &mut Vec<Edit>, line: &[u8]) -> Result<(), BenchFault> {
    let edit = read_edit(alloc, line)?;
    match edits.push(edit) {
        Ok(()) => Ok(()),
        Err(refused) => {
            drop(refused);
            Err(BenchFault::Memory)
        }
    }
}

// Writes the lines of the edits, each with its end, and compares them afterwards.
fn write_all<R: Clock + Print + AllocGlobal>(
    rt: &R,
    edits: &[Edit],
    lines: &[u8],
) -> Result<(), BenchFault> {
    let mut written = BytesMut::with_capacity(rt.alloc(), lines.len() + LINE_MAX)?;
    write_to(rt, &mut written, edits, lines)
}

fn write_to<R: Clock + Print>(
    rt: &R,
    written: &mut BytesMut,
    edits: &[Edit],
    lines: &[u8],
) -> Result<(), BenchFault> {
    let begun = now(rt)?;
    write_lines(written, edits)?;
    report(rt, "written", edits.len(), begun)?;
    if &written[..] == lines {
        Ok(())
    } else {
        Err(BenchFault::OtherLine)
    }
}

fn write_lines(written: &mut BytesMut, edits: &[Edit]) -> Result<(), BenchFault> {
    for edit in edits {
        if write_edit(edit, written).is_err() {
            return Err(BenchFault::OtherLine);
        }
        written.extend_from_slice(b"\n")?;
    }
    Ok(())
}

// How many of the edits the configuration would accept.
fn check_all(config: &Config, edits: &[Edit]) -> usize {
    let mut accepted: usize = 0;
    for edit in edits {
        if config.check(edit).is_ok() {
            accepted = accepted.wrapping_add(1);
        }
    }
    accepted
}

fn report<R: Clock + Print>(
    rt: &R,
    what: &str,
    count: usize,
    begun: Instant,
) -> Result<(), BenchFault> {
    let micros = micros_since(rt, begun)?;
    let rate = rate(count as u64, micros);
    let text = format_args!("{count} lines {what} in {micros} microseconds: {rate} a second\n");
    match rt.print(text) {
        Ok(()) => Ok(()),
        Err(_) => Err(BenchFault::Io),
    }
}

fn print<R: Print>(rt: &R, what: &str, count: usize) -> Result<(), BenchFault> {
    match rt.print(format_args!("{count} {what}\n")) {
        Ok(()) => Ok(()),
        Err(_) => Err(BenchFault::Io),
    }
}
