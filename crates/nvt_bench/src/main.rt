//! Measures the edit language: how many lines of edits a second are read, written back and checked
//! against a configuration. `nvt_bench SETUP LINES SERVED CHANGES SIZES SHOWN SHOWS ONE ALL` takes nine files of edits: SETUP
//! makes the configuration, over 256 disks, and the edits of LINES are measured. Then it measures I/O
//! commands on a target over a disk in memory, against bare copies of as many bytes, and on a host that is
//! joined to such a target. Then SERVED makes the configuration of a target with hosts, and the edits of
//! CHANGES are measured, each told to the hosts, and what the hosts read; so are those of SIZES, and reads of
//! lists of namespaces. SHOWN makes that of a target with hosts which are shown namespaces by name, and the edits of
//! SHOWS, ONE, ALL and CHANGES are measured there. SERVED makes that of a target with one host, which the edits of ONE
//! change for one host, and those of ALL for all, and what that host reads.
#![tactic(auto)]

mod clock;
mod commands;
mod edits;
mod fault;
mod files;
mod joined_pairs;
mod limits;
mod lists;
mod memory;
mod pairs;
mod shows;
mod target_queues;
mod told;

use fault::BenchFault;
use files::read_file;
use std::env;
use std::process::ExitCode;
use std::rt::{Clock, Env, Files};

const FAULT: u8 = 1;

const BAD_ARGUMENTS: u8 = 2;

fn main(rt: HostRuntime) -> ExitCode {
    let mut words = Vec::new(rt.alloc());
    run_on(&rt, &mut words)
}

fn run_on<R: Env + Files + Clock + Print + Eprint + AllocGlobal>(
    rt: &R,
    words: &mut Vec<String>,
) -> ExitCode {
    match read_paths(rt, words) {
        Some(paths) => finish(rt, run(rt, paths)),
        None => {
            let _ = eprintln!(rt;
                "usage: nvt_bench SETUP LINES SERVED CHANGES SIZES SHOWN SHOWS ONE ALL"
            );
            ExitCode::from(BAD_ARGUMENTS)
        }
    }
}

fn finish(rt: &impl Eprint, outcome: Result<(), BenchFault>) -> ExitCode {
    match outcome {
        Ok(()) => ExitCode::SUCCESS,
        Err(fault) => {
            let _ = eprintln!(rt; "error: {fault}");
            ExitCode::from(FAULT)
        }
    }
}

// The files that the arguments name.
#[derive(Clone, Copy)]
struct Paths<'a> {
    setup: &'a str,
    lines: &'a str,
    served: &'a str,
    changes: &'a str,
    sizes: &'a str,
    shown: &'a str,
    shows: &'a str,
    one: &'a str,
    all: &'a str,
}

// The paths lie in the words, of which there are none at first.
fn read_paths<'a, R: Env + AllocGlobal>(rt: &R, words: &'a mut Vec<String>) -> Option<Paths<'a>> {
    for word in env::args(rt).ok()? {
        words.push(word).ok()?;
    }
    paths_of(words)
}

fn paths_of(words: &[String]) -> Option<Paths<'_>> {
    match words {
        [
            _,
            setup,
            lines,
            served,
            changes,
            sizes,
            shown,
            shows,
            one,
            all,
        ] => Some(Paths {
            setup,
            lines,
            served,
            changes,
            sizes,
            shown,
            shows,
            one,
            all,
        }),
        _ => None,
    }
}

fn run<R: Files + Clock + Print + AllocGlobal>(rt: &R, paths: Paths<'_>) -> Result<(), BenchFault> {
    measure_edits(rt, paths)?;
    commands::measure(rt)?;
    pairs::measure(rt)?;
    measure_told(rt, paths)?;
    measure_lists(rt, paths)?;
    measure_shows(rt, paths)?;
    measure_limits(rt, paths)
}

fn measure_edits<R: Files + Clock + Print + AllocGlobal>(
    rt: &R,
    paths: Paths<'_>,
) -> Result<(), BenchFault> {
    let setup = read_file(rt, rt.alloc(), paths.setup)?;
    let lines = read_file(rt, rt.alloc(), paths.lines)?;
    edits::measure(rt, &setup, &lines)
}

fn measure_told<R: Files + Clock + Print + AllocGlobal>(
    rt: &R,
    paths: Paths<'_>,
) -> Result<(), BenchFault> {
    let served = read_file(rt, rt.alloc(), paths.served)?;
    let changes = read_file(rt, rt.alloc(), paths.changes)?;
    told::measure(rt, &served, &changes)
}

fn measure_lists<R: Files + Clock + Print + AllocGlobal>(
    rt: &R,
    paths: Paths<'_>,
) -> Result<(), BenchFault> {
    let served = read_file(rt, rt.alloc(), paths.served)?;
    let sizes = read_file(rt, rt.alloc(), paths.sizes)?;
    lists::measure(rt, &served, &sizes)
}

fn measure_shows<R: Files + Clock + Print + AllocGlobal>(
    rt: &R,
    paths: Paths<'_>,
) -> Result<(), BenchFault> {
    let shown = read_file(rt, rt.alloc(), paths.shown)?;
    let shows = read_file(rt, rt.alloc(), paths.shows)?;
    let one = read_file(rt, rt.alloc(), paths.one)?;
    let all = read_file(rt, rt.alloc(), paths.all)?;
    let changes = read_file(rt, rt.alloc(), paths.changes)?;
    let lines = shows::Lines {
        shows: &shows,
        one: &one,
        all: &all,
        changes: &changes,
    };
    shows::measure(rt, &shown, lines)
}

fn measure_limits<R: Files + Clock + Print + AllocGlobal>(
    rt: &R,
    paths: Paths<'_>,
) -> Result<(), BenchFault> {
    let served = read_file(rt, rt.alloc(), paths.served)?;
    let one = read_file(rt, rt.alloc(), paths.one)?;
    let all = read_file(rt, rt.alloc(), paths.all)?;
    limits::measure(rt, &served, &one, &all)
}
