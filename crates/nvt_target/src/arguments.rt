//! The arguments of the program.

use crate::command_line;
use crate::disks::{each_disk, memory_sizes};
use clap::ArgMatches;
use program_words::{ArgumentsRefusal, number, parsed, refusal_of, take_words};
use std::alloc::{AllocError, Global};
use std::rt::Env;
use target_programs::{CheckArguments, ReplayArguments, ReplayFault, ServeArguments};

/// What the arguments ask for.
#[derive(Drop)]
pub enum Usage {
    Replay(ReplayArguments),
    Serve(ServeArguments),
    Check(CheckArguments),
    /// The help, which was printed.
    Help,
    Bad,
}

/// Reads the arguments of the process, and prints the help where they ask for it.
pub fn read<R: Env + Print + AllocGlobal>(rt: &R) -> Result<Usage, ReplayFault> {
    let mut words = Vec::new(rt.alloc());
    match take_words(rt, &mut words) {
        Ok(true) => read_words(rt, &words),
        Ok(false) => Ok(Usage::Bad),
        Err(AllocError) => Err(ReplayFault::Memory),
    }
}

fn read_words<R: Print + AllocGlobal>(rt: &R, words: &[String]) -> Result<Usage, ReplayFault> {
    match parsed(command_line::program(rt.alloc()), words) {
        Ok(matches) => usage_of(rt.alloc(), &matches),
        Err(error) => refused(refusal_of(rt, &error)),
    }
}

fn refused(refusal: ArgumentsRefusal) -> Result<Usage, ReplayFault> {
    match refusal {
        ArgumentsRefusal::Help => Ok(Usage::Help),
        ArgumentsRefusal::Bad => Ok(Usage::Bad),
        ArgumentsRefusal::Io => Err(ReplayFault::Io),
        ArgumentsRefusal::Memory => Err(ReplayFault::Memory),
    }
}

fn usage_of(alloc: Global, matches: &ArgMatches<'_>) -> Result<Usage, ReplayFault> {
    if let Some(replay) = matches.subcommand_matches("replay") {
        return replay_usage(alloc, replay);
    }
    if let Some(run) = matches.subcommand_matches("run") {
        return serve_usage(alloc, run);
    }
    match matches.subcommand_matches("check") {
        Some(check) => check_usage(alloc, check),
        None => Ok(Usage::Bad),
    }
}

fn replay_usage(alloc: Global, replay: &ArgMatches<'_>) -> Result<Usage, ReplayFault> {
    match (
        replay.get_str("EDITS"),
        replay.get_str("STREAM"),
        memory_sizes(alloc, replay)?,
    ) {
        (Some(edits), Some(stream), Some(disks)) => Ok(Usage::Replay(ReplayArguments {
            edits: String::from_str(alloc, edits)?,
            stream: String::from_str(alloc, stream)?,
            disks,
            explain: replay.get_flag("explain"),
        })),
        _ => Ok(Usage::Bad),
    }
}

fn serve_usage(alloc: Global, run: &ArgMatches<'_>) -> Result<Usage, ReplayFault> {
    match (
        run.get_str("EDITS"),
        port(run, "control"),
        number(run, "turns"),
        each_disk(alloc, run)?,
    ) {
        (Some(edits), Some(control), Some(turns), Some(disks)) => Ok(Usage::Serve(
            ServeArguments {
                edits: String::from_str(alloc, edits)?,
                control,
                turns,
                disks,
                quiet: run.get_flag("quiet"),
            },
        )),
        _ => Ok(Usage::Bad),
    }
}

fn check_usage(alloc: Global, check: &ArgMatches<'_>) -> Result<Usage, ReplayFault> {
    match (check.get_str("EDITS"), each_disk(alloc, check)?) {
        (Some(edits), Some(disks)) => Ok(Usage::Check(CheckArguments {
            edits: String::from_str(alloc, edits)?,
            disks,
        })),
        _ => Ok(Usage::Bad),
    }
}

fn port(matches: &ArgMatches<'_>, name: &str) -> Option<u16> {
    u16::try_from(number(matches, name)?).ok()
}
