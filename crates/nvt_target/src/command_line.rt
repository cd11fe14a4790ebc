//! The command line, as the program declares it.

use crate::help::{CHECK_HELP, HELP, RUN_HELP};
use clap::{Arg, ArgAction, Command, value_parser};
use program_words::{port_option, turns, with, with_command};
use std::alloc::{AllocError, Global};

/// The most disks of a target.
pub const DISKS_MAX: i64 = 256;

const UNITS_MAX: i64 = 1_048_576;

const MEMORY_UNITS_MAX: i64 = 2_147_483_648;

const CONTROL_HELP: &str = "The TCP port for lines of edits, at 127.0.0.1";

const EXPLAIN_HELP: &str =
    "Prints behind each PDU what it is, in words, after ` # `, and in words what hosts send";

const FILE_HELP: &str = "A file or block device that is a disk; once for each, also among --memory";

const MEMORY_HELP: &str =
    "The size of one disk in units, 1 to 2147483648; once for each, in place of --disks and --units";

const QUIET_HELP: &str = "Tells nothing on standard error of who connects and what is edited";

const TURNS_HELP: &str = "How many turns the target is served; an idle one takes up to 1 ms";

/// The program, with its commands `replay`, `run` and `check`.
pub fn program<'a>(alloc: Global) -> Result<Command<'a>, AllocError> {
    let program = Command::new(alloc, "nvt_target")
        .about("A target of NVMe over TCP")
        .after_help(HELP)
        .subcommand_required(true);
    let program = with_command(Ok(program), replay(alloc));
    let program = with_command(program, run(alloc));
    with_command(program, check(alloc))
}

fn replay<'a>(alloc: Global) -> Result<Command<'a>, AllocError> {
    let command = Command::new(alloc, "replay")
        .about("Applies the lines of EDITS, runs those of STREAM, and prints what the target sends")
        .after_help(HELP)
        .arg(file(alloc, "EDITS", "A file of one edit a line"));
    let stream = file(alloc, "STREAM", "A script of connections, one line each");
    let command = with(command, stream);
    let command = with_disks(alloc, command);
    with(command, flag(alloc, "explain", EXPLAIN_HELP))
}

fn run<'a>(alloc: Global) -> Result<Command<'a>, AllocError> {
    let command = Command::new(alloc, "run")
        .about("Applies the lines of EDITS, and serves hosts over TCP")
        .after_help(RUN_HELP)
        .arg(file(alloc, "EDITS", "A file of one edit a line"));
    let control = port_option(alloc, "control", CONTROL_HELP);
    let command = with(command, control);
    let command = with(command, turns(alloc, TURNS_HELP));
    let command = with_files(alloc, with_disks(alloc, command));
    with(command, flag(alloc, "quiet", QUIET_HELP))
}

fn check<'a>(alloc: Global) -> Result<Command<'a>, AllocError> {
    let command = Command::new(alloc, "check")
        .about("Applies the lines of EDITS to disks alone, and serves nothing")
        .after_help(CHECK_HELP)
        .arg(file(alloc, "EDITS", "A file of one edit a line"));
    with_files(alloc, with_disks(alloc, command))
}

// The options that say which disks in memory there are.
fn with_disks<'a>(
    alloc: Global,
    command: Result<Command<'a>, AllocError>,
) -> Result<Command<'a>, AllocError> {
    let command = with(command, disks(alloc));
    let command = with(command, units(alloc));
    with(command, memory(alloc)?)
}

// .. and which in files.
fn with_files<'a>(
    alloc: Global,
    command: Result<Command<'a>, AllocError>,
) -> Result<Command<'a>, AllocError> {
    with(command, disk_file(alloc)?)
}

fn file<'a>(alloc: Global, name: &'a str, help: &'a str) -> Arg<'a> {
    Arg::new(alloc, name).required(true).help(help)
}

fn option<'a>(alloc: Global, name: &'a str, default: &'a str, help: &'a str) -> Arg<'a> {
    Arg::new(alloc, name)
        .long(name)
        .default_value(default)
        .help(help)
}

fn disks<'a>(alloc: Global) -> Arg<'a> {
    let help = "How many disks the target has, 1 to 256";
    option(alloc, "disks", "4", help).value_parser(value_parser!(u16).range(1..=DISKS_MAX))
}

fn units<'a>(alloc: Global) -> Arg<'a> {
    let help = "The size of each disk in units of 512 bytes, 1 to 1048576";
    option(alloc, "units", "2048", help).value_parser(value_parser!(u64).range(1..=UNITS_MAX))
}

// A disk of its own size, each time that it is given.
fn memory<'a>(alloc: Global) -> Result<Arg<'a>, AllocError> {
    let numbers = value_parser!(u64).range(1..=MEMORY_UNITS_MAX);
    Ok(each(alloc, "memory", "units", MEMORY_HELP)?.value_parser(numbers))
}

// A disk in a file, each time that it is given.
fn disk_file<'a>(alloc: Global) -> Result<Arg<'a>, AllocError> {
    each(alloc, "file", "path", FILE_HELP)
}

// One of the disks, in the place of those of one size.
fn each<'a>(
    alloc: Global,
    name: &'a str,
    value: &'a str,
    help: &'a str,
) -> Result<Arg<'a>, AllocError> {
    Arg::new(alloc, name)
        .long(name)
        .value_name(value)
        .action(ArgAction::Append)
        .help(help)
        .conflicts_with("disks")?
        .conflicts_with("units")
}

fn flag<'a>(alloc: Global, name: &'a str, help: &'a str) -> Arg<'a> {
    Arg::new(alloc, name)
        .long(name)
        .action(ArgAction::SetTrue)
        .help(help)
}
