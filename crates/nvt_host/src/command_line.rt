//! The command line, as the program declares it.

use crate::help;
use clap::{Arg, ArgAction, Command, value_parser};
use program_words::{port_option, turns, with, with_command};
use std::alloc::{AllocError, Global};

/// The commands, by their names.
pub const COMMANDS: [&str; 6] = ["discover", "list", "ana", "changed", "read", "write"];

const PORT_MAX: i64 = 65_535;

const COUNT_MAX: i64 = 256;

/// The program, with its commands.
pub fn program<'a>(alloc: Global) -> Result<Command<'a>, AllocError> {
    let program = Command::new(alloc, "nvt_host")
        .about("A host of NVMe over TCP")
        .after_help(help::HELP)
        .subcommand_required(true);
    let program = with_command(Ok(program), discover(alloc));
    let program = with_command(program, list(alloc));
    let program = with_command(program, ana(alloc));
    let program = with_command(program, changed(alloc));
    let program = with_command(program, read(alloc));
    let program = with_command(program, write(alloc));
    with_command(program, lab(alloc))
}

fn lab<'a>(alloc: Global) -> Result<Command<'a>, AllocError> {
    let command = Command::new(alloc, "lab")
        .about("Starts a target and two hosts, of which one writes while the other reads")
        .after_help(help::LAB)
        .arg(word(alloc, "TARGET", "The program nvt_target"));
    let port = port_option(alloc, "port", "The target's port for hosts, at 127.0.0.1");
    let command = with(command, port);
    let control = port_option(
        alloc,
        "control",
        "Its port for lines of edits, at 127.0.0.1",
    );
    let command = with(command, control);
    with(command, turns(alloc, TURNS_HELP))
}

fn discover<'a>(alloc: Global) -> Result<Command<'a>, AllocError> {
    let command = Command::new(alloc, "discover")
        .about("Prints the records of the discovery log page")
        .after_help(help::DISCOVER)
        .arg(word(alloc, "ADDR", ADDR_HELP));
    let command = with(command, port(alloc));
    let command = with(command, word(alloc, "HOSTNQN", HOST_HELP));
    with(command, turns(alloc, TURNS_HELP))
}

fn list<'a>(alloc: Global) -> Result<Command<'a>, AllocError> {
    let about = "Prints the active namespaces, one a line";
    let command = to_subsystem(alloc, "list", about, help::LIST);
    with(command, turns(alloc, TURNS_HELP))
}

fn ana<'a>(alloc: Global) -> Result<Command<'a>, AllocError> {
    let about = "Prints the groups of the Asymmetric Namespace Access log page";
    let command = to_subsystem(alloc, "ana", about, help::ANA);
    with(command, turns(alloc, TURNS_HELP))
}

fn changed<'a>(alloc: Global) -> Result<Command<'a>, AllocError> {
    let about = "Waits until a namespace changes, and prints which did";
    let command = to_subsystem(alloc, "changed", about, help::CHANGED);
    with(command, turns(alloc, TURNS_HELP))
}

fn read<'a>(alloc: Global) -> Result<Command<'a>, AllocError> {
    let command = to_subsystem(
        alloc,
        "read",
        "Prints blocks in hex, one a line",
        help::READ,
    );
    let command = to_blocks(alloc, command);
    with(command, turns(alloc, TURNS_HELP))
}

fn write<'a>(alloc: Global) -> Result<Command<'a>, AllocError> {
    let command = to_subsystem(
        alloc,
        "write",
        "Writes blocks, and prints `ok`",
        help::WRITE,
    );
    let command = to_blocks(alloc, command);
    let command = with(command, byte(alloc));
    let command = with(command, hold(alloc));
    with(command, turns(alloc, TURNS_HELP))
}

// A command to a controller of a subsystem.
fn to_subsystem<'a>(
    alloc: Global,
    name: &'a str,
    about: &'a str,
    example: &'a str,
) -> Result<Command<'a>, AllocError> {
    let command = Command::new(alloc, name)
        .about(about)
        .after_help(example)
        .arg(word(alloc, "ADDR", ADDR_HELP));
    let command = with(command, port(alloc));
    let command = with(command, word(alloc, "SUBNQN", "The name of the subsystem"));
    with(command, word(alloc, "HOSTNQN", HOST_HELP))
}

// The same with the blocks that it is about.
fn to_blocks<'a>(
    alloc: Global,
    command: Result<Command<'a>, AllocError>,
) -> Result<Command<'a>, AllocError> {
    let command = with(command, nsid(alloc));
    let command = with(command, lba(alloc));
    with(command, count(alloc))
}

const ADDR_HELP: &str = "The controller's IPv4 or IPv6 address";

const TURNS_HELP: &str = "At most so many turns; one in which nothing moves takes up to 1 ms";

const HOST_HELP: &str = "The name of the host";

fn word<'a>(alloc: Global, name: &'a str, help: &'a str) -> Arg<'a> {
    Arg::new(alloc, name).required(true).help(help)
}

fn port<'a>(alloc: Global) -> Arg<'a> {
    let port = word(alloc, "PORT", "The controller's TCP port, 1 to 65535");
    port.value_parser(value_parser!(u16).range(1..=PORT_MAX))
}

fn nsid<'a>(alloc: Global) -> Arg<'a> {
    word(alloc, "NSID", "The namespace").value_parser(value_parser!(u32))
}

fn lba<'a>(alloc: Global) -> Arg<'a> {
    word(alloc, "LBA", "The first block").value_parser(value_parser!(u64))
}

fn count<'a>(alloc: Global) -> Arg<'a> {
    let count = word(alloc, "COUNT", "How many blocks, 1 to 256");
    count.value_parser(value_parser!(u16).range(1..=COUNT_MAX))
}

fn byte<'a>(alloc: Global) -> Arg<'a> {
    let byte = word(alloc, "BYTE", "Each byte of the blocks, 0 to 255");
    byte.value_parser(value_parser!(u8))
}

fn hold<'a>(alloc: Global) -> Arg<'a> {
    Arg::new(alloc, "hold")
        .long("hold")
        .action(ArgAction::SetTrue)
        .help(
            "Once the controller asks for the data, prints `held` and reads a line before it sends any",
        )
}
