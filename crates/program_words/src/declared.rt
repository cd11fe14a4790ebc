//! A command line, as a program declares it.
ghost use Rattle.std.specs.Prelude.{◌≡◌, Err, IfErr, IfOk};
ghost use Rattle.clap.specs.Words.{AddsArg, AddsSubcommand};

use clap::{Arg, Command, value_parser};
use std::alloc::{AllocError, Global};

const PORT_MAX: i64 = 65_535;

/// The program with one command more, unless memory was wanted before.
pub fn with_command<'a>(
    program: Result<Command<'a>, AllocError>,
    command: Result<Command<'a>, AllocError>,
) -> Result<Command<'a>, AllocError>
    ensures added { IfOk result (λ whole. IfOk program.entry (λ p. IfOk command.entry (λ c. AddsSubcommand p c whole))) }
    ensures wanted { IfErr program.entry (λ e. result ≡ Err e) }
    ensures wanted_of_it { IfErr command.entry (λ e. result ≡ Err e) }
{
    match (program, command) {
        (Ok(program), Ok(command)) => program.subcommand(command),
        _ => Err(AllocError),
    }
}

/// The command with one argument more, unless memory was wanted before.
pub fn with<'a>(
    command: Result<Command<'a>, AllocError>,
    arg: Arg<'a>,
) -> Result<Command<'a>, AllocError>
    ensures added { IfOk result (λ whole. IfOk command.entry (λ c. AddsArg c arg.entry whole)) }
    ensures wanted { IfErr command.entry (λ e. result ≡ Err e) }
{
    match command {
        Ok(command) => command.arg(arg),
        Err(AllocError) => Err(AllocError),
    }
}

/// An option that has to be given: a TCP port.
pub fn port_option<'a>(alloc: Global, name: &'a str, help: &'a str) -> Arg<'a> {
    Arg::new(alloc, name)
        .long(name)
        .required(true)
        .value_parser(value_parser!(u16).range(1..=PORT_MAX))
        .help(help)
}

/// The option `--turns`: at most so many, and as many as there can be where it is not given.
pub fn turns<'a>(alloc: Global, help: &'a str) -> Arg<'a> {
    Arg::new(alloc, "turns")
        .long("turns")
        .default_value("18446744073709551615")
        .value_parser(value_parser!(u64))
        .help(help)
}
