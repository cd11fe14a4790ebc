//! The arguments of the program.

use crate::command_line;
use clap::ArgMatches;
use host_program::{Blocks, Fill, Peers, SessionFault};
use nvt_fields::{Nqn, NqnFault};
use program_words::{ArgumentsRefusal, number, parsed, refusal_of, take_words};
use std::alloc::{AllocError, Global};
use std::net::{IpAddr, SocketAddr};
use std::rt::Env;

/// What the arguments ask for.
#[derive(Drop)]
pub enum Usage {
    Run(HostArguments),
    Lab(LabArguments),
    /// There is none.
    Nothing,
    /// The help, which was printed.
    Help,
    Bad,
}

/// What the lab starts, and where.
#[derive(Drop)]
pub struct LabArguments {
    /// The program of the target, and this one.
    pub target: String,
    pub own: String,
    pub port: u16,
    pub control: u16,
    pub turns: u64,
}

/// What a command is to do, and with whom.
#[derive(Drop)]
pub struct HostArguments {
    pub address: SocketAddr,
    /// At most so many turns.
    pub turns: u64,
    pub verb: Verb,
}

/// What a command is to do.
#[derive(Drop)]
pub enum Verb {
    Discover(Nqn),
    List(Peers),
    Ana(Peers),
    Changed(Peers),
    Read(Peers, Blocks),
    Write(Peers, Fill),
    WriteHeld(Peers, Fill),
}

/// Reads the arguments of the process, and prints the help where they ask for it.
pub fn read<R: Env + Print + AllocGlobal>(rt: &R) -> Result<Usage, SessionFault> {
    let mut words = Vec::new(rt.alloc());
    match take_words(rt, &mut words) {
        Ok(true) if words.len() < 2 => Ok(Usage::Nothing),
        Ok(true) => read_words(rt, &words),
        Ok(false) => Ok(Usage::Bad),
        Err(AllocError) => Err(SessionFault::Memory),
    }
}

fn read_words<R: Print + AllocGlobal>(rt: &R, words: &[String]) -> Result<Usage, SessionFault> {
    match parsed(command_line::program(rt.alloc()), words) {
        Ok(matches) => usage_of(rt.alloc(), words, &matches),
        Err(error) => refused(refusal_of(rt, &error)),
    }
}

fn refused(refusal: ArgumentsRefusal) -> Result<Usage, SessionFault> {
    match refusal {
        ArgumentsRefusal::Help => Ok(Usage::Help),
        ArgumentsRefusal::Bad => Ok(Usage::Bad),
        ArgumentsRefusal::Io => Err(SessionFault::Io),
        ArgumentsRefusal::Memory => Err(SessionFault::Memory),
    }
}

fn usage_of(
    alloc: Global,
    words: &[String],
    matches: &ArgMatches<'_>,
) -> Result<Usage, SessionFault> {
    if let Some(matches) = matches.subcommand_matches("lab") {
        return match lab_arguments(alloc, words, matches) {
            Ok(Some(arguments)) => Ok(Usage::Lab(arguments)),
            Ok(None) => Ok(Usage::Bad),
            Err(AllocError) => Err(SessionFault::Memory),
        };
    }
    match arguments_of(alloc, matches) {
        Ok(Some(arguments)) => Ok(Usage::Run(arguments)),
        Ok(None) => Ok(Usage::Bad),
        Err(AllocError) => Err(SessionFault::Memory),
    }
}

fn lab_arguments(
    alloc: Global,
    words: &[String],
    matches: &ArgMatches<'_>,
) -> Result<Option<LabArguments>, AllocError> {
    let (Some(own), Some(target)) = (words.first(), matches.get_str("TARGET")) else {
        return Ok(None);
    };
    match (
        port(matches, "port"),
        port(matches, "control"),
        number(matches, "turns"),
    ) {
        (Some(port), Some(control), Some(turns)) => Ok(Some(LabArguments {
            target: target.to_string(alloc)?,
            own: own.clone()?,
            port,
            control,
            turns,
        })),
        _ => Ok(None),
    }
}

// What the command that was given asks for; None where a word of it is not what it has to be.
fn arguments_of(
    alloc: Global,
    matches: &ArgMatches<'_>,
) -> Result<Option<HostArguments>, AllocError> {
    for name in command_line::COMMANDS {
        if let Some(matches) = matches.subcommand_matches(name) {
            return command_arguments(alloc, name, matches);
        }
    }
    Ok(None)
}

fn command_arguments(
    alloc: Global,
    name: &str,
    matches: &ArgMatches<'_>,
) -> Result<Option<HostArguments>, AllocError> {
    let Some(address) = address_of(matches) else {
        return Ok(None);
    };
    let Some(turns) = number(matches, "turns") else {
        return Ok(None);
    };
    match verb_of(alloc, name, matches)? {
        Some(verb) => Ok(Some(HostArguments {
            address,
            turns,
            verb,
        })),
        None => Ok(None),
    }
}

fn address_of(matches: &ArgMatches<'_>) -> Option<SocketAddr> {
    let ip = IpAddr::parse_ascii(matches.get_str("ADDR")?.as_bytes()).ok()?;
    Some(SocketAddr::new(ip, port(matches, "PORT")?))
}

fn port(matches: &ArgMatches<'_>, name: &str) -> Option<u16> {
    u16::try_from(number(matches, name)?).ok()
}

fn verb_of(
    alloc: Global,
    name: &str,
    matches: &ArgMatches<'_>,
) -> Result<Option<Verb>, AllocError> {
    let Some(host) = name_of(alloc, matches, "HOSTNQN")? else {
        return Ok(None);
    };
    if name == "discover" {
        return Ok(Some(Verb::Discover(host)));
    }
    match name_of(alloc, matches, "SUBNQN")? {
        Some(subsystem) => Ok(verb_to(name, Peers { subsystem, host }, matches)),
        None => Ok(None),
    }
}

// The name that is given under this word; None where it is none.
fn name_of(alloc: Global, matches: &ArgMatches<'_>, word: &str) -> Result<Option<Nqn>, AllocError> {
    let Some(text) = matches.get_str(word) else {
        return Ok(None);
    };
    match Nqn::read(alloc, text.as_bytes()) {
        Ok(name) => Ok(Some(name)),
        Err(NqnFault::Memory) => Err(AllocError),
        Err(NqnFault::TooLong | NqnFault::BadNqn) => Ok(None),
    }
}

fn verb_to(name: &str, peers: Peers, matches: &ArgMatches<'_>) -> Option<Verb> {
    match name {
        "list" => Some(Verb::List(peers)),
        "ana" => Some(Verb::Ana(peers)),
        "changed" => Some(Verb::Changed(peers)),
        "read" => Some(Verb::Read(peers, blocks_of(matches)?)),
        _ => {
            let fill = Fill {
                blocks: blocks_of(matches)?,
                byte: u8::try_from(number(matches, "BYTE")?).ok()?,
            };
            if matches.get_flag("hold") {
                Some(Verb::WriteHeld(peers, fill))
            } else {
                Some(Verb::Write(peers, fill))
            }
        }
    }
}

fn blocks_of(matches: &ArgMatches<'_>) -> Option<Blocks> {
    Blocks::new(
        u32::try_from(number(matches, "NSID")?).ok()?,
        number(matches, "LBA")?,
        u16::try_from(number(matches, "COUNT")?).ok()?,
    )
}
