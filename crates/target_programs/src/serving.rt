//! The command `run`, from its file to the sockets.

use crate::disks::{DiskArgument, OpenedDisk, opened_disks};
use crate::{CommandFault, ServeArguments, read_file_into};
use edit_lines::{ReplayFault, configure_over};
use file_disk::{Start, Unknown};
use nvt_serve::serve;
use nvt_sockets::{Log, SocketPorts, Tcp};
use std::fs::File;
use std::io::{Error, ErrorKind};
use std::net::Net;
use std::rt::{Clock, Files};
use target_core::Target;

// The room that the file of edits is read into.
const ROOM: usize = 1 << 24;

/// Serves a target over sockets, as the arguments ask for.
pub fn run<R: Files<File = File> + Net + Clock + Print + Eprint + AllocGlobal>(
    rt: &R,
    arguments: &ServeArguments,
) -> Result<(), CommandFault> {
    serve_over(rt, arguments, Unknown)
}

// What the files hold that disks are in is whatever `S` says.
fn serve_over<R: Files<File = File> + Net + Clock + Print + Eprint + AllocGlobal, S: Start>(
    rt: &R,
    arguments: &ServeArguments,
    _start: S,
) -> Result<(), CommandFault> {
    let mut target = configured::<R, S>(rt, arguments)?;
    let ports = match Tcp::new(rt) {
        Ok(network) => SocketPorts::open(
            network,
            rt.alloc(),
            arguments.control,
            target.config(),
            log_of(arguments),
        ),
        Err(error) => Err(error),
    };
    match ports {
        Ok(mut ports) => {
            warn(rt, arguments);
            serve(&mut ports, &mut target, arguments.turns);
            finish(rt, &mut ports, arguments)
        }
        Err(error) => Err(fault_of(&error)),
    }
}

// Says once that what hosts write to disks in memory does not last.
fn warn<R: Eprint>(rt: &R, arguments: &ServeArguments) {
    let is_in_memory = |disk: &DiskArgument| matches!(disk, DiskArgument::Memory(_));
    if !arguments.quiet && arguments.disks.iter().any(is_in_memory) {
        let _ = eprintln!(rt; "disks in memory: what is written to them is lost at the end");
    }
}

fn log_of(arguments: &ServeArguments) -> Log {
    if arguments.quiet {
        Log::Quiet
    } else {
        Log::Printed
    }
}

// What is kept is sent, and it is said how many hosts were given up.
fn finish<R: Net + Clock + Eprint>(
    rt: &R,
    ports: &mut SocketPorts<Tcp<&R>>,
    arguments: &ServeArguments,
) -> Result<(), CommandFault> {
    let given_up = match ports.finish() {
        Ok(given_up) => given_up,
        Err(error) => return Err(fault_of(&error)),
    };
    let (silent, stuck, gone) = (
        given_up.without_connect,
        given_up.took_nothing,
        given_up.gone,
    );
    if !arguments.quiet && (silent > 0 || stuck > 0 || gone > 0) {
        let _ = eprintln!(rt;
            "given up: {silent} without a Connect, {stuck} that took nothing, {gone} that were gone"
        );
    }
    Ok(())
}

// The target that the file of edits configures. The room of the file is freed before hosts come: since it was that
// large, the C library's allocator keeps what is freed from then on, and the data of each command that waits for them
// cost no new pages of the system.
fn configured<R: Files<File = File> + AllocGlobal, S: Start>(
    rt: &R,
    arguments: &ServeArguments,
) -> Result<Target<OpenedDisk<S>>, CommandFault> {
    let alloc = rt.alloc();
    let room = Vec::with_capacity(alloc, ROOM)?;
    let edits = read_file_into(rt, room, arguments.edits.as_str())?;
    let disks = opened_disks(rt, &arguments.disks)?;
    Ok(configure_over(alloc, &edits, disks)?)
}

fn fault_of(error: &Error) -> CommandFault {
    CommandFault::Replay(match error.kind() {
        ErrorKind::OutOfMemory => ReplayFault::Memory,
        _ => ReplayFault::Io,
    })
}
