//! A storage target of NVMe over TCP as a program. `run` applies a file of edits to an empty target, and serves hosts
//! over TCP. `replay` runs a script of connections over such a target, and prints each PDU that it sends, in hex, and
//! the connections that it opens and ends: what that prints depends on its two files and its arguments alone. `check`
//! applies a file of edits to disks alone, and serves nothing.
#![tactic(auto)]

mod arguments;
mod command_line;
mod disks;
mod help;

use arguments::Usage;
use std::fmt::Display;
use std::process::ExitCode;
use target_programs::{check, exit_status, replaying, serving};

const BAD_ARGUMENTS: u8 = 2;

fn main(rt: HostRuntime) -> ExitCode {
    match arguments::read(&rt) {
        Ok(Usage::Replay(arguments)) => finish(&rt, replaying::run(&rt, &arguments)),
        Ok(Usage::Serve(arguments)) => finish(&rt, serving::run(&rt, &arguments)),
        Ok(Usage::Check(arguments)) => finish(&rt, check(&rt, &arguments)),
        Ok(Usage::Help) => ExitCode::SUCCESS,
        Ok(Usage::Bad) => {
            let _ = eprintln!(rt; "error: bad arguments");
            ExitCode::from(BAD_ARGUMENTS)
        }
        Err(fault) => finish(&rt, Err(fault)),
    }
}

fn finish<E: Display + Drop>(rt: &impl Eprint, outcome: Result<(), E>) -> ExitCode {
    if let Err(fault) = &outcome {
        let _ = eprintln!(rt; "error: {fault}");
    }
    ExitCode::from(exit_status(outcome))
}
