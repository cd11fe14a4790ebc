//! A host of NVMe over TCP as a program: each command connects to a controller, asks it for something, and prints what
//! it answers.
#![tactic(auto)]

mod arguments;
mod command;
mod command_line;
mod help;

use arguments::{LabArguments, Usage};
use host_parts::{LabPlan, lab};
use std::fmt::Display;
use std::net::Net;
use std::process::{ExitCode, Processes};
use std::rt::Clock;

const FAULT: u8 = 1;

const BAD_ARGUMENTS: u8 = 2;

fn main(rt: HostRuntime) -> ExitCode {
    match arguments::read(&rt) {
        Ok(Usage::Run(arguments)) => finish(&rt, command::run(&rt, &arguments)),
        Ok(Usage::Lab(arguments)) => finish_lab(&rt, &arguments),
        Ok(Usage::Nothing) => finish(&rt, command::tell(&rt, "nvt_host")),
        Ok(Usage::Help) => ExitCode::SUCCESS,
        Ok(Usage::Bad) => {
            let _ = eprintln!(rt; "error: bad arguments");
            ExitCode::from(BAD_ARGUMENTS)
        }
        Err(fault) => finish(&rt, Err(fault)),
    }
}

fn finish_lab<R: Processes + Net + Clock + Print + Eprint + AllocGlobal>(
    rt: &R,
    arguments: &LabArguments,
) -> ExitCode {
    match lab(rt, &plan_of(arguments)) {
        Ok(()) => finish(rt, command::tell(rt, "lab ok")),
        Err(fault) => {
            let _ = eprintln!(rt; "error: {fault}");
            ExitCode::from(FAULT)
        }
    }
}

fn plan_of(arguments: &LabArguments) -> LabPlan<'_> {
    LabPlan {
        target: arguments.target.as_str(),
        host: arguments.own.as_str(),
        port: arguments.port,
        control: arguments.control,
        turns: arguments.turns,
    }
}

fn finish<F: Display + Drop>(rt: &impl Eprint, outcome: Result<(), F>) -> ExitCode {
    match outcome {
        Ok(()) => ExitCode::SUCCESS,
        Err(fault) => {
            let _ = eprintln!(rt; "error: {fault}");
            ExitCode::from(FAULT)
        }
    }
}
