//! Plays a script of connections over a target that a file of edits configured, and prints what `nvt_target replay`
//! prints. A call that answers Memory is made again, so that with any one growth refused the same is printed.
//!
//! `replay_again EDITS STREAM` is run so by `.ci/refused-growths`. With `--edits-once` behind them an edit of STREAM that
//! answers Memory is not made again, and `refused Memory` is printed for it; with `--failing-disk` the second call of the
//! first disk fails. Last it prints on standard error how many calls answered Memory.
#![tactic(auto)]

mod arguments;
mod fault;
mod play;
mod player;

use arguments::{Arguments, read_arguments};
use std::process::ExitCode;
use std::rt::{Env, Files};

const FAULT: u8 = 1;

const BAD_ARGUMENTS: u8 = 2;

fn main(rt: HostRuntime) -> ExitCode {
    let mut words = Vec::new(rt.alloc());
    run_on(&rt, &mut words)
}

fn run_on<R: Env + Files + Print + Eprint + AllocGlobal>(
    rt: &R,
    words: &mut Vec<String>,
) -> ExitCode {
    let mut refused = 0;
    match read_arguments(rt, words, &mut refused) {
        Some(arguments) => run(rt, arguments, &mut refused),
        None => {
            let _ = eprintln!(rt;
                "usage: replay_again EDITS STREAM [--edits-once | --failing-disk]"
            );
            ExitCode::from(BAD_ARGUMENTS)
        }
    }
}

fn run<R: Files + Print + Eprint + AllocGlobal>(
    rt: &R,
    arguments: Arguments<'_>,
    refused: &mut u32,
) -> ExitCode {
    let outcome = play::play(rt, arguments, refused);
    let _ = eprintln!(rt; "refused growths: {refused}");
    match outcome {
        Ok(()) => ExitCode::SUCCESS,
        Err(fault) => {
            let _ = eprintln!(rt; "error: {fault}");
            ExitCode::from(FAULT)
        }
    }
}
