//! What the processes of the lab are started with.
ghost use Rattle.std.specs.Prelude.{◌≡◌, ◌++◌, ◌∷◌, [], IfOk, OnOk, codes};
ghost use Rattle.std.specs.Fmt.{decimal};
ghost use Rattle.std.specs.Process.{command_args, command_program};
ghost use Rattle.host_parts.specs.Started.{Starts, host_words, reader_words, target_words, writer_words};

use crate::course::LabPlan;
use itoa::Buffer;
use std::alloc::{AllocError, Global};
use std::process::{Command, Stdio};

const SUBSYSTEM: &str = "nqn.2026-01.test:a";

const HOST: &str = "nqn.2026-01.test:h1";

/// The target, without an edit of its own.
pub fn target_command(alloc: Global, plan: &LabPlan<'_>) -> Result<Command, AllocError>
    ensures { IfOk result (Starts plan.now.target.now (target_words plan.now)) }
{
    let mut command = Command::new(alloc, plan.target)?;
    push_target_words(&mut command, plan)?;
    command.stdin(Stdio::null());
    Ok(with_pipes(command))
}

/// Host 1, which writes blocks once a line says so.
pub fn writer_command(alloc: Global, plan: &LabPlan<'_>) -> Result<Command, AllocError>
    ensures { IfOk result (Starts plan.now.host.now (writer_words plan.now)) }
{
    let mut command = host_command(alloc, plan, "write")?;
    push_writer_words(&mut command)?;
    command.stdin(Stdio::piped());
    Ok(command)
}

/// Host 2, which reads a block.
pub fn reader_command(alloc: Global, plan: &LabPlan<'_>) -> Result<Command, AllocError>
    ensures { IfOk result (Starts plan.now.host.now (reader_words plan.now)) }
{
    let mut command = host_command(alloc, plan, "read")?;
    push_word(&mut command, "1")?;
    command.stdin(Stdio::null());
    Ok(command)
}

// A command of a host, on namespace 1 from block 0 on.
fn host_command(alloc: Global, plan: &LabPlan<'_>, verb: &str) -> Result<Command, AllocError>
    ensures { IfOk result (Starts plan.now.host.now (host_words verb.now plan.now)) }
{
    let mut command = Command::new(alloc, plan.host)?;
    push_host_words(&mut command, plan, verb)?;
    Ok(with_pipes(command))
}

fn push_target_words(command: &mut Command, plan: &LabPlan<'_>) -> Result<(), AllocError>
    ensures program { OnOk result (command_program command.new ≡ command_program command.old) }
    ensures words { OnOk result (command_args command.new ≡ command_args command.old ++ target_words plan.now) }
{
    push_pair(command, "run", "/dev/null")?;
    push_option(command, "--control", u64::from(plan.control))?;
    push_option(command, "--turns", plan.turns)
}

fn push_host_words(command: &mut Command, plan: &LabPlan<'_>, verb: &str) -> Result<(), AllocError>
    ensures program { OnOk result (command_program command.new ≡ command_program command.old) }
    ensures words { OnOk result (command_args command.new ≡ command_args command.old ++ host_words verb.now plan.now) }
{
    push_way(command, plan, verb)?;
    push_pair(command, SUBSYSTEM, HOST)?;
    push_pair(command, "1", "0")
}

// The verb, and where the target is.
fn push_way(command: &mut Command, plan: &LabPlan<'_>, verb: &str) -> Result<(), AllocError>
    ensures program { OnOk result (command_program command.new ≡ command_program command.old) }
    ensures words { OnOk result (command_args command.new ≡ command_args command.old
        ++ verb.now ∷ codes "--turns" ∷ decimal plan.now.turns ∷ codes "127.0.0.1" ∷ decimal plan.now.port ∷ []) }
{
    push_word(command, verb)?;
    push_option(command, "--turns", plan.turns)?;
    push_option(command, "127.0.0.1", u64::from(plan.port))
}

fn push_writer_words(command: &mut Command) -> Result<(), AllocError>
    ensures program { OnOk result (command_program command.new ≡ command_program command.old) }
    ensures words { OnOk result (command_args command.new ≡ command_args command.old
        ++ codes "16" ∷ codes "5" ∷ codes "--hold" ∷ []) }
{
    push_pair(command, "16", "5")?;
    push_word(command, "--hold")
}

fn push_pair(command: &mut Command, first: &str, second: &str) -> Result<(), AllocError>
    ensures program { OnOk result (command_program command.new ≡ command_program command.old) }
    ensures words { OnOk result (command_args command.new ≡ command_args command.old ++ first.now ∷ second.now ∷ []) }
{
    push_word(command, first)?;
    push_word(command, second)
}

fn push_option(command: &mut Command, word: &str, number: u64) -> Result<(), AllocError>
    ensures program { OnOk result (command_program command.new ≡ command_program command.old) }
    ensures words { OnOk result (command_args command.new ≡ command_args command.old ++ word.now ∷ decimal number ∷ []) }
{
    push_word(command, word)?;
    push_number(command, number)
}

fn push_word(command: &mut Command, word: &str) -> Result<(), AllocError>
    ensures program { OnOk result (command_program command.new ≡ command_program command.old) }
    ensures words { OnOk result (command_args command.new ≡ command_args command.old ++ word.now ∷ []) }
{
    command.arg(word)?;
    Ok(())
}

fn push_number(command: &mut Command, number: u64) -> Result<(), AllocError>
    ensures program { OnOk result (command_program command.new ≡ command_program command.old) }
    ensures words { OnOk result (command_args command.new ≡ command_args command.old ++ decimal number ∷ []) }
{
    let mut digits = Buffer::new();
    push_word(command, digits.format(number))
}

// What it prints is read here.
fn with_pipes(mut command: Command) -> Command
    ensures program { command_program result ≡ command_program command }
    ensures words { command_args result ≡ command_args command }
{
    command.stdout(Stdio::piped());
    command.stderr(Stdio::piped());
    command
}
