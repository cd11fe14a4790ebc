//! Processes that were started: what they print, and their end.
ghost use Rattle.std.specs.Prelude.{◌≡◌, IfOk, IsErr, IsSome, Ok, OnErr, OnOk};
ghost use Rattle.std.specs.Process.{child_status};
ghost use Rattle.host_parts.specs.Watched.{HasSucceeded};

use crate::course::LabFault;
use crate::lines::{echo, echo_rest, next_line};
use std::io::{self, Eprint, Write};
use std::process::{Child, OpenProcess};

/// A process, where it could be started.
pub fn started<P: OpenProcess + Drop>(child: io::Result<Child<P>>) -> Result<Child<P>, LabFault>
    ensures ok { IfOk result (λ it. child ≡ Ok it) }
    ensures err { OnErr result (IsErr child) }
{
    match child {
        Ok(child) => Ok(child),
        Err(_) => Err(LabFault),
    }
}

/// Kills a process and waits for it, and echoes what it printed and was not echoed.
pub fn end<R: Eprint + AllocGlobal, P: OpenProcess + Drop>(
    rt: &R,
    name: &str,
    child: &mut Child<P>,
) -> Result<(), LabFault>
    ensures { OnOk result (IsSome (child_status child.new)) }
{
    // One that was waited for is not killed: it is gone.
    let killed = child.kill();
    let waited = child.wait();
    let echoed = echo_child(rt, name, child);
    if killed.is_ok() && waited.is_ok() && echoed.is_ok() {
        Ok(())
    } else {
        Err(LabFault)
    }
}

fn echo_child<R: Eprint + AllocGlobal, P: OpenProcess + Drop>(
    rt: &R,
    name: &str,
    child: &mut Child<P>,
) -> Result<(), LabFault>
    ensures { child_status child.new ≡ child_status child.old }
{
    if let Some(stdout) = &mut child.stdout {
        echo_rest(rt, name, stdout)?;
    }
    if let Some(stderr) = &mut child.stderr {
        echo_rest(rt, name, stderr)?;
    }
    Ok(())
}

/// Waits for a line of a process.
pub fn line_of<R: Eprint + AllocGlobal, P: OpenProcess + Drop>(
    rt: &R,
    name: &str,
    child: &mut Child<P>,
) -> Result<Vec<u8>, LabFault> {
    let Some(stdout) = &mut child.stdout else {
        return Err(LabFault);
    };
    match next_line(rt.alloc(), stdout) {
        Ok(Some(line)) => {
            echo(rt, name, &line)?;
            Ok(line)
        }
        Ok(None) | Err(_) => Err(LabFault),
    }
}

/// Waits for a line of a process, which is to be this one.
pub fn expect_line<R: Eprint + AllocGlobal, P: OpenProcess + Drop>(
    rt: &R,
    name: &str,
    child: &mut Child<P>,
    wanted: &[u8],
) -> Result<(), LabFault> {
    let line = line_of(rt, name, child)?;
    if line.as_slice() == wanted {
        Ok(())
    } else {
        Err(LabFault)
    }
}

/// Sends a process a line.
pub fn give_line<P: OpenProcess + Drop>(child: &mut Child<P>) -> Result<(), LabFault> {
    let Some(stdin) = &mut child.stdin else {
        return Err(LabFault);
    };
    match stdin.write_all(b"\n") {
        Ok(()) => Ok(()),
        Err(_) => Err(LabFault),
    }
}

/// Waits for the end of a process, which is to be of status 0.
pub fn await_success<P: OpenProcess + Drop>(child: &mut Child<P>) -> Result<(), LabFault>
    ensures { OnOk result (HasSucceeded child.new) }
{
    match child.wait() {
        Ok(status) if status.success() => Ok(()),
        _ => Err(LabFault),
    }
}
