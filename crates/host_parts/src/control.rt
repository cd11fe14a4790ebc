//! The edits that the target is given.
ghost use Rattle.std.specs.Prelude.{◌++◌, ◌∷◌, [], OnOk};
ghost use Rattle.std.specs.Io.KnownBytes.{Appends};

use crate::course::{LabFault, LabPlan};
use crate::lines::{echo, next_line};
use std::io::{self, Eprint, Read, Write};
use std::net::{IpAddr, Ipv4Addr, Net, SocketAddr};
use std::process::{Child, OpenProcess, Processes};
use std::rt::Clock;
use std::thread;
use std::time::Duration;

/// A subsystem with a namespace, closed but to one host.
const EDITS: [&str; 5] = [
    "subsys add nqn.2026-01.test:a SN-A closed",
    "host add nqn.2026-01.test:h1",
    "allow add nqn.2026-01.test:a nqn.2026-01.test:h1",
    "link add 1 nqn.2026-01.test:a",
    "ns add nqn.2026-01.test:a 1 0 2048 512 11111111-1111-4111-8111-111111111111 1",
];

/// How long it is from one try to the next, in microseconds.
const PAUSE: u64 = 1000;

/// Has the target listen for hosts, and show one of them a disk.
pub fn configure<R: Processes + Net + Clock + Eprint + AllocGlobal>(
    rt: &R,
    plan: &LabPlan<'_>,
    target: &mut Child<R::Started>,
) -> Result<(), LabFault> {
    match connected(rt, plan, target) {
        Some(mut stream) => make_edits(rt, plan, &mut stream),
        None => Err(LabFault),
    }
}

// A connection to the control port, once the target listens.
fn connected<R: Net + Clock, P: OpenProcess + Drop>(
    rt: &R,
    plan: &LabPlan<'_>,
    target: &mut Child<P>,
) -> Option<R::Stream> {
    let address = SocketAddr::new(IpAddr::V4(Ipv4Addr::new(127, 0, 0, 1)), plan.control);
    for _ in 0..plan.turns {
        if let Ok(stream) = rt.connect(address) {
            return Some(stream);
        }
        if is_ended(target) {
            return None;
        }
        thread::sleep(rt, Duration::from_micros(PAUSE));
    }
    None
}

fn is_ended<P: OpenProcess + Drop>(target: &mut Child<P>) -> bool {
    !matches!(target.try_wait(), Ok(None))
}

fn make_edits<R: Eprint + AllocGlobal, S: Read + Write>(
    rt: &R,
    plan: &LabPlan<'_>,
    stream: &mut S,
) -> Result<(), LabFault> {
    let port = plan.port;
    let listen = match format!(in rt.alloc(); "port add 1 ipv4 127.0.0.1 {port}") {
        Ok(listen) => listen,
        Err(_) => return Err(LabFault),
    };
    make_edit(rt, stream, &listen)?;
    for edit in EDITS {
        make_edit(rt, stream, edit)?;
    }
    Ok(())
}

// Sends a line, whose answer is to be `ok`.
fn make_edit<R: Eprint + AllocGlobal, S: Read + Write>(
    rt: &R,
    stream: &mut S,
    edit: &str,
) -> Result<(), LabFault> {
    if send_line(rt, stream, edit).is_err() {
        return Err(LabFault);
    }
    match next_line(rt.alloc(), stream) {
        Ok(Some(answer)) => {
            echo(rt, "control", &answer)?;
            if answer.as_slice() == b"ok".as_slice() {
                Ok(())
            } else {
                Err(LabFault)
            }
        }
        Ok(None) | Err(_) => Err(LabFault),
    }
}

// In one piece, since the end of a line that is sent on its own waits until what came before it is confirmed.
fn send_line<R: AllocGlobal, S: Write>(rt: &R, stream: &mut S, line: &str) -> io::Result<()>
    ensures { OnOk result (Appends (S.contents stream.old) (S.contents stream.new) (line.now ++ 10 ∷ [])) }
{
    let line = format!(in rt.alloc(); "{line}\n")?;
    stream.write_all(line.as_bytes())
}
