//! `replay`, over two ports and a connection that is initialized.
ghost use Rattle.std.specs.Prelude.{◌≤◌, length};

use nvt_replay::{ReplayFault, replay};
use std::alloc::Global;
use std::io::{self, ErrorKind, Write};
use std::test::Fail;
use testkit_edits::growths::{UNITS, tell};
use testkit_tables::{Outcome, check};

const EDITS: &[u8] = b"port add 1 ipv4 127.0.0.1 4420\nport add 2 ipv6 ::1 4420\n";

// An ICReq comes in two pieces.
const STREAM: &[u8] = b"open 1\nopen 2\nrx 1 00008000800000000000000300000000\nrx 1 \
0000000000000000000000000000000000000000000000000000000000000000\
0000000000000000000000000000000000000000000000000000000000000000\
0000000000000000000000000000000000000000000000000000000000000000\
00000000000000000000000000000000\nend 0\nrx 0 00\n";

const PRINTED: &[u8] = b"0 open\n1 open\n1 pdu 01008000800000000000000000400000\
0000000000000000000000000000000000000000000000000000000000000000\
0000000000000000000000000000000000000000000000000000000000000000\
0000000000000000000000000000000000000000000000000000000000000000\
00000000000000000000000000000000\n0 none\n";

// A writer that takes no memory.
#[derive(Drop)]
struct Fixed {
    bytes: [u8; 400],
    len: usize,
}

impl Fixed {
    // Writes as much as there is room for, and returns its length.
    fn put(&mut self, buf: &[u8]) -> usize
        ensures { result ≤ length buf.now }
    {
        let Some(room) = self.bytes.get_mut(self.len..) else {
            return 0;
        };
        let len = room.len().min(buf.len());
        room[..len].copy_from_slice(&buf[..len]);
        self.len = self.len.saturating_add(len);
        len
    }
}

impl Write for Fixed {
    fn write(&mut self, buf: &[u8]) -> io::Result<usize> {
        let len = self.put(buf);
        if len == 0 && !buf.is_empty() {
            return Err(io::Error::from(ErrorKind::StorageFull));
        }
        Ok(len)
    }

    fn flush(&mut self) -> io::Result<()> {
        Ok(())
    }
}

// Replays the script; whether it printed whole lines of what it has to, and all of them.
fn replayed(alloc: Global) -> (Result<(), ReplayFault>, bool, bool) {
    let mut out = Fixed {
        bytes: [0; 400],
        len: 0,
    };
    let outcome = replay(alloc, EDITS, STREAM, UNITS, &mut out);
    let printed = out.bytes.get(..out.len).unwrap_or(&[]);
    let is_whole = printed.is_empty() || printed.ends_with(b"\n");
    (
        outcome,
        is_whole && PRINTED.starts_with(printed),
        printed == PRINTED,
    )
}

fn check_replay(alloc: Global, refused: &mut u32) -> Outcome {
    let mut replay = replayed(alloc);
    if replay.0 == Err(ReplayFault::Memory) {
        if !replay.1 {
            return check(false, "whole lines before the refusal");
        }
        *refused = refused.saturating_add(1);
        replay = replayed(alloc);
    }
    check(replay == (Ok(()), true, true), "what the replay prints")
}

#[test]
fn replays(rt: HostRuntime) -> Result<(), Fail> {
    let mut refused = 0;
    let outcome = check_replay(rt.alloc(), &mut refused);
    tell(&rt, refused, outcome)
}
