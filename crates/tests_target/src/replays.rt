//! A replay whose output fails after some bytes.
use nvt_replay::{ReplayFault, replay};
use std::alloc::Global;
use std::io::{self, Write};
use testkit_tables::{Outcome, Placed, check, pass};

const PORT: &[u8] = b"port add 1 ipv4 127.0.0.1 4420\n";

const UNITS: &[u64] = &[2048, 2048, 2048, 2048];

// A writer that takes this many more bytes, and knows whether it was asked for one more.
#[derive(Drop)]
struct Narrow {
    left: usize,
    has_failed: bool,
}

impl Write for Narrow {
    fn write(&mut self, buf: &[u8]) -> io::Result<usize> {
        if self.left == 0 && !buf.is_empty() {
            self.has_failed = true;
            return Err(io::Error::from(io::ErrorKind::BrokenPipe));
        }
        let len = buf.len().min(self.left);
        self.left -= len;
        Ok(len)
    }

    fn flush(&mut self) -> io::Result<()> {
        Ok(())
    }
}

// What a replay comes to, and whether a write failed.
fn outcome(alloc: Global, left: usize) -> (Result<(), ReplayFault>, bool) {
    let mut out = Narrow {
        left,
        has_failed: false,
    };
    let outcome = replay(
        alloc,
        PORT,
        b"open 1\nend 0\nopen 1\nend 0\n",
        UNITS,
        &mut out,
    );
    (outcome, out.has_failed)
}

// Two lines of seven bytes are printed. The row is how many bytes the writer takes.
#[test]
fn a_write_that_fails_ends_the_replay(rt: HostRuntime) -> Outcome {
    for left in 0..16usize {
        let wanted = if left < 14 {
            (Err(ReplayFault::Io), true)
        } else {
            (Ok(()), false)
        };
        let ends = outcome(rt.alloc(), left) == wanted;
        pass!(check(ends, "how the replay ends").in_row(left));
    }
    Ok(())
}
