//! Writes to the output of a replay, and whether one of them has failed.

ghost use Rattle.std.specs.Prelude.{◌≡◌, ◌⊎◌, ◌<◌, ◌≤◌, IfErr, IfOk, OnErr, false, length, take, true};
ghost use Rattle.std.specs.Io.KnownBytes.{Appends, Keeps};
ghost use Rattle.edit_lines.specs.Fault.{EndsRun};
ghost use Rattle.edit_lines.specs.Writing.{IsFailed, Took};

use crate::fault::ReplayFault;
use std::io::{self, ErrorKind, Write};

/// Whether a write has failed, other than since memory ran out.
#[derive(Drop)]
pub struct Writes {
    has_failed: bool,
}

impl Writes {
    /// None was made yet.
    pub fn new() -> Writes
        ensures { result.has_failed ≡ false }
    {
        Writes { has_failed: false }
    }

    /// Writes at least one of these bytes, and returns how many. One that is interrupted is tried
    /// again; after a fault nothing is written.
    pub fn write_some<W: Write>(&mut self, out: &mut W, bytes: &[u8]) -> Result<usize, ReplayFault>
        ensures number { IfOk result (λ n. (0 < n) × (n ≤ length bytes.now)) }
        ensures taken { IfOk result (λ n.
            Appends (W.contents out.old) (W.contents out.new) (take n bytes.now)) }
        ensures err { OnErr result (Keeps (W.contents out.old) (W.contents out.new)) }
        ensures fault { IfErr result (EndsRun self.new.has_failed) }
    {
        'tries: for _ in 0..u64::MAX {
            let outcome = out.write(bytes);
            let taken = self.judge(outcome)?;
            if taken > 0 {
                return Ok(taken);
            }
        }
        self.has_failed = true;
        Err(ReplayFault::Io)
    }

    // How many bytes a write took, none where it is to be tried again. Notes one that failed.
    fn judge(&mut self, outcome: io::Result<usize>) -> Result<usize, ReplayFault>
        ensures ok { IfOk result (Took outcome) }
        ensures err { OnErr result (IsFailed outcome) }
        ensures fault { IfErr result (EndsRun self.new.has_failed) }
        ensures noted { self.new.has_failed ≡ true →
            (self.old.has_failed ≡ true) ⊎ IsFailed outcome }
    {
        match outcome {
            Ok(taken) if taken > 0 => Ok(taken),
            Err(error) if error.kind() == ErrorKind::Interrupted => Ok(0),
            Err(error) if error.kind() == ErrorKind::OutOfMemory => Err(ReplayFault::Memory),
            Ok(_) | Err(_) => {
                self.has_failed = true;
                Err(ReplayFault::Io)
            }
        }
    }
}
