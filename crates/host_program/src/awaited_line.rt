//! The line that a held Write waits for.
ghost use Rattle.std.specs.Prelude.{◌≡◌, ◌∷◌, [], IfErr, IfOk, MatchOption};
ghost use Rattle.std.specs.Io.KnownBytes.{Consumes};
ghost use Rattle.host_program.specs.AwaitedLine.{FindsEnd, PassesLine};

use host_link::SessionFault;
use std::io::{ErrorKind, Read};

/// The most bytes of the line.
const LINE_MAX: usize = 1024;

/// Reads up to the end of a line, to the end of what is read, or to 1,024 bytes.
pub(crate) fn pass_line<R: Read>(lines: &mut R) -> Result<(), SessionFault>
    ensures passes { IfOk result (λ _. PassesLine (R.remaining lines.old) (R.remaining lines.new)) }
    ensures io { IfErr result (λ fault. fault ≡ SessionFault.Io) }
{
    for _ in 0..LINE_MAX {
        let Some(byte) = next_byte(lines)? else {
            return Ok(());
        };
        if byte == b'\n' {
            return Ok(());
        }
    }
    Ok(())
}

// The next byte; none at the end of what is read.
fn next_byte<R: Read>(lines: &mut R) -> Result<Option<u8>, SessionFault>
    ensures found { IfOk result (λ found. MatchOption found
        (FindsEnd (R.remaining lines.old) (R.remaining lines.new))
        (λ byte. Consumes (R.remaining lines.old) (R.remaining lines.new) (byte ∷ []))) }
    ensures io { IfErr result (λ fault. fault ≡ SessionFault.Io) }
{
    let mut byte = [0];
    for _ in 0..u64::MAX {
        match lines.read(&mut byte) {
            Ok(0) => return Ok(None),
            Ok(_) => return Ok(Some(byte[0])),
            Err(error) if error.kind() == ErrorKind::Interrupted => {}
            Err(_) => return Err(SessionFault::Io),
        }
    }
    Err(SessionFault::Io)
}
