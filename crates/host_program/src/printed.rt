//! Lines that are printed, each made whole and then written.
ghost use Rattle.std.specs.Prelude.{◌≡◌, [], IfErr, OnErr, OnOk, is_ok};
ghost use Rattle.std.specs.Io.KnownBytes.{Appends};
ghost use Rattle.host_program.specs.Printed.{AppendsFront, IsOfWriting, Prints};

use host_link::SessionFault;
use std::io::{self, ErrorKind, Write};

/// What a write answers, as the fault of a command: no memory, or any other.
pub(crate) fn written(outcome: io::Result<()>) -> Result<(), SessionFault>
    ensures fault { IfErr result IsOfWriting }
    ensures variant { is_ok result ≡ is_ok outcome }
{
    match outcome {
        Ok(()) => Ok(()),
        Err(error) if error.kind() == ErrorKind::OutOfMemory => Err(SessionFault::Memory),
        Err(_) => Err(SessionFault::Io),
    }
}

/// What the making of a line answers: a text is made in memory, so that memory is all that it wants.
pub(crate) fn made(outcome: io::Result<()>) -> Result<(), SessionFault>
    ensures fault { IfErr result (λ fault. fault ≡ SessionFault.Memory) }
    ensures variant { is_ok result ≡ is_ok outcome }
{
    match outcome {
        Ok(made) => Ok(made),
        Err(_) => Err(SessionFault::Memory),
    }
}

/// Writes a line that was made, and leaves it empty.
pub(crate) fn print<W: Write>(out: &mut W, line: &mut Vec<u8>) -> Result<(), SessionFault>
    ensures prints { Prints line.old.items result (W.contents out.old) (W.contents out.new) }
    ensures line { line.new.items ≡ [] }
{
    let outcome = print_text(out, line);
    line.clear();
    outcome
}

/// Writes a text. After a fault a beginning of it is written.
pub(crate) fn print_text<W: Write>(out: &mut W, text: &[u8]) -> Result<(), SessionFault>
    ensures { Prints text.now result (W.contents out.old) (W.contents out.new) }
{
    let outcome = write_whole(out, text);
    written(outcome)
}

// The loop of `write_all`, which does not say what an error leaves.
fn write_whole<W: Write>(out: &mut W, text: &[u8]) -> io::Result<()>
    ensures printed { OnOk result (Appends (W.contents out.old) (W.contents out.new) text.now) }
    ensures begun { OnErr result (AppendsFront (W.contents out.old) (W.contents out.new) text.now) }
{
    let mut rest = text;
    for _ in 0..u64::MAX {
        if rest.is_empty() {
            return Ok(());
        }
        match out.write(rest) {
            Ok(0) => return Err(io::Error::from(ErrorKind::WriteZero)),
            Ok(taken) => rest = &rest[taken..],
            Err(error) if error.kind() == ErrorKind::Interrupted => {}
            Err(error) => return Err(error),
        }
    }
    Err(io::Error::from(ErrorKind::WriteZero))
}
