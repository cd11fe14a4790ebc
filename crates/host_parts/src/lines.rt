//! Lines that processes print.
ghost use Rattle.std.specs.Prelude.{◌∷◌, [], IfOk, MatchOption};
ghost use Rattle.std.specs.Io.KnownBytes.{Consumes};
ghost use Rattle.host_parts.specs.Lines.{TakesLine, TakesNone};

use crate::course::LabFault;
use std::alloc::Global;
use std::io::{self, Eprint, Read};

/// The most bytes of a line, of which a longer one makes several, and the most lines that are echoed of what a process left.
const LINE_MAX: usize = 4096;

const LINES_MAX: usize = 65_536;

/// The next line of a stream, without its end, which is taken too; the last one may have none. None at the end of the
/// stream.
pub fn next_line<S: Read>(alloc: Global, stream: &mut S) -> io::Result<Option<Vec<u8>>>
    ensures { IfOk result (λ found. MatchOption found
        (TakesNone (S.remaining stream.old) (S.remaining stream.new))
        (λ line. TakesLine line.items (S.remaining stream.old) (S.remaining stream.new))) }
{
    let mut line = Vec::new(alloc);
    for _ in 0..LINE_MAX {
        match next_byte(stream)? {
            None => return Ok(if line.is_empty() { None } else { Some(line) }),
            Some(b'\n') => return Ok(Some(line)),
            Some(byte) => line.push(byte)?,
        }
    }
    Ok(Some(line))
}

fn next_byte<S: Read>(stream: &mut S) -> io::Result<Option<u8>>
    ensures { IfOk result (λ found. MatchOption found
        (TakesNone (S.remaining stream.old) (S.remaining stream.new))
        (λ byte. Consumes (S.remaining stream.old) (S.remaining stream.new) (byte ∷ []))) }
{
    let mut byte = [0];
    Ok(if stream.read(&mut byte)? == 0 {
        None
    } else {
        Some(byte[0])
    })
}

/// Prints a line after the name of its process, where anything can be printed; a fault where memory is wanted for it.
pub fn echo<R: Eprint + AllocGlobal>(rt: &R, name: &str, line: &[u8]) -> Result<(), LabFault> {
    match text_of(rt.alloc(), line) {
        Ok(text) => {
            let _ = eprintln!(rt; "{name}: {text}");
            Ok(())
        }
        Err(_) => Err(LabFault),
    }
}

// Bytes that no text has are shown as `?`.
fn text_of(alloc: Global, line: &[u8]) -> io::Result<String> {
    let mut text = String::new(alloc);
    for byte in line {
        let is_shown = byte.is_ascii_graphic() || *byte == b' ';
        text.push(if is_shown { char::from(*byte) } else { '?' })?;
    }
    Ok(text)
}

/// Prints the lines that are left of a stream.
pub fn echo_rest<R: Eprint + AllocGlobal, S: Read>(
    rt: &R,
    name: &str,
    stream: &mut S,
) -> Result<(), LabFault> {
    for _ in 0..LINES_MAX {
        match next_line(rt.alloc(), stream) {
            Ok(Some(line)) => echo(rt, name, &line)?,
            Ok(None) => break,
            Err(_) => return Err(LabFault),
        }
    }
    Ok(())
}
