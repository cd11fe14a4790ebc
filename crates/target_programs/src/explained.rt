//! A replay with words for each PDU, of the target and of its hosts.

ghost use Rattle.std.specs.Prelude.{◌≡◌, ◌≢◌, ◌⊎◌, ◌||◌, All, IfErr, OnOk, true};
ghost use Rattle.std.specs.IoError.{error_kind};
ghost use Rattle.std.specs.declared.io.ErrorKind.TheVariants.{OutOfMemory};
ghost use Rattle.config_text.specs.Lines.{lines_of};
ghost use Rattle.nvt_replay.specs.Replay.{EndsAtLine, EndsScript};
ghost use Rattle.edit_lines.specs.Fault.{EndsRun};
ghost use Rattle.edit_lines.specs.StreamLine.{IsStreamLine};
ghost use Rattle.target_programs.specs.Explained.{FailsSo};
ghost use Rattle.replay_words.specs.Explained.{WasHeard};

use nvt_replay::{Lines, Playback, ReplayFault};
use replay_words::Explained;
use std::alloc::Global;
use std::io::{self, ErrorKind, Write};

/// Does what `nvt_replay::replay` does, and prints behind each PDU what it is. Before what a line of
/// the script makes the target print, it prints a line for each PDU of a host that it completes.
pub(crate) fn replay<W: Write>(
    alloc: Global,
    edits: &[u8],
    stream: &[u8],
    units: &[u64],
    out: &mut W,
) -> Result<(), ReplayFault>
    ensures ok { OnOk result (All IsStreamLine (lines_of stream.now)) }
    ensures fault { IfErr result (λ fault. FailsSo fault edits.now stream.now units.now) }
{
    match Playback::new(alloc, edits, units) {
        Ok(mut playback) => {
            let mut has_failed = false;
            explain(alloc, &mut playback, stream, out, &mut has_failed)
        }
        Err(fault) => Err(fault),
    }
}

fn explain<W: Write>(
    alloc: Global,
    playback: &mut Playback,
    stream: &[u8],
    out: &mut W,
    has_failed: &mut bool,
) -> Result<(), ReplayFault>
    ensures ok { OnOk result (All IsStreamLine (lines_of stream.now)) }
    ensures fault { IfErr result (λ fault.
        EndsScript (playback.new.printer.writes.has_failed || has_failed.new) fault
        (lines_of stream.now)) }
{
    let mut explained = Explained::new(alloc, out)?;
    play(playback, stream, &mut explained, has_failed)
}

// Runs the script, up to the first line that has none of its forms.
fn play<W: Write>(
    playback: &mut Playback,
    stream: &[u8],
    out: &mut Explained<'_, W>,
    has_failed: &mut bool,
) -> Result<(), ReplayFault>
    ensures ok { OnOk result (All IsStreamLine (lines_of stream.now)) }
    ensures fault { IfErr result (λ fault.
        EndsScript (playback.new.printer.writes.has_failed || has_failed.new) fault
        (lines_of stream.now)) }
{
    let mut number = 0;
    for line in Lines::of(stream) {
        number += 1;
        play_line(playback, number, line, out, has_failed)?;
    }
    Ok(())
}

// The words rest on what the host sent before, so a line is heard before it is run.
fn play_line<W: Write>(
    playback: &mut Playback,
    number: usize,
    line: &[u8],
    out: &mut Explained<'_, W>,
    has_failed: &mut bool,
) -> Result<(), ReplayFault>
    ensures ok { OnOk result (IsStreamLine line.now) }
    ensures fault { IfErr result (λ fault.
        EndsAtLine (playback.new.printer.writes.has_failed || has_failed.new) fault
        line.now number) }
{
    match out.hears_line(line) {
        Ok(()) => run_heard(playback, number, line, out),
        Err(error) => Err(unheard(error, has_failed)),
    }
}

// Why a line was not heard. Notes a write that failed, other than since memory ran out.
fn unheard(error: io::Error, has_failed: &mut bool) -> ReplayFault
    ensures fault { EndsRun has_failed.new result }
    ensures noted { has_failed.new ≡ true →
        (has_failed.old ≡ true) ⊎ (error_kind error ≢ OutOfMemory) }
{
    if error.kind() == ErrorKind::OutOfMemory {
        return ReplayFault::Memory;
    }
    *has_failed = true;
    ReplayFault::Io
}

// Runs a line that was heard the last.
fn run_heard<W: Write>(
    playback: &mut Playback,
    number: usize,
    line: &[u8],
    out: &mut Explained<'_, W>,
) -> Result<(), ReplayFault>
    requires { WasHeard line.now out.old.notes }
    ensures ok { OnOk result (IsStreamLine line.now) }
    ensures fault { IfErr result (λ fault.
        EndsAtLine playback.new.printer.writes.has_failed fault line.now number) }
{
    playback.line(number, line, out)
}
