//! The command `replay`, from its files to the standard output.

use crate::{ReplayArguments, explained, read_file};
use nvt_replay::{ReplayFault, replay, written};
use std::alloc::Global;
use std::io::{self, BufWriter, Write};
use std::rt::Files;

const OUTPUT_BUFFER: usize = 1 << 16;

/// Runs `replay` over the files that the arguments name. What was printed before a fault stays.
pub fn run<R: Files + Print + AllocGlobal>(
    rt: &R,
    arguments: &ReplayArguments,
) -> Result<(), ReplayFault> {
    let alloc = rt.alloc();
    let edits = read_file(rt, alloc, arguments.edits.as_str())?;
    let stream = read_file(rt, alloc, arguments.stream.as_str());
    match BufWriter::with_capacity(alloc, OUTPUT_BUFFER, io::writer(rt)) {
        Ok(mut out) => replay_flushed(alloc, arguments, &edits, stream, &mut out),
        Err(_) => Err(ReplayFault::Memory),
    }
}

// Replays the script, and flushes what was printed, also after a fault.
fn replay_flushed<W: Write>(
    alloc: Global,
    arguments: &ReplayArguments,
    edits: &[u8],
    stream: Result<Vec<u8>, ReplayFault>,
    out: &mut W,
) -> Result<(), ReplayFault> {
    let result = replay_script(alloc, arguments, edits, stream, out);
    written(out.flush())?;
    result
}

// Replays the script, where it was read.
fn replay_script<W: Write>(
    alloc: Global,
    arguments: &ReplayArguments,
    edits: &[u8],
    stream: Result<Vec<u8>, ReplayFault>,
    out: &mut W,
) -> Result<(), ReplayFault> {
    let units = arguments.disks.as_slice();
    match stream {
        Ok(stream) if arguments.explain => explained::replay(alloc, edits, &stream, units, out),
        Ok(stream) => replay(alloc, edits, &stream, units, out),
        // A fault of the edits comes before the script's.
        Err(fault) => match replay(alloc, edits, &[], units, out) {
            Ok(()) => Err(fault),
            Err(first) => Err(first),
        },
    }
}
