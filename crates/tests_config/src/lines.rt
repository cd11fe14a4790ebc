//! The line of an edit, written and read back. No line is that of two edits, so an edit that is written as a line is the
//! one that the line says.
use super::drawn::drawn;
use bytes::BytesMut;
use config_text::{
    COMMANDS, EditCommand, Full, LineFault, LineFaultKind, lines_are_read_back, read_edit,
    write_edit,
};
use nvt_config::Edit;
use rand_pcg::Pcg32;
use std::alloc::{AllocError, Global};
use testkit_tables::{Outcome, Placed, check, check_bytes, pass};

// Of each command.
const EDITS: usize = 100;

const SEED: u64 = 0x6c69_6e65;

const LINE_MAX: usize = 1_024;

// What stands in a buffer before a line is written behind it.
const BEFORE: &[u8] = b"before\n";

// What is read of the line is written as the line; where it is none, memory is not why.
fn check_read_back(alloc: Global, line: &[u8], is_one: bool) -> Outcome {
    match read_edit(alloc, line) {
        Ok(read) => check_written(alloc, &read, line),
        Err(fault) => {
            let is_refused = !is_one && fault.kind != LineFaultKind::Memory;
            check(is_refused, "an edit that is read back")
        }
    }
}

// A buffer with some bytes in it, and with this much spare room.
fn buffer(alloc: Global, room: usize) -> Result<BytesMut, AllocError> {
    let mut out = BytesMut::with_capacity(alloc, room.saturating_add(BEFORE.len()))?;
    out.extend_from_slice(BEFORE)?;
    Ok(out)
}

// The edit's line is this one, where there is room for it alone.
fn check_written(alloc: Global, edit: &Edit, line: &[u8]) -> Outcome {
    let mut out = buffer(alloc, line.len())?;
    pass!(check(write_edit(edit, &mut out) == Ok(()), "room for its line"));
    match out.as_slice().strip_prefix(BEFORE) {
        Some(behind) => check_bytes(behind, line)?,
        None => return check(false, "what stood before the line"),
    }
    check(out.capacity() == out.len(), "no more room taken")
}

// The edit is not written where its line is a byte longer than there is room.
fn check_refused(alloc: Global, edit: &Edit, len: usize) -> Outcome {
    let mut out = buffer(alloc, len.saturating_sub(1))?;
    let room = out.capacity().saturating_sub(out.len());
    let written = write_edit(edit, &mut out);
    let is_refused = (written, room) == (Err(Full), len.saturating_sub(1));
    check(is_refused, "no room for its line").and(check_bytes(out.as_slice(), BEFORE))
}

// A space behind the line is a fault.
fn check_longer_refused(alloc: Global, line: &mut BytesMut) -> Outcome {
    line.extend_from_slice(b" ")?;
    let (column, kind) = if line.len() <= LINE_MAX {
        (line.len(), LineFaultKind::Empty)
    } else {
        (0, LineFaultKind::TooLong)
    };
    let is_refused = read_edit(alloc, line.as_slice()).err() == Some(LineFault { column, kind });
    check(is_refused, "the fault of a space behind its line")
}

// All that is to hold of a line holds of the edit's.
fn check_sound(alloc: Global, edit: &Edit, line: &mut BytesMut) -> Outcome {
    pass!(check(write_edit(edit, line) == Ok(()), "room for its line"));
    pass!(check(line.len() <= LINE_MAX, "a line of at most 1,024 bytes"));
    pass!(check_read_back(alloc, line.as_slice(), true));
    pass!(check_refused(alloc, edit, line.len()));
    let front = line
        .as_slice()
        .get(..line.len().saturating_sub(1))
        .unwrap_or(&[]);
    pass!(check_read_back(alloc, front, false));
    check_longer_refused(alloc, line)
}

fn check_edit(alloc: Global, edit: &Edit) -> Outcome {
    let mut line = BytesMut::with_capacity(alloc, LINE_MAX)?;
    check_sound(alloc, edit, &mut line)
}

fn check_drawn(alloc: Global, random: &mut Pcg32, command: EditCommand) -> Outcome {
    match drawn(alloc, random, command) {
        Ok(edit) => check_edit(alloc, &edit),
        Err(_) => check(false, "memory"),
    }
}

fn check_command(alloc: Global, number: u64, command: EditCommand) -> Outcome {
    let mut random = Pcg32::new(SEED, number);
    for step in 0..EDITS {
        pass!(check_drawn(alloc, &mut random, command).at_step(step));
    }
    Ok(())
}

// There is a script for each command.
#[test]
fn a_line_is_read_back(rt: HostRuntime) -> Outcome {
    lines_are_read_back();
    for (number, command) in COMMANDS.iter().enumerate() {
        let number = number as u64;
        pass!(check_command(rt.alloc(), number, *command).in_script(SEED, number));
    }
    Ok(())
}
