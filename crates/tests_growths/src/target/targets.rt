//! The target: each kind of edit, with two connections open.
use super::pdus::ic_req;
use super::{conversation, transfers};
use block_store::MemoryDisk;
use nvt_config::{Config, Edit, EditFault, NewFault};
use std::alloc::{AllocError, Global};
use std::test::Fail;
use target_core::{OpenFault, StepFault, Stepped, Target};
use testkit_edits::growths::{EDITS, UNITS, edit_of, tell, used};
use testkit_edits::{Line, again, is_same, memory_disks};
use testkit_tables::{Outcome, Placed, check, pass};

// What is seen of the connections: of each its room, whether it is ended, and how much output waits.
fn seen(target: &Target<MemoryDisk>) -> [(usize, bool, usize); 3] {
    let mut seen = [(0, false, 0); 3];
    for (k, connection) in seen.iter_mut().enumerate() {
        *connection = (target.room(k), target.ended(k), target.output(k).len());
    }
    seen
}

/// Makes the edit of a line; whether it is accepted, and all is as before where it wants memory.
pub fn is_edited(
    alloc: Global,
    target: &mut Target<MemoryDisk>,
    line: Line<'_>,
    refused: &mut u32,
) -> Result<bool, AllocError> {
    let Some(edit) = edit_of(alloc, line)? else {
        return Ok(false);
    };
    is_made(target, &edit, refused)
}

fn is_made(
    target: &mut Target<MemoryDisk>,
    edit: &Edit,
    refused: &mut u32,
) -> Result<bool, AllocError> {
    let before = target.config().try_clone()?;
    Ok(makes(target, &before, edit, refused))
}

fn makes(target: &mut Target<MemoryDisk>, before: &Config, edit: &Edit, refused: &mut u32) -> bool {
    let (connections, formed) = (seen(target), target.formed());
    let mut made = target.edit(edit);
    if made == Err(EditFault::Memory) {
        *refused = refused.saturating_add(1);
        let is_as_before = seen(target) == connections && target.formed() == formed;
        if !is_same(target.config(), before) || !is_as_before {
            return false;
        }
        made = target.edit(edit);
    }
    made == Ok(())
}

// Opens a connection, which gets this number; where that wants memory, all is as before.
pub fn is_opened(target: &mut Target<MemoryDisk>, port: u16, k: usize, refused: &mut u32) -> bool {
    let connections = seen(target);
    let mut opened = target.open(port);
    if opened == Err(OpenFault::Memory) {
        *refused = refused.saturating_add(1);
        if seen(target) != connections {
            return false;
        }
        opened = target.open(port);
    }
    opened == Ok(k)
}

// Brings an ICReq.
fn is_initialized(target: &mut Target<MemoryDisk>, k: usize, refused: &mut u32) -> bool {
    let received = target.receive(k, &ic_req());
    let mut stepped = target.step(k);
    if stepped == Err(StepFault::Memory) {
        *refused = refused.saturating_add(1);
        stepped = target.step(k);
    }
    received == Ok(128) && stepped == Ok(Stepped::One)
}

// Opens connections on both ports.
fn open_both(target: &mut Target<MemoryDisk>, refused: &mut u32) -> Outcome {
    for (k, port) in [(0usize, 1u16), (1, 2)] {
        let is_open = is_opened(target, port, k, refused) && is_initialized(target, k, refused);
        pass!(check(is_open, "this connection").in_row(k));
    }
    Ok(())
}

fn make_edits(
    alloc: Global,
    target: &mut Target<MemoryDisk>,
    lines: &[Line<'_>],
    refused: &mut u32,
) -> Outcome {
    for (row, line) in lines.iter().enumerate() {
        let answer = again!(
            *refused,
            AllocError,
            is_edited(alloc, target, *line, refused)
        );
        pass!(check(answer == Ok(true), "this edit").in_row(row));
    }
    Ok(())
}

// Takes the output of both connections, and gives both up.
fn are_ended(target: &mut Target<MemoryDisk>) -> bool {
    for k in 0..2usize {
        let len = target.output(k).len();
        target.taken(k, len);
        if !target.output(k).is_empty() {
            return false;
        }
        target.end(k);
    }
    seen(target) == [(0, false, 0); 3]
}

// How many of the edits are made before connections are opened on both ports.
const BEFORE: usize = 4;

fn are_both_served(target: &mut Target<MemoryDisk>) -> bool {
    // The second connection ended with its port, and keeps its output.
    seen(target) == [(32_768, false, 128), (0, true, 128), (0, false, 0)] && are_ended(target)
}

// The edits are those before the connections open, and those after it: steps 0 and 1.
fn serve_both(alloc: Global, target: &mut Target<MemoryDisk>, refused: &mut u32) -> Outcome {
    let (first, others) = EDITS.split_at(EDITS.len().min(BEFORE));
    pass!(make_edits(alloc, target, first, refused).at_step(0));
    pass!(open_both(target, refused));
    pass!(make_edits(alloc, target, others, refused).at_step(1));
    check(are_both_served(target), "both connections at the end")
}

/// What a test does with a target.
#[derive(Clone, Copy)]
pub enum Script {
    Edits,
    Conversation,
    Transfer,
}

fn new_target(alloc: Global) -> Result<Target<MemoryDisk>, NewFault> {
    match memory_disks(alloc, UNITS) {
        Ok(disks) => Target::new(alloc, disks),
        Err(AllocError) => Err(NewFault::Memory),
    }
}

fn use_target(
    alloc: Global,
    target: &mut Target<MemoryDisk>,
    script: Script,
    refused: &mut u32,
) -> Outcome {
    match script {
        Script::Edits => serve_both(alloc, target, refused),
        Script::Conversation => conversation::serve_one(alloc, target, refused),
        Script::Transfer => transfers::take_some(alloc, target, refused),
    }
}

/// Makes a target, and uses it.
pub fn use_new(alloc: Global, script: Script, refused: &mut u32) -> Result<Outcome, NewFault> {
    let mut target = new_target(alloc)?;
    Ok(use_target(alloc, &mut target, script, refused))
}

// A test that makes no growth of its own: what stands beside each test's growths is counted with it.
#[test]
fn nothing_grows(rt: HostRuntime) -> Result<(), Fail> {
    tell(&rt, 0, Ok(()))
}

#[test]
fn targets(rt: HostRuntime) -> Result<(), Fail> {
    let mut refused = 0u32;
    let answer = again!(
        refused,
        NewFault::Memory,
        use_new(rt.alloc(), Script::Edits, &mut refused)
    );
    tell(&rt, refused, used(answer))
}
