//! A target over a disk in memory, and a host with an admin queue and an I/O queue.
ghost use Rattle.std.specs.Prelude.{IfOk};
ghost use Rattle.host_driver.specs.Session.{AreParams};

use crate::joined_pairs::commands::{BLOCK_LEN, NSID, enable};
use crate::joined_pairs::joined::JoinedQueue;
use block_store::MemoryDisk;
use host_driver::{HostCommand, HostParams};
use nvt_config::Access;
use nvt_fields::{Nqn, NqnFault};
use std::alloc::Global;
use target_core::Target;
use testkit_edits::{A, Blocks, H1, Line, edit, memory_disks};

/// How many commands are outstanding at a time.
const DEPTH: u16 = 31;

/// More exchanges than a command needs, with an R2T between its capsule and its data.
const EXCHANGES_PER_COMMAND: u32 = 4;

const UNITS: u64 = 512;

const BLOCKS: Blocks = Blocks {
    nsid: NSID as u64,
    disk: 0,
    blocks: 64,
    block_size: BLOCK_LEN as u64,
    uuid: 0x22,
    group: 1,
};

const EDITS: &[Line<'static>] = &[
    Line::PortAdd(1, b"127.0.0.1", 4420),
    Line::SubsystemAdd(A, b"SN-A", Access::Closed),
    Line::HostAdd(H1),
    Line::AllowAdd(A, H1),
    Line::LinkAdd(1, A),
    Line::NamespaceAdd(A, BLOCKS),
];

/// Does a command so many times, on a target and a host of its own; whether each time it is answered with success.
// `drop` is written out here and below, since what is dropped at the end of a scope is proved there field by field.
pub(crate) fn does_times(alloc: Global, command: &HostCommand, times: u32) -> bool {
    let Ok(disks) = memory_disks(alloc, &[UNITS]) else {
        return false;
    };
    match Target::new(alloc, disks) {
        Ok(mut target) => {
            let does = does_on(alloc, &mut target, command, times);
            drop(target);
            does
        }
        Err(_) => false,
    }
}

fn does_on(
    alloc: Global,
    target: &mut Target<MemoryDisk>,
    command: &HostCommand,
    times: u32,
) -> bool {
    if !is_edited(alloc, target) {
        return false;
    }
    match controller(alloc, target) {
        Some(cntlid) => does_beside(alloc, target, cntlid, command, times),
        None => false,
    }
}

fn is_edited(alloc: Global, target: &mut Target<MemoryDisk>) -> bool {
    for line in EDITS {
        if !accepts(alloc, target, *line) {
            return false;
        }
    }
    true
}

fn accepts(alloc: Global, target: &mut Target<MemoryDisk>, line: Line<'static>) -> bool {
    match edit(alloc, line) {
        Ok(edit) => {
            let accepts = target.edit(&edit).is_ok();
            drop(edit);
            accepts
        }
        Err(_) => false,
    }
}

// The identifier of a controller that is ready. Its admin queue sends nothing more.
fn controller(alloc: Global, target: &mut Target<MemoryDisk>) -> Option<u16> {
    match queue(alloc, target, 0, 0xFFFF) {
        Some(mut admin) => {
            let cntlid = enabled(alloc, target, &mut admin);
            drop(admin);
            cntlid
        }
        None => None,
    }
}

fn enabled(alloc: Global, target: &mut Target<MemoryDisk>, admin: &mut JoinedQueue) -> Option<u16> {
    let cntlid = admin.connected(target)?;
    if admin.does(target, &enable(alloc)) {
        Some(cntlid)
    } else {
        None
    }
}

// Does the command on an I/O queue of this controller.
fn does_beside(
    alloc: Global,
    target: &mut Target<MemoryDisk>,
    cntlid: u16,
    command: &HostCommand,
    times: u32,
) -> bool {
    match queue(alloc, target, 1, cntlid) {
        Some(mut io) => {
            let does = io.connected(target).is_some()
                && keeps_full(&mut io, target, command, times);
            drop(io);
            does
        }
        None => false,
    }
}

// A queue over a new connection to port 1.
fn queue(
    alloc: Global,
    target: &mut Target<MemoryDisk>,
    qid: u16,
    cntlid: u16,
) -> Option<JoinedQueue> {
    match target.open(1) {
        Ok(k) => queue_over(alloc, qid, cntlid, k),
        Err(_) => None,
    }
}

fn queue_over(alloc: Global, qid: u16, cntlid: u16, k: usize) -> Option<JoinedQueue> {
    match params(alloc, qid, cntlid) {
        Ok(params) => JoinedQueue::over(alloc, params, k),
        Err(_) => None,
    }
}

fn params(alloc: Global, qid: u16, cntlid: u16) -> Result<HostParams, NqnFault>
    ensures { IfOk result (λ params. AreParams params) }
{
    Ok(HostParams {
        qid,
        sqsize: DEPTH,
        cntlid,
        kato: 0,
        hostid: [1; 16],
        subnqn: Nqn::read(alloc, A)?,
        hostnqn: Nqn::read(alloc, H1)?,
        in_capsule: 8192,
    })
}

// Keeps as many commands outstanding as the queue takes, until so many are answered.
fn keeps_full(
    io: &mut JoinedQueue,
    target: &mut Target<MemoryDisk>,
    command: &HostCommand,
    times: u32,
) -> bool {
    let (mut begun, mut done) = (0u32, 0u32);
    for _ in 0..times.saturating_mul(EXCHANGES_PER_COMMAND) {
        if done == times {
            break;
        }
        let room = u32::from(DEPTH).saturating_sub(begun.saturating_sub(done));
        let more = room.min(times.saturating_sub(begun));
        begun = begun.saturating_add(more);
        match answered(io, target, command, more) {
            Some(count) => done = done.saturating_add(count),
            None => return false,
        }
    }
    done == times
}

// Submits so many commands more: how many answers come then, where each is of success.
fn answered(
    io: &mut JoinedQueue,
    target: &mut Target<MemoryDisk>,
    command: &HostCommand,
    more: u32,
) -> Option<u32> {
    for _ in 0..more {
        if !io.submits(command) {
            return None;
        }
    }
    if io.exchange(target) {
        answers(io, command)
    } else {
        None
    }
}

// How many answers came, where each is of success.
fn answers(io: &mut JoinedQueue, command: &HostCommand) -> Option<u32> {
    let mut count = 0u32;
    for _ in 0..DEPTH {
        match io.answer(command) {
            Some(true) => count = count.saturating_add(1),
            Some(false) => return None,
            None => break,
        }
    }
    Some(count)
}
