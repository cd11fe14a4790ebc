//! Output that is not taken waits, on each of 64 connections, and no memory for more of it is refused.
use nvt_config::Access;
use std::alloc::{AllocError, Global};
use testkit_edits::{A, Blocks, H1, Line, capsule, ic_req};
use testkit_tables::{Outcome, Placed, check, pass};
use testkit_targets::MemoryTarget;
use testkit_targets::queues::{Command, Opcode, connect_to, enable, put};

// So many Identify commands of an admin queue, and Reads of 32 KiB of an I/O queue, are sent more than
// 256 KiB.
const IDENTIFIES: u8 = 66;

const READS: u8 = 9;

// The ICResp, the responses to the Connect and the Property Set, and what the commands are sent.
const ADMIN_OUTPUT: usize = 128 + 24 + 24 + 66 * (24 + 4096 + 24);

const IO_OUTPUT: usize = 128 + 24 + 9 * (24 + 32_768 + 24);

const SERVED: &[Line<'static>] = &[
    Line::PortAdd(1, b"127.0.0.1", 4420),
    Line::SubsystemAdd(A, b"SN", Access::Open),
    Line::LinkAdd(1, A),
    Line::NamespaceAdd(A, UNITS),
];

const UNITS: Blocks = Blocks {
    nsid: 1,
    disk: 0,
    blocks: 2048,
    block_size: 512,
    uuid: 1,
    group: 1,
};

// A Connect to an I/O queue of this controller.
fn connect_io(alloc: Global, cntlid: u16) -> Result<Vec<u8>, AllocError> {
    let mut pdu = connect_to(alloc, A, H1)?;
    put(&mut pdu, 8 + 42, &[1]);
    put(&mut pdu, 72 + 16, &cntlid.to_le_bytes());
    Ok(pdu)
}

// An Identify of the controller.
fn identify(alloc: Global, cid: u8) -> Result<Vec<u8>, AllocError> {
    let mut entry = [0u8; 64];
    entry[..3].copy_from_slice(&[6, 0x40, cid]);
    entry[33] = 0x10;
    entry[39] = 0x5A;
    entry[40] = 1;
    capsule(alloc, &entry, &[])
}

fn takes(target: &mut MemoryTarget, k: usize, pdu: Result<Vec<u8>, AllocError>) -> bool {
    match pdu {
        Ok(bytes) => target.takes(k, &bytes),
        Err(AllocError) => false,
    }
}

fn fills_admin_queue(alloc: Global, target: &mut MemoryTarget, k: usize) -> bool {
    let mut fills = target.opens_on(1, k)
        && takes(target, k, ic_req(alloc))
        && takes(target, k, connect_to(alloc, A, H1))
        && takes(target, k, enable(alloc));
    for cid in 0..IDENTIFIES {
        fills = fills && takes(target, k, identify(alloc, 3 + cid));
    }
    fills
}

fn fills_io_queue(alloc: Global, target: &mut MemoryTarget, k: usize, cntlid: u16) -> bool {
    let mut fills = target.opens_on(1, k)
        && takes(target, k, ic_req(alloc))
        && takes(target, k, connect_io(alloc, cntlid));
    for cid in 0..READS {
        let read = Command {
            cid: 2 + cid,
            ..Command::of(Opcode::Read, 1, 0, 64)
        };
        fills = fills && takes(target, k, read.pdu(alloc, &[]));
    }
    fills
}

// Whether the output has this length, and ends with the good response of this CID and SQHD.
fn ends_with(output: &[u8], len: usize, cid: u8, sqhd: u8) -> bool {
    let mut response = [0u8; 24];
    response[..5].copy_from_slice(&[0x05, 0x00, 0x18, 0x00, 0x18]);
    response[16] = sqhd;
    response[20] = cid;
    output.len() == len && output.ends_with(&response)
}

// The admin queues of 32 controllers are connections 0 to 31, and an I/O queue of each 32 to 63. They have 32
// entries. The row is the connection of the admin queue.
fn check_all(alloc: Global, target: &mut MemoryTarget) -> Outcome {
    for line in SERVED {
        pass!(check(target.edits(*line), "an edit that is accepted"));
    }
    for k in 0..32usize {
        pass!(check(fills_admin_queue(alloc, target, k), "its commands").in_row(k));
    }
    for cntlid in 1..33u16 {
        let k = usize::from(cntlid) + 31;
        pass!(check(fills_io_queue(alloc, target, k, cntlid), "its Reads").in_row(k));
    }
    for k in 0..32usize {
        let are_full = ends_with(target.sent(k), ADMIN_OUTPUT, 68, 4)
            && ends_with(target.sent(k + 32), IO_OUTPUT, 10, 10);
        pass!(check(are_full, "the outputs of this controller").in_row(k));
    }
    Ok(())
}

#[test]
fn more_than_256_kib_wait_on_each_of_64_connections(rt: HostRuntime) -> Outcome {
    match MemoryTarget::new(rt.alloc(), &[2048]) {
        Some(mut target) => check_all(rt.alloc(), &mut target),
        None => check(false, "memory"),
    }
}
