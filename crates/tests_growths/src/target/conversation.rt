//! The first conversation: from the opening of a connection to its log page, and a fault.
use super::pdus::{FAULTY, PDUS, TERMINATION, laid, wanted};
use super::targets::{Script, is_edited, is_opened, use_new};
use block_store::MemoryDisk;
use nvt_config::NewFault;
use std::alloc::{AllocError, Global};
use std::test::Fail;
use target_core::{StepFault, Stepped, Target};
use testkit_edits::growths::{tell, used};
use testkit_edits::{Line, again};
use testkit_tables::{Outcome, Placed, check, check_bytes, check_rows, pass};

// What is seen of a connection.
fn seen(target: &Target<MemoryDisk>, k: usize) -> (usize, bool, usize) {
    (target.room(k), target.ended(k), target.output(k).len())
}

// Brings a PDU, and steps; where the step wants memory, nothing is consumed, sent or ended.
pub fn is_taken(
    target: &mut Target<MemoryDisk>,
    k: usize,
    pdu: &[u8],
    wanted: Stepped,
    refused: &mut u32,
) -> bool {
    let received = target.receive(k, pdu) == Ok(pdu.len());
    let before = seen(target, k);
    let mut stepped = target.step(k);
    if stepped == Err(StepFault::Memory) {
        *refused = refused.saturating_add(1);
        if seen(target, k) != before {
            return false;
        }
        stepped = target.step(k);
    }
    received && stepped == Ok(wanted)
}

// The output of the PDUs is not taken, so that it grows.
fn check_served(target: &mut Target<MemoryDisk>, k: usize, refused: &mut u32) -> Outcome {
    for (row, (len, pieces)) in PDUS.iter().enumerate() {
        let pdu: [u8; 1096] = laid(pieces);
        let is_taken = is_taken(target, k, &pdu[..(*len).min(1096)], Stepped::One, refused)
            && target.step(k) == Ok(Stepped::Idle);
        pass!(check(is_taken, "the step of this PDU").in_row(row));
    }
    check_bytes(target.output(k), &wanted())
}

// Takes all output, in two parts.
fn is_output_taken(target: &mut Target<MemoryDisk>, k: usize) -> bool {
    let half = target.output(k).len() / 2;
    target.taken(k, half);
    let is_rest = Some(target.output(k)) == wanted().get(half..);
    let rest = target.output(k).len();
    target.taken(k, rest);
    is_rest && target.output(k).is_empty()
}

fn is_ended_by_a_fault(target: &mut Target<MemoryDisk>, k: usize, refused: &mut u32) -> bool {
    let ends = is_taken(target, k, FAULTY, Stepped::Ended, refused);
    let is_told = target.output(k) == TERMINATION.as_slice();
    let is_ended = target.ended(k) && target.room(k) == 0;
    target.end(k);
    [ends, is_told, is_ended, target.output(k).is_empty()] == [true; 4]
}

pub fn serve_one(alloc: Global, target: &mut Target<MemoryDisk>, refused: &mut u32) -> Outcome {
    let line = Line::PortAdd(1, b"127.0.0.1", 4420);
    let answer = again!(
        *refused,
        AllocError,
        is_edited(alloc, target, line, refused)
    );
    let begins = answer == Ok(true) && is_opened(target, 1, 0, refused);
    pass!(check(begins, "a port, and a connection on it"));
    pass!(check_served(target, 0, refused));
    let rows = [
        is_output_taken(target, 0),
        is_ended_by_a_fault(target, 0, refused),
    ];
    check_rows(&rows, "the output that is taken, and the end")
}

#[test]
fn each_call_is_made_again(rt: HostRuntime) -> Result<(), Fail> {
    let mut refused = 0u32;
    let answer = again!(
        refused,
        NewFault::Memory,
        use_new(rt.alloc(), Script::Conversation, &mut refused)
    );
    tell(&rt, refused, used(answer))
}
