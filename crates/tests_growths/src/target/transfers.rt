//! A Write whose data the target asks for. The step that takes the first of its data wants no memory,
//! whichever growth is refused: the R2T had it all.
use super::conversation::is_taken;
use super::pdus::{ENABLE, IC_REQ, Pieces, laid};
use super::targets::{Script, is_edited, is_opened, use_new};
use block_store::MemoryDisk;
use nvt_config::{Access, NewFault};
use std::alloc::{AllocError, Global};
use std::test::Fail;
use target_core::{Stepped, Target};
use testkit_edits::growths::{NAMESPACE, tell, used};
use testkit_edits::{A, Line, again};
use testkit_tables::{Outcome, Placed, check, pass};

const EDITS: &[Line<'static>] = &[
    Line::SubsystemAdd(A, b"SN-A", Access::Open),
    Line::NamespaceAdd(A, NAMESPACE),
    Line::PortAdd(1, b"127.0.0.1", 4420),
    Line::LinkAdd(1, A),
];

const CONNECT: Pieces = &[
    (0, &[0x04, 0x00, 0x48, 0x48, 0x48, 0x04]),
    (8, &[0x7F, 0x40, 0x01, 0x00, 0x01]),
    (40, &[0x00, 0x04, 0x00, 0x00, 0x00, 0x00, 0x00, 0x01]),
    (52, &[0x1F]),
    (88, &[0xFF, 0xFF]),
    (328, b"nqn.2026-01.test:a"),
    (584, b"nqn.2026-01.test:h1"),
];

// The same of queue 1, for controller 1.
const CONNECT_IO: Pieces = &[
    (0, &[0x04, 0x00, 0x48, 0x48, 0x48, 0x04]),
    (8, &[0x7F, 0x40, 0x01, 0x00, 0x01]),
    (40, &[0x00, 0x04, 0x00, 0x00, 0x00, 0x00, 0x00, 0x01]),
    (50, &[0x01, 0x00, 0x1F]),
    (88, &[0x01, 0x00]),
    (328, b"nqn.2026-01.test:a"),
    (584, b"nqn.2026-01.test:h1"),
];

// Three blocks of 4,096 bytes from block 0 on, which the transport moves.
const WRITE: Pieces = &[
    (0, &[0x04, 0x00, 0x48, 0x00, 0x48]),
    (8, &[0x01, 0x40, 0x02, 0x00, 0x01]),
    (40, &[0x00, 0x30, 0x00, 0x00, 0x00, 0x00, 0x00, 0x5A]),
    (56, &[0x02]),
];

// The first 4,096 bytes of its data, under tag 0.
const DATA: Pieces = &[
    (0, &[0x06, 0x00, 0x18, 0x18, 0x18, 0x10]),
    (8, &[0x02]),
    (16, &[0x00, 0x10]),
];

// What connection 1 is sent until then: ICResp, the response to its Connect, the R2T.
const SENT_LEN: usize = 128 + 24 + 24;

// The PDUs of both connections up to the Write, with their lengths.
const PDUS: &[(usize, usize, Pieces)] = &[
    (0, 128, IC_REQ),
    (0, 1096, CONNECT),
    (0, 72, ENABLE),
    (1, 128, IC_REQ),
    (1, 1096, CONNECT_IO),
    (1, 72, WRITE),
];

fn are_edits_made(alloc: Global, target: &mut Target<MemoryDisk>, refused: &mut u32) -> Outcome {
    for (row, line) in EDITS.iter().enumerate() {
        let answer = again!(
            *refused,
            AllocError,
            is_edited(alloc, target, *line, refused)
        );
        pass!(check(answer == Ok(true), "this edit").in_row(row));
    }
    Ok(())
}

fn are_pdus_taken(target: &mut Target<MemoryDisk>, refused: &mut u32) -> Outcome {
    for (row, (k, len, pieces)) in PDUS.iter().enumerate() {
        let pdu: [u8; 1096] = laid(pieces);
        let is_taken = is_taken(target, *k, &pdu[..(*len).min(1096)], Stepped::One, refused);
        pass!(check(is_taken, "the step of this PDU").in_row(row));
    }
    Ok(())
}

// The R2T is the last PDU that was sent; the step of the first data of what it asks for has no second chance.
fn is_data_taken(target: &mut Target<MemoryDisk>) -> Outcome {
    let is_asked = target.output(1).len() == SENT_LEN && target.output(1).get(152) == Some(&0x09);
    pass!(check(is_asked, "an R2T"));
    let pdu: [u8; 4120] = laid(DATA);
    let is_received = target.receive(1, &pdu) == Ok(4120);
    let is_taken = is_received && target.step(1) == Ok(Stepped::One);
    pass!(check(is_taken, "the step of the first data"));
    check(target.output(1).len() == SENT_LEN, "no answer yet")
}

pub fn take_some(alloc: Global, target: &mut Target<MemoryDisk>, refused: &mut u32) -> Outcome {
    pass!(are_edits_made(alloc, target, refused));
    let are_opened = is_opened(target, 1, 0, refused) && is_opened(target, 1, 1, refused);
    pass!(check(are_opened, "two connections"));
    pass!(are_pdus_taken(target, refused));
    is_data_taken(target)
}

#[test]
fn data_take_no_memory(rt: HostRuntime) -> Result<(), Fail> {
    let mut refused = 0u32;
    let answer = again!(
        refused,
        NewFault::Memory,
        use_new(rt.alloc(), Script::Transfer, &mut refused)
    );
    tell(&rt, refused, used(answer))
}
