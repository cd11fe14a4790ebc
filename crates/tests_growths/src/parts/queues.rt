//! One queue of a host, from its start to a Write and a Read.
use host_driver::{HostFault, HostQueue, HostStep};
use nvt_fields::Status;
use std::alloc::{AllocError, Global};
use std::test::Fail;
use testkit_edits::again;
use testkit_edits::growths::tell;
use testkit_host_queues::pdus::{Sent, bytes_of};
use testkit_host_queues::queues::{
    CONNECTED, IC_RESP, Said, check_answer, params, step, submit_reading, submit_writing,
};
use testkit_tables::{Outcome, Placed, check, check_bytes, check_number, pass};

const LAST: u8 = 4;

// What a queue sends: each PDU begins at its place, and the last one ends there.
const SENT: [(usize, &[u8]); 7] = [
    (0, &[0, 0, 128, 0, 128, 0, 0, 0]),
    (128, &[4, 0, 72, 72, 0x48, 4, 0, 0, 0x7F, 0x40, 0, 0, 1]),
    (1224, &[4, 0, 72, 0, 72, 0, 0, 0, 1, 0x40, 0, 0, 1]),
    (
        1296,
        &[
            6, 0, 24, 24, 0x18, 0x10, 0, 0, 0, 0, 9, 0, 0, 0, 0, 0, 0, 0x10, 0, 0, 0, 0, 0, 0, 0xA5,
        ],
    ),
    (
        5416,
        &[
            6, 4, 24, 24, 0xA0, 3, 0, 0, 0, 0, 9, 0, 0, 0x10, 0, 0, 0x88, 3, 0, 0, 0, 0, 0, 0, 0xA5,
        ],
    ),
    (6344, &[4, 0, 72, 0, 72, 0, 0, 0, 2, 0x40, 0, 0, 1]),
    (6416, &[]),
];

fn check_sent(queue: &HostQueue) -> Outcome {
    for (row, (place, pdu)) in SENT.iter().enumerate() {
        let rest = queue.output().get(*place..).unwrap_or(&[]);
        pass!(check_bytes(rest.get(..pdu.len()).unwrap_or(rest), pdu).in_row(row));
    }
    check_number(queue.output().len() as u64, 6416)
}

// Hands a PDU to the queue.
fn hand(queue: &mut HostQueue, alloc: Global, pdu: Sent, refused: &mut u32) -> Outcome {
    let bytes = again!(*refused, AllocError, bytes_of(alloc, pdu))?;
    check_number(queue.receive(bytes.as_slice()) as u64, bytes.len() as u64)
}

// What a step tells, the second time where it wants memory; before that the output is as it was.
fn tells(queue: &mut HostQueue, refused: &mut u32) -> Said {
    let before = queue.output().len();
    let said = step(queue);
    if said != Said::Fault(HostFault::Memory) {
        return said;
    }
    *refused = refused.saturating_add(1);
    if queue.output().len() == before {
        step(queue)
    } else {
        said
    }
}

// Command 0 is answered with this payload, the second time where that wants memory.
fn check_done(queue: &mut HostQueue, payload: &[u8], refused: &mut u32) -> Outcome {
    match queue.step() {
        Ok(HostStep::Done(answer)) => check(
            answer.cid == 0 && answer.payload.as_slice() == payload,
            "the answer",
        ),
        Err(HostFault::Memory) => {
            *refused = refused.saturating_add(1);
            check_answer(queue, 0, Status::SUCCESS, 0, payload)
        }
        _ => check(false, "an answer"),
    }
}

fn connects(queue: &mut HostQueue, alloc: Global, refused: &mut u32) -> Outcome {
    pass!(hand(queue, alloc, IC_RESP, refused));
    pass!(check(tells(queue, refused) == Said::Idle, "the Connect is sent"));
    pass!(hand(queue, alloc, CONNECTED, refused));
    check(tells(queue, refused) == Said::Connected(1), "connected")
}

fn writes(queue: &mut HostQueue, alloc: Global, refused: &mut u32) -> Outcome {
    let submitted = again!(
        *refused,
        HostFault::Memory,
        submit_writing(queue, alloc, 5_000)
    );
    pass!(check(submitted == Ok(0), "the Write"));
    pass!(hand(queue, alloc, Sent::Request(0, 9, 0, 5_000), refused));
    pass!(check(tells(queue, refused) == Said::Idle, "its data are sent"));
    pass!(hand(queue, alloc, Sent::Response(0, 0, 0), refused));
    check_done(queue, b"", refused)
}

fn reads(queue: &mut HostQueue, alloc: Global, refused: &mut u32) -> Outcome {
    let submitted = again!(*refused, HostFault::Memory, submit_reading(queue, alloc, 8));
    pass!(check(submitted == Ok(0), "the Read"));
    pass!(hand(queue, alloc, Sent::Data(0, 0, 0, 3, 3), refused));
    pass!(hand(queue, alloc, Sent::Data(LAST, 0, 3, 5, 5), refused));
    pass!(hand(queue, alloc, Sent::Response(0, 0, 0), refused));
    check_done(queue, &[0x5A; 8], refused)
}

fn use_queue(queue: &mut HostQueue, alloc: Global, refused: &mut u32) -> Outcome {
    pass!(connects(queue, alloc, refused).at_step(0));
    pass!(writes(queue, alloc, refused).at_step(1));
    pass!(reads(queue, alloc, refused).at_step(2));
    check_sent(queue)
}

fn new_queue(alloc: Global) -> Result<HostQueue, AllocError> {
    HostQueue::start(alloc, params(alloc)?)
}

fn use_new(alloc: Global, refused: &mut u32) -> Outcome {
    let mut queue = again!(*refused, AllocError, new_queue(alloc))?;
    use_queue(&mut queue, alloc, refused)
}

#[test]
fn queues_of_hosts(rt: HostRuntime) -> Result<(), Fail> {
    let mut refused = 0u32;
    let outcome = use_new(rt.alloc(), &mut refused);
    tell(&rt, refused, outcome)
}
