//! Walks of a host's queue beside the plain program.
use crate::walk::draw::{below, pdu, rarely};
use crate::walk::plain::{Bytes, Owed, Phase, Plain, Tells};
use host_driver::{HostFault, HostQueue, HostStep};
use rand_pcg::Pcg32;
use std::alloc::{AllocError, Global};
use testkit_host_queues::pdus::Sent;
use testkit_host_queues::queues::{params, send, submit_reading, submit_writing, take_output};
use testkit_tables::{Outcome, Placed, check, check_rows, pass};

const SEED: u64 = 0x686F_7374;

const WALKS: u64 = 400;

const STEPS: usize = 120;

/// What was seen in all walks.
#[derive(Clone, Copy)]
struct Seen {
    connected: u32,
    answered: u32,
    faults: u32,
    asked: u32,
    full: u32,
}

// What a step tells.
fn told(queue: &mut HostQueue) -> Tells {
    match queue.step() {
        Ok(HostStep::Idle) => Tells::Nothing,
        Ok(HostStep::Connected { cntlid }) => Tells::Connects(cntlid),
        Ok(HostStep::Done(answer)) => Tells::Answers(
            answer.cid,
            answer.status,
            answer.payload.len(),
        ),
        Err(fault) => Tells::Faults(fault),
    }
}

// The type of the first PDU of the output, and how long all of it is.
fn sent(queue: &HostQueue) -> Option<Bytes> {
    let output = queue.output();
    output.first().map(|kind| Bytes {
        kind: *kind,
        len: output.len(),
    })
}

fn note(seen: &mut Seen, owed: Owed) {
    match owed.tells {
        Tells::Nothing if owed.sends.is_some() => seen.asked = seen.asked.saturating_add(1),
        Tells::Nothing => {}
        Tells::Connects(_) => seen.connected = seen.connected.saturating_add(1),
        Tells::Answers(..) => seen.answered = seen.answered.saturating_add(1),
        Tells::Faults(_) => seen.faults = seen.faults.saturating_add(1),
    }
}

fn check_pdu(
    queue: &mut HostQueue,
    plain: &mut Plain,
    alloc: Global,
    pdu: Sent,
    seen: &mut Seen,
) -> Outcome {
    send(queue, alloc, pdu)?;
    let owed = plain.take(pdu);
    note(seen, owed);
    let tells = told(queue);
    pass!(check(tells == owed.tells, "what the PDU tells"));
    pass!(check(sent(queue) == owed.sends, "what goes back"));
    take_output(queue);
    Ok(())
}

fn check_submit(
    queue: &mut HostQueue,
    plain: &mut Plain,
    alloc: Global,
    is_writing: bool,
    len: u32,
    seen: &mut Seen,
) -> Outcome {
    let (wanted, sends) = if is_writing {
        plain.submit(len as usize, 0)
    } else {
        plain.submit(0, len as usize)
    };
    if wanted == Err(HostFault::QueueFull) {
        seen.full = seen.full.saturating_add(1);
    }
    let got = if is_writing {
        submit_writing(queue, alloc, len as usize)
    } else {
        submit_reading(queue, alloc, len)
    };
    pass!(check(got == wanted, "what the call answers"));
    pass!(check(sent(queue) == sends, "the capsule"));
    take_output(queue);
    Ok(())
}

fn check_step(
    queue: &mut HostQueue,
    plain: &mut Plain,
    alloc: Global,
    random: &mut Pcg32,
    seen: &mut Seen,
) -> Outcome {
    let is_nothing_owed = plain.is_quiet() && !rarely(random, 60);
    if is_nothing_owed || rarely(random, 3) {
        let is_writing = rarely(random, 2);
        let len = below(random, 25);
        return check_submit(queue, plain, alloc, is_writing, len, seen);
    }
    let pdu = pdu(random, plain);
    check_pdu(queue, plain, alloc, pdu, seen)
}

fn walk(queue: &mut HostQueue, alloc: Global, number: u64, seen: &mut Seen) -> Outcome {
    let mut random = Pcg32::new(SEED, number);
    let mut plain = Plain::new();
    let mut left = 3u32;
    for _ in 0..STEPS {
        // A few calls more of a queue that failed.
        if plain.phase == Phase::Failed {
            left = left.saturating_sub(1);
        }
        if left > 0 {
            pass!(check_step(queue, &mut plain, alloc, &mut random, seen).in_script(SEED, number));
        }
    }
    Ok(())
}

fn check_walk(alloc: Global, number: u64, seen: &mut Seen) -> Outcome {
    let mut queue = HostQueue::start(alloc, params(alloc)?)?;
    take_output(&mut queue);
    walk(&mut queue, alloc, number, seen)
}

fn check_seen(seen: &Seen) -> Outcome {
    let rows = [
        seen.connected > 200,
        seen.answered > 800,
        seen.faults > 400,
        seen.asked > 600,
        seen.full > 50,
    ];
    check_rows(&rows, "what was seen in all walks")
}

#[test]
fn a_queue_answers_any_controller(rt: HostRuntime) -> Outcome {
    let mut seen = Seen {
        connected: 0,
        answered: 0,
        faults: 0,
        asked: 0,
        full: 0,
    };
    for number in 0..WALKS {
        pass!(check_walk(rt.alloc(), number, &mut seen));
    }
    check_seen(&seen)
}
