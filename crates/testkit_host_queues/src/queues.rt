//! A host's queue, what is done with it, and what it says.
ghost use Rattle.std.specs.Prelude.{IfOk};
ghost use Rattle.host_driver.specs.Session.{AreParams};

use crate::pdus::{Sent, bytes_of};
use host_driver::{Answer, HostCommand, HostFault, HostParams, HostQueue, HostStep};
use nvt_fields::{Nqn, Status};
use std::alloc::{AllocError, Global};
use testkit_tables::{Outcome, check};

/// The limits that the controller of these tests sets: no alignment, 4,096 bytes in an H2CData.
pub const IC_RESP: Sent = Sent::IcResp(0, 0, 0, 4_096);

/// The reply to the Connect: success, controller 1.
pub const CONNECTED: Sent = Sent::Response(0, 0, 1);

fn name(alloc: Global, text: &[u8]) -> Result<Nqn, AllocError> {
    match Nqn::read(alloc, text) {
        Ok(name) => Ok(name),
        Err(_) => Err(AllocError),
    }
}

/// An admin queue of four commands, with at most 8 bytes of data in a capsule.
pub fn params(alloc: Global) -> Result<HostParams, AllocError>
    ensures { IfOk result AreParams }
{
    Ok(HostParams {
        qid: 0,
        sqsize: 4,
        cntlid: 0xFFFF,
        kato: 0,
        hostid: [1; 16],
        subnqn: name(alloc, b"nqn.2026-01.test:a")?,
        hostnqn: name(alloc, b"nqn.2026-01.test:h1")?,
        in_capsule: 8,
    })
}

/// Hands a PDU to a queue.
pub fn send(queue: &mut HostQueue, alloc: Global, pdu: Sent) -> Result<(), AllocError> {
    let bytes = bytes_of(alloc, pdu)?;
    queue.receive(bytes.as_slice());
    Ok(())
}

/// Takes all of the output away.
pub fn take_output(queue: &mut HostQueue) {
    let len = queue.output().len();
    queue.taken(len);
}

/// Submits a command that wants so many bytes.
pub fn submit_reading(queue: &mut HostQueue, alloc: Global, into: u32) -> Result<u16, HostFault> {
    queue.submit(&HostCommand {
        opcode: 2,
        nsid: 1,
        cdw: [0; 6],
        out: Vec::new(alloc),
        into,
    })
}

/// Submits a command that sends so many bytes A5h.
pub fn submit_writing(queue: &mut HostQueue, alloc: Global, len: usize) -> Result<u16, HostFault> {
    match vec![in alloc; 0xA5; len] {
        Ok(out) => queue.submit(&HostCommand {
            opcode: 1,
            nsid: 1,
            cdw: [0; 6],
            out,
            into: 0,
        }),
        Err(_) => Err(HostFault::Memory),
    }
}

/// What a step tells, less the payload of an answer.
#[derive(Clone, Copy, PartialEq, Eq)]
pub enum Said {
    Idle,
    Connected(u16),
    Done,
    Fault(HostFault),
}

/// Takes a step.
pub fn step(queue: &mut HostQueue) -> Said {
    match queue.step() {
        Ok(HostStep::Idle) => Said::Idle,
        Ok(HostStep::Connected { cntlid }) => Said::Connected(cntlid),
        Ok(HostStep::Done(_)) => Said::Done,
        Err(fault) => Said::Fault(fault),
    }
}

/// Whether a step answers this command, with this status, result and payload.
pub fn check_answer(
    queue: &mut HostQueue,
    cid: u16,
    status: Status,
    value: u64,
    payload: &[u8],
) -> Outcome {
    match queue.step() {
        Ok(HostStep::Done(answer)) => check(
            is_answer(&answer, cid, status, value, payload),
            "the answer",
        ),
        Ok(HostStep::Idle) => check(false, "an answer, and the queue is idle"),
        Ok(HostStep::Connected { .. }) => check(false, "an answer, and the queue is connected"),
        Err(_) => check(false, "an answer, and the queue is at fault"),
    }
}

fn is_answer(answer: &Answer, cid: u16, status: Status, value: u64, payload: &[u8]) -> bool {
    answer.cid == cid
        && answer.status == status
        && answer.result == value
        && answer.payload.as_slice() == payload
}
