//! A queue of the host, joined to a connection of the target.
ghost use Rattle.host_driver.specs.Session.{AreParams};

use block_store::MemoryDisk;
use host_driver::{Answer, HostCommand, HostParams, HostQueue, HostStep};
use std::alloc::Global;
use target_core::{Stepped, Target};

/// So many PDUs of the target are taken at a time, and so many exchanges a command without data or a Connect needs.
const STEPS_MAX: usize = 1024;

const EXCHANGES: usize = 4;

/// In more pieces than the data of all commands come: of 128 KiB each in 8 H2CData, of which the target has room for one
/// and a part of the next.
const SENDS_MAX: usize = 1024;

/// A queue of a host over a connection of a target.
#[derive(Drop)]
pub(crate) struct JoinedQueue {
    queue: HostQueue,
    k: usize,
}

impl JoinedQueue {
    /// A queue over a connection that was opened for it.
    pub(crate) fn over(alloc: Global, params: HostParams, k: usize) -> Option<JoinedQueue>
        requires { AreParams params }
    {
        match HostQueue::start(alloc, params) {
            Ok(queue) => Some(JoinedQueue { queue, k }),
            Err(_) => None,
        }
    }

    /// The identifier of the controller, once the queue is connected.
    pub(crate) fn connected(&mut self, target: &mut Target<MemoryDisk>) -> Option<u16> {
        for _ in 0..EXCHANGES {
            if !self.exchange(target) {
                return None;
            }
            if let Some(cntlid) = self.given() {
                return Some(cntlid);
            }
        }
        None
    }

    // The identifier of the controller, where the next step gives it.
    fn given(&mut self) -> Option<u16> {
        match self.queue.step() {
            Ok(HostStep::Connected { cntlid }) => Some(cntlid),
            Ok(HostStep::Idle | HostStep::Done(_)) | Err(_) => None,
        }
    }

    /// Whether a command is answered with success, where no other is outstanding.
    pub(crate) fn does(&mut self, target: &mut Target<MemoryDisk>, command: &HostCommand) -> bool {
        if !self.submits(command) {
            return false;
        }
        for _ in 0..EXCHANGES {
            if !self.exchange(target) {
                return false;
            }
            if let Some(is_done) = self.answer(command) {
                return is_done;
            }
        }
        false
    }

    /// Whether a command is submitted.
    pub(crate) fn submits(&mut self, command: &HostCommand) -> bool {
        self.queue.submit(command).is_ok()
    }

    /// Whether the next answer is of success, with as many bytes as the command wants; None where none is there.
    pub(crate) fn answer(&mut self, command: &HostCommand) -> Option<bool> {
        match self.queue.step() {
            Ok(HostStep::Idle) => None,
            Ok(HostStep::Done(answer)) => Some(is_success(&answer, command.into)),
            Ok(HostStep::Connected { .. }) | Err(_) => Some(false),
        }
    }

    /// Sends all that there is to send, lets the target take it, and receives what it sends; whether the connection
    /// stands.
    pub(crate) fn exchange(&mut self, target: &mut Target<MemoryDisk>) -> bool {
        if !self.sends_all(target) {
            return false;
        }
        let received = self.queue.receive(target.output(self.k));
        target.taken(self.k, received);
        true
    }

    // Sends until nothing is left to send.
    fn sends_all(&mut self, target: &mut Target<MemoryDisk>) -> bool {
        for _ in 0..SENDS_MAX {
            if self.queue.output().is_empty() {
                break;
            }
            if !self.sends(target) {
                return false;
            }
        }
        true
    }

    // Sends what the target has room for, and lets it take that.
    fn sends(&mut self, target: &mut Target<MemoryDisk>) -> bool {
        let output = self.queue.output();
        let len = output.len();
        let Ok(sent) = target.receive(self.k, output) else {
            return false;
        };
        self.queue.taken(sent.min(len));
        take_steps(target, self.k)
    }
}

fn is_success(answer: &Answer, into: u32) -> bool {
    let status = answer.status;
    status.sct == 0 && status.sc == 0 && answer.payload.len() == into as usize
}

// Steps until nothing is left to take.
fn take_steps(target: &mut Target<MemoryDisk>, k: usize) -> bool {
    for _ in 0..STEPS_MAX {
        match target.step(k) {
            Ok(Stepped::One) => {}
            Ok(Stepped::Idle) => return true,
            Ok(Stepped::Ended) | Err(_) => return false,
        }
    }
    true
}
