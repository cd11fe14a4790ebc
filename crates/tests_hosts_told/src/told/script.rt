//! A target beside the plain program.
use crate::hosts::{
    Change, Command, FIRST, Hosts, QUEUES, Queue, SWEPT_END, SWEPT_FIRST, Seen, Stage, UNITS,
    capsule_of, connect, line_of, place_of, swept_lines,
};
use std::alloc::{AllocError, Global};
use testkit_edits::ic_req;
use testkit_tables::{Outcome, Placed, check, check_bytes, pass};
use testkit_targets::MemoryTarget;

/// A target, and what is known of its hosts. What it sends is taken away at each event.
#[derive(Drop)]
pub struct Script {
    alloc: Global,
    target: MemoryTarget,
    pub hosts: Hosts,
}

impl Script {
    pub fn new(alloc: Global, seen: Seen) -> Result<Script, AllocError> {
        match MemoryTarget::new(alloc, UNITS) {
            Some(target) => Ok(Script {
                alloc,
                target,
                hosts: Hosts::new(alloc, seen),
            }),
            None => Err(AllocError),
        }
    }

    /// Makes the edits that come first.
    pub fn set_up(&mut self) -> Outcome {
        for line in FIRST {
            pass!(check(self.target.edits(*line), "an edit that comes first"));
        }
        Ok(())
    }

    // What a queue is sent is what it is owed; it is ended if it has to be.
    fn check_queue(&mut self, queue: usize) -> Outcome {
        let Queue { stage, number, .. } = self.hosts.queue(queue);
        if matches!(stage, Stage::Closed) {
            return Ok(());
        }
        pass!(check_bytes(self.target.sent(number), &self.hosts.owed));
        let is_emptied = self.target.empties(number);
        let is_ended = self.target.is_ended(number) == matches!(stage, Stage::Ended);
        check(is_emptied && is_ended, "whether a connection is ended")
    }

    // No queue is sent anything.
    fn check_silence(&mut self) -> Outcome {
        self.hosts.owed.clear();
        for queue in 0..QUEUES {
            pass!(self.check_queue(queue).in_row(queue));
        }
        Ok(())
    }

    /// Makes an edit, or is refused. The row of a failure is the queue.
    pub fn edits(&mut self, change: Change) -> Outcome {
        let accepts = self.hosts.past.layout().accepts(change);
        let is_accepted = self.target.edits(line_of(change));
        pass!(check(is_accepted == accepts, "whether the edit is accepted"));
        if accepts {
            self.tells(change)
        } else {
            self.check_silence()
        }
    }

    // An edit that was made is told.
    fn tells(&mut self, change: Change) -> Outcome {
        let place = self.hosts.make(change)?;
        self.are_told(place)
    }

    /// Has 1,024 further namespaces come and go, one after the other. Queues are told by the first edit, if at
    /// all. The row of a failure is the queue.
    pub fn sweeps(&mut self) -> Outcome {
        for nsid in SWEPT_FIRST..SWEPT_END {
            for line in swept_lines(nsid) {
                pass!(check(self.target.edits(line), "an edit of a sweep"));
            }
        }
        let place = self.hosts.past.len();
        self.hosts.past.hear_sweep()?;
        self.are_told(place)
    }

    fn are_told(&mut self, place: usize) -> Outcome {
        for queue in 0..QUEUES {
            pass!(self.is_told(queue, place).in_row(queue));
        }
        Ok(())
    }

    // A queue is sent what the edit at this place completes.
    fn is_told(&mut self, queue: usize, place: usize) -> Outcome {
        self.hosts.tell(queue, place)?;
        self.check_queue(queue)
    }

    // Brings a whole PDU: a step takes it, its queue is sent what it is owed, and no other anything.
    fn brings(&mut self, queue: usize, pdu: &[u8]) -> Outcome {
        pass!(check(self.takes(queue, pdu), "what a step takes"));
        pass!(self.check_queue(queue));
        self.check_silence()
    }

    fn takes(&mut self, queue: usize, pdu: &[u8]) -> bool {
        let Queue { stage, number, .. } = self.hosts.queue(queue);
        match stage {
            Stage::Ended => self.target.ends_by(number, pdu),
            Stage::Closed | Stage::Opened | Stage::Connected => self.target.takes(number, pdu),
        }
    }

    /// Opens a connection, and asks for a controller; gives it up where that is refused.
    pub fn connects(&mut self, queue: usize) -> Outcome {
        let number = self.hosts.open(queue);
        let port = (place_of(queue).port % 4) as u16;
        pass!(check(self.target.opens_on(port, number), "the least free number"));
        pass!(self.initializes(queue));
        pass!(self.asks(queue));
        match self.hosts.queue(queue).stage {
            Stage::Connected => Ok(()),
            Stage::Closed | Stage::Opened | Stage::Ended => self.gives_up(queue),
        }
    }

    fn initializes(&mut self, queue: usize) -> Outcome {
        self.hosts.initialize()?;
        let request = ic_req(self.alloc)?;
        self.brings(queue, &request)
    }

    fn asks(&mut self, queue: usize) -> Outcome {
        self.hosts.admit(queue)?;
        let request = connect(self.alloc, queue)?;
        self.brings(queue, &request)
    }

    /// Gives a connection up.
    pub fn gives_up(&mut self, queue: usize) -> Outcome {
        self.target.gives_up(self.hosts.queue(queue).number);
        self.hosts.leave(queue, Stage::Closed);
        self.check_silence()
    }

    /// Sends a command: it is answered what it has to be.
    pub fn sends(&mut self, queue: usize, cid: u16, command: &Command) -> Outcome {
        let pdu = capsule_of(self.alloc, cid, command)?;
        self.sends_capsule(queue, cid, command, &pdu)
    }

    fn sends_capsule(&mut self, queue: usize, cid: u16, command: &Command, pdu: &[u8]) -> Outcome {
        self.hosts.answer(queue, cid, command, pdu)?;
        self.brings(queue, pdu)
    }
}
