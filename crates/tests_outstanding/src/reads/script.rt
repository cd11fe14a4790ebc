//! A target and the plain program, to which the same happens.
use crate::draws::whole_read;
use crate::plain::{
    Change, Plain, QUEUES, Seen, configure, connect, ic_req, line_of, part, place_of, qid_of,
    term_req,
};
use crate::reads::first::FIRST;
use std::alloc::{AllocError, Global};
use testkit_tables::{Outcome, check, check_bytes};
use testkit_targets::MemoryTarget;

/// The values of CC: a controller is enabled, shut down, or reset.
pub const ENABLED: u32 = 0x0046_0001;

pub const SHUT: u32 = 0x0046_4001;

pub const RESET: u32 = 0x0046_0000;

// A PDU whose first bytes the target has.
#[derive(Drop)]
struct Begun {
    queue: usize,
    pdu: Vec<u8>,
    len: usize,
}

/// A target beside the plain program. What the target sends is taken away at each event. The first thing that
/// is not as it is wanted is kept, and what comes after it says nothing.
#[derive(Drop)]
pub struct Script {
    target: MemoryTarget,
    pub plain: Plain,
    /// The PDU that a host sends next.
    pub pdu: Vec<u8>,
    begun: Vec<Begun>,
    alloc: Global,
    /// What failed first.
    pub outcome: Outcome,
}

impl Script {
    pub fn new(alloc: Global, target: MemoryTarget, seen: Seen) -> Script {
        Script {
            target,
            plain: Plain::new(alloc, seen),
            pdu: Vec::new(alloc),
            begun: Vec::new(alloc),
            alloc,
            outcome: Ok(()),
        }
    }

    // What failed first is kept.
    fn keep(&mut self, outcome: Outcome) {
        if self.outcome.is_ok() {
            self.outcome = outcome;
        }
    }

    /// This fact is to hold.
    pub fn wants(&mut self, holds: bool, fact: &'static str) {
        self.keep(check(holds, fact));
    }

    /// There is to be memory for this.
    pub fn makes(&mut self, made: Result<(), AllocError>) {
        self.wants(made.is_ok(), "memory");
    }

    /// Lays the disks, and makes the edits that come first.
    pub fn set_up(&mut self) {
        let laid = self.plain.lay_disks();
        self.makes(laid);
        for line in FIRST {
            let is_accepted = self.target.edits(*line);
            self.wants(is_accepted, "an edit that comes first");
        }
    }

    /// Makes an edit, or is refused.
    pub fn edits(&mut self, change: Change) {
        let accepts = self.plain.layout.accepts(change);
        let is_accepted = self.target.edits(line_of(change));
        if accepts {
            self.plain.edit(change);
        }
        self.wants(is_accepted == accepts, "whether the edit is accepted");
        self.checks_queues(QUEUES);
    }

    // What each connection is sent is what it is owed, which is nothing but for that of this queue; those are
    // ended that have to be.
    fn checks_queues(&mut self, queue: usize) {
        for it in 0..QUEUES {
            if !self.plain.is_closed(it) {
                self.checks_queue(it, it == queue);
            }
        }
        self.forgets_ended();
    }

    fn checks_queue(&mut self, queue: usize, is_owed: bool) {
        let number = self.plain.number(queue);
        let outcome = self.checks_sent(number, is_owed);
        self.keep(outcome);
        let is_empty = self.target.empties(number);
        let is_ended = self.target.is_ended(number) == self.plain.is_ended(queue);
        self.wants(is_empty && is_ended, "whether a connection is ended");
    }

    fn checks_sent(&self, number: usize, is_owed: bool) -> Outcome {
        if is_owed {
            check_bytes(self.target.sent(number), &self.plain.owed)
        } else {
            check_bytes(self.target.sent(number), &[])
        }
    }

    // A PDU that is not whole goes with its connection.
    fn forgets_ended(&mut self) {
        let plain = &self.plain;
        self.begun.retain(|begun| plain.is_connected(begun.queue));
    }

    // A connection opens, on the least number that is free.
    fn opens(&mut self, queue: usize) {
        let port = (place_of(queue).port % 4) as u16;
        let number = self.plain.open(queue);
        let is_open = self.target.opens_on(port, number);
        self.wants(is_open, "the least free number");
    }

    /// Opens a connection, and asks for a queue on it; gives it up where that is refused.
    pub fn connects(&mut self, queue: usize) {
        self.opens(queue);
        self.pdu.clear();
        let made = ic_req(&mut self.pdu);
        self.makes(made);
        self.brings(queue, 0);
        self.asks_for_queue(queue);
        if !self.plain.is_connected(queue) {
            self.gives_up(queue);
        }
    }

    fn asks_for_queue(&mut self, queue: usize) {
        let cntlid = if qid_of(queue) == 0 {
            0xFFFF
        } else {
            self.plain.controller(queue).cntlid
        };
        self.pdu.clear();
        let made = connect(&mut self.pdu, queue, cntlid);
        self.makes(made);
        self.brings(queue, 0);
    }

    /// Sets CC of a controller.
    pub fn configures(&mut self, queue: usize, cc: u32) {
        self.pdu.clear();
        let made = configure(&mut self.pdu, 2, cc);
        self.makes(made);
        self.brings(queue, 0);
    }

    /// Sends an H2CTermReq.
    pub fn terminates(&mut self, queue: usize) {
        self.pdu.clear();
        let made = term_req(&mut self.pdu);
        self.makes(made);
        self.brings(queue, 0);
    }

    /// Gives a connection up.
    pub fn gives_up(&mut self, queue: usize) {
        let number = self.plain.number(queue);
        self.target.gives_up(number);
        self.plain.give_up(queue);
        self.checks_queues(QUEUES);
    }

    /// Brings the PDU from one byte on, before which all came: what is owed to it is sent.
    pub fn brings(&mut self, queue: usize, at: usize) {
        let taken = self.plain.take(queue, &self.pdu);
        self.makes(taken);
        let number = self.plain.number(queue);
        let is_end = self.plain.is_ended(queue);
        let rest = behind(&self.pdu, at);
        let is_taken = if is_end {
            self.target.ends_by(number, rest)
        } else {
            self.target.takes(number, rest)
        };
        self.wants(is_taken, "what a step takes");
        self.checks_queues(queue);
    }

    /// Brings the first bytes of the PDU and not all, to which nothing is owed.
    pub fn begins(&mut self, queue: usize, len: usize) {
        let len = len.min(self.pdu.len().saturating_sub(1));
        let number = self.plain.number(queue);
        let is_idle = self.target.waits_for_more(number, part(&self.pdu, 0, len));
        self.wants(is_idle, "an idle step");
        let kept = self.keeps_pdu(queue, len);
        self.makes(kept);
        self.checks_queues(QUEUES);
    }

    fn keeps_pdu(&mut self, queue: usize, len: usize) -> Result<(), AllocError> {
        let pdu = Vec::from_slice(self.alloc, &self.pdu)?;
        self.begun.push(Begun { queue, pdu, len })?;
        Ok(())
    }

    // The place of the queue's PDU that is not whole; behind all where there is none.
    fn place_begun(&self, queue: usize) -> usize {
        for (place, begun) in self.begun.iter().enumerate() {
            if begun.queue == queue {
                return place;
            }
        }
        self.begun.len()
    }

    /// Whether a PDU of a queue is not whole.
    pub fn has_begun(&self, queue: usize) -> bool {
        self.place_begun(queue) < self.begun.len()
    }

    /// Brings the rest of the queue's PDU that is not whole.
    pub fn goes_on(&mut self, queue: usize) {
        let place = self.place_begun(queue);
        if place < self.begun.len() {
            let begun = self.begun.remove(place);
            self.pdu = begun.pdu;
            self.brings(queue, begun.len);
        }
    }

    /// Reads all of a namespace, if it is there.
    pub fn reads(&mut self, nsid: usize) {
        if let Some(namespace) = self.plain.layout.namespace(nsid) {
            self.pdu.clear();
            let made = whole_read(&mut self.pdu, nsid, &namespace);
            self.makes(made);
            self.brings(1, 0);
        }
    }
}

fn behind(bytes: &[u8], at: usize) -> &[u8] {
    bytes.get(at..).unwrap_or(&[])
}
