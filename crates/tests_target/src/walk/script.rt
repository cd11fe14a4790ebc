use block_store::MemoryDisk;
use nvt_config::{Edit, NewFault};
use std::alloc::{AllocError, Global};
use target_core::{OpenFault, Stepped, Target};
use testkit_edits::{Line, edit, memory_disks};
use testkit_tables::{Outcome, Placed, check};

pub const CONNECTIONS: u32 = 4;

// What a test knows of a connection by itself.
#[derive(Clone, Copy)]
struct Known {
    is_open: bool,
    // How many PDUs it has taken.
    position: u32,
    // How many bytes of its output were taken.
    taken: usize,
}

const UNKNOWN: Known = Known {
    is_open: false,
    position: 0,
    taken: 0,
};

/// A target whose PDUs come in pieces, beside one to which the same happens with each PDU whole and of
/// whose output nothing is taken, and what went wrong first.
#[derive(Drop)]
pub struct Script {
    pub alloc: Global,
    pub target: Target<MemoryDisk>,
    whole: Target<MemoryDisk>,
    known: [Known; 4],
    step: usize,
    outcome: Outcome,
}

impl Script {
    /// Two targets of one disk each.
    pub fn new(alloc: Global) -> Result<Script, NewFault> {
        let target = target_over_zeros(alloc)?;
        let whole = target_over_zeros(alloc)?;
        Ok(Script {
            alloc,
            target,
            whole,
            known: [UNKNOWN; 4],
            step: 0,
            outcome: Ok(()),
        })
    }

    /// What went wrong first, and at which step.
    pub fn outcome(&self) -> Outcome {
        self.outcome
    }

    pub fn begin_step(&mut self, step: usize) {
        self.step = step;
    }

    pub fn expect(&mut self, holds: bool, fact: &'static str) {
        if self.outcome.is_ok() {
            self.outcome = check(holds, fact).at_step(self.step);
        }
    }

    pub fn add_ports(&mut self) {
        self.edit(Line::PortAdd(1, b"127.0.0.1", 4420));
        self.edit(Line::PortAdd(2, b"127.0.0.1", 4420));
    }

    /// Edits: the target answers what its configuration's check does.
    pub fn edit(&mut self, line: Line<'_>) {
        match edit(self.alloc, line) {
            Ok(edit) => self.make(&edit),
            Err(_) => self.expect(false, "the edit of a line"),
        }
    }

    fn make(&mut self, edit: &Edit) {
        let verdict = self.target.config().check(edit);
        let made = [self.target.edit(edit), self.whole.edit(edit)];
        self.expect(made == [verdict; 2], "the answers of an edit");
    }

    /// Opens a connection: on a port that is there it gets the least free number.
    pub fn open(&mut self, port: u16) {
        let is_there = self.target.config().port(port).is_some();
        let opened = self.target.open(port);
        let is_same = self.whole.open(port) == opened;
        self.expect(is_same, "the same open");
        if is_there {
            let number = self.first_free();
            self.expect(opened == Ok(number), "the number of a connection");
            self.known[number % 4].is_open = true;
        } else {
            let is_refused = opened == Err(OpenFault::NoSuchPort);
            self.expect(is_refused, "a port that is not there");
        }
    }

    fn first_free(&mut self) -> usize {
        for (number, known) in self.known.iter().enumerate() {
            if !known.is_open {
                return number;
            }
        }
        self.expect(false, "each connection is open");
        0
    }

    pub fn end(&mut self, number: usize) {
        self.target.end(number);
        self.whole.end(number);
        self.known[number % 4] = UNKNOWN;
    }

    /// How many PDUs the connection has taken, one more of which is coming.
    pub fn next_position(&mut self, number: usize) -> u32 {
        let known = &mut self.known[number % 4];
        let position = known.position;
        known.position = position.saturating_add(1);
        position
    }

    /// Brings one PDU, or what stands in its place: to the one target in two pieces, to the other whole.
    pub fn take(&mut self, number: usize, pdu: Result<Vec<u8>, AllocError>, cut: usize) {
        let is_taken = match pdu {
            Ok(bytes) => {
                is_one_taken(&mut self.target, number, &bytes, cut)
                    && is_one_taken(&mut self.whole, number, &bytes, bytes.len())
            }
            Err(AllocError) => false,
        };
        self.expect(is_taken, "what the steps take");
    }

    /// Takes so many bytes of the connection's output, or all where there are fewer.
    pub fn take_output(&mut self, number: usize, most: usize) {
        let len = self.target.output(number).len().min(most);
        self.target.taken(number, len);
        let known = &mut self.known[number % 4];
        known.taken = known.taken.saturating_add(len);
    }

    /// What the two send on this connection is the same.
    pub fn compare(&mut self, number: usize) {
        let sent = self.whole.output(number);
        let left = sent.get(self.known[number % 4].taken..);
        let is_same = left == Some(self.target.output(number));
        self.expect(is_same, "what is sent");
    }
}

fn target_over_zeros(alloc: Global) -> Result<Target<MemoryDisk>, NewFault> {
    match memory_disks(alloc, &[64]) {
        Ok(disks) => Target::new(alloc, disks),
        Err(AllocError) => Err(NewFault::Memory),
    }
}

// Feeds the bytes in two pieces, each as far as there is room for it; whether one PDU is taken.
fn is_one_taken(target: &mut Target<MemoryDisk>, number: usize, bytes: &[u8], cut: usize) -> bool {
    let (front, back) = bytes.split_at(cut.min(bytes.len()));
    let taken = [fed(target, number, front), fed(target, number, back)];
    taken == [Some(0), Some(1)] || taken == [Some(1), Some(0)]
}

// How many PDUs are taken with this piece; none where an answer is wrong.
fn fed(target: &mut Target<MemoryDisk>, number: usize, piece: &[u8]) -> Option<u32> {
    let received = target.room(number).min(piece.len());
    if target.receive(number, piece) != Ok(received) {
        return None;
    }
    steps(target, number)
}

// Steps until the target is idle, at most four times; how many PDUs were taken.
fn steps(target: &mut Target<MemoryDisk>, number: usize) -> Option<u32> {
    for taken in 0..4u32 {
        let waiting = target.output(number).len();
        let stepped = target.step(number);
        if stepped == Ok(Stepped::Idle) {
            let is_unchanged = target.output(number).len() == waiting;
            return if is_unchanged { Some(taken) } else { None };
        }
        let ended = target.ended(number);
        if stepped != Ok(if ended { Stepped::Ended } else { Stepped::One }) {
            return None;
        }
    }
    Some(4)
}
