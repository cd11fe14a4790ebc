//! What is told of connections and edits, on standard error. It changes nothing of what is served.
ghost use Rattle.std.specs.Prelude.{◌<◌};

use crate::network::{Channel, Network};
use crate::speech::Speech;
use bytes::BytesMut;
use connection_log::{ConnectionWatch, Ending, LinePace, LogLine};
use nvt_ports::{GivenUp, LINE_LIMIT, SLOTS};
use std::alloc::{AllocError, Global};
use std::fmt::Write;
use std::io;
use std::net::SocketAddr;

// Longer than any line: each byte of a line of edits is shown by four at most.
const TEXT_MAX: usize = 8_192;

/// Whether it is told who connects and what is edited.
#[derive(Clone, Copy, PartialEq, Eq)]
pub enum Log {
    Printed,
    /// Nothing is printed on standard error.
    Quiet,
}

/// What is known of the connection of a slot.
#[derive(Drop)]
struct JournalEntry {
    number: u64,
    watch: ConnectionWatch,
    // How it ended, where that is known before its slot is closed.
    ending: Option<Ending>,
}

/// Writes lines, of which some are left out where they are many or nobody reads them.
#[derive(Drop)]
struct Pen {
    speech: Speech,
    pace: LinePace,
    // Where a line is written before it is said.
    text: BytesMut,
}

impl Pen {
    fn write<N: Network>(&mut self, network: &mut N, line: LogLine<'_>) {
        let now = network.micros();
        if !self.pace.may_print(now) {
            return;
        }
        let count = self.pace.takes_left_out();
        if !self.say(count, line) {
            self.pace.leave_out(count.saturating_add(1));
        }
        let _ = self.speech.go_on(network);
    }

    // Says how many lines were left out, and a line, where there is room for both; answers whether there is.
    fn say(&mut self, count: u64, line: LogLine<'_>) -> bool {
        self.text.clear();
        let left_out = LogLine::LeftOut { count };
        let is_told = count == 0 || writeln!(self.text, "{left_out}").is_ok();
        let is_written = is_told && writeln!(self.text, "{line}").is_ok();
        is_written && self.speech.offer(Channel::Error, self.text.as_slice())
    }
}

/// The log of a target that is served, and what else is printed while it is.
#[derive(Drop)]
pub struct Journal {
    // One for each slot; none where nothing is told.
    entries: Vec<JournalEntry>,
    // How many hosts connected.
    opened: u64,
    // The line of edits that was handed out last.
    edit: Vec<u8>,
    pen: Pen,
}

impl Journal {
    /// Before the first connection.
    pub fn new(alloc: Global, log: Log) -> Result<Journal, AllocError> {
        let speech = Speech::new(alloc, log)?;
        Ok(Journal {
            entries: make_entries(alloc, log)?,
            opened: 0,
            edit: Vec::with_capacity(alloc, LINE_LIMIT)?,
            pen: Pen {
                speech,
                pace: LinePace::new(),
                text: BytesMut::with_capacity(alloc, TEXT_MAX)?,
            },
        })
    }

    /// What waits to be printed.
    pub fn speech(&mut self) -> &mut Speech {
        &mut self.pen.speech
    }

    /// Prints what goes at once. Fails where that cannot be written.
    pub fn go_on<N: Network>(&mut self, network: &mut N) -> io::Result<()> {
        self.pen.speech.go_on(network)
    }

    /// A host connected to this port, in this slot.
    pub fn opened<N: Network>(
        &mut self,
        network: &mut N,
        slot: usize,
        peer: SocketAddr,
        port: u16,
    ) {
        let Some(entry) = self.entries.get_mut(slot) else {
            return;
        };
        self.opened = self.opened.saturating_add(1);
        entry.number = self.opened;
        entry.watch.begin();
        entry.ending = None;
        let number = entry.number;
        self.pen
            .write(network, LogLine::Opened { number, peer, port });
    }

    /// A host connected to this port, and found no slot.
    pub fn found_no_slot<N: Network>(&mut self, network: &mut N, peer: SocketAddr, port: u16) {
        if !self.entries.is_empty() {
            self.pen.write(network, LogLine::NoSlot { peer, port });
        }
    }

    /// The host of a slot sent these bytes.
    pub fn received(&mut self, slot: usize, bytes: &[u8]) {
        if let Some(entry) = self.entries.get_mut(slot) {
            entry.watch.received(bytes);
        }
    }

    /// The target sent these bytes to the host of a slot.
    pub fn given<N: Network>(&mut self, network: &mut N, slot: usize, bytes: &[u8]) {
        let Some(entry) = self.entries.get_mut(slot) else {
            return;
        };
        let Some(completion) = entry.watch.given(bytes) else {
            return;
        };
        let line = LogLine::Answered {
            number: entry.number,
            asked_for: entry.watch.connect(),
            completion,
        };
        self.pen.write(network, line);
    }

    /// The connection of a slot ended so, if it has not ended before.
    pub fn ends(&mut self, slot: usize, ending: Ending) {
        if let Some(entry) = self.entries.get_mut(slot) {
            if entry.ending.is_none() {
                entry.ending = Some(ending);
            }
        }
    }

    /// A slot was closed. Where its host did not end the connection, the target did.
    pub fn closed<N: Network>(&mut self, network: &mut N, slot: usize) {
        let Some(entry) = self.entries.get_mut(slot) else {
            return;
        };
        let number = entry.number;
        let ending = Ending::of(entry.ending, entry.watch.termination());
        self.pen.write(network, LogLine::Ended { number, ending });
    }

    /// This line of edits was handed out.
    pub fn asked(&mut self, line: &[u8]) {
        self.edit.clear();
        let len = line.len().min(self.edit.capacity());
        // There is room for each line that is handed out.
        let _ = self.edit.extend_from_slice(&line[..len]);
    }

    /// The line of edits that was handed out last was answered so.
    pub fn replied<N: Network>(&mut self, network: &mut N, reply: &[u8]) {
        if !self.entries.is_empty() {
            let line = LogLine::Edited {
                line: self.edit.as_slice(),
                reply,
            };
            self.pen.write(network, line);
        }
    }
}

/// How the connection of a host that is given up ends.
pub fn ending_of(why: GivenUp) -> Ending {
    match why {
        GivenUp::WithoutConnect => Ending::WithoutConnect,
        GivenUp::TookNothing => Ending::TookNothing,
    }
}

fn make_entries(alloc: Global, log: Log) -> Result<Vec<JournalEntry>, AllocError> {
    let count = match log {
        Log::Printed => SLOTS,
        Log::Quiet => 0,
    };
    let mut entries = Vec::with_capacity(alloc, count)?;
    for _ in 0..count {
        entries.push(JournalEntry {
            number: 0,
            watch: ConnectionWatch::new(alloc)?,
            ending: None,
        })?;
    }
    Ok(entries)
}
