//! A target that the lines of a script are played over, each call again where it answers Memory.
use crate::fault::PlayFault;
use block_store::{FailingDisk, MemoryDisk};
use edit_lines::{NotMade, Printer, ReplayFault, StreamLine, make_line, read_stream_line};
use std::alloc::Global;
use std::io::Write;
use target_core::{OpenFault, StepFault, Stepped, Target};
use testkit_edits::again;

const CONNECTIONS: usize = 64;

// More than a connection has PDUs at a time, and than it has PDUs to send.
const PDUS_MAX: usize = 1 << 16;

/// A target over disks in memory, each of which fails once at most.
pub type PlayedTarget = Target<FailingDisk<MemoryDisk>>;

// What is seen of each connection: its room, whether it is ended, and how much output waits.
type Seen = [(usize, bool, usize); CONNECTIONS];

/// A target, and how many calls answered Memory.
#[derive(Drop)]
pub struct Player {
    alloc: Global,
    target: PlayedTarget,
    // The bytes that a line brings.
    bytes: Vec<u8>,
    printer: Printer,
    // Whether an edit that answers Memory is not made again.
    once: bool,
    refused: u32,
}

impl Player {
    pub fn new(alloc: Global, target: PlayedTarget, once: bool, refused: u32) -> Player {
        Player {
            alloc,
            target,
            bytes: Vec::new(alloc),
            printer: Printer::new(alloc),
            once,
            refused,
        }
    }

    /// How many calls answered Memory.
    pub fn refused(&self) -> u32 {
        self.refused
    }

    /// Plays a line, and prints what the target then sends.
    pub fn line<W: Write>(
        &mut self,
        number: usize,
        line: &[u8],
        out: &mut W,
    ) -> Result<(), PlayFault> {
        match read_stream_line(line) {
            Some(StreamLine::Open { port }) => self.open(port, out),
            Some(StreamLine::Receive { connection, hex }) => self.receive(connection, hex, out),
            Some(StreamLine::End { connection }) => self.end(connection, out),
            Some(StreamLine::Edit { line }) => self.edit(line, out),
            Some(StreamLine::Tick { ms }) => {
                self.target.tick(ms);
                self.drain(out)
            }
            None => Err(PlayFault::Replay(ReplayFault::StreamLine { line: number })),
        }
    }

    fn open<W: Write>(&mut self, port: u16, out: &mut W) -> Result<(), PlayFault> {
        match self.opened(port)? {
            Ok(k) => self.event(k as u64, "open", out),
            Err(fault) => {
                again!(
                    self.refused,
                    ReplayFault::Memory,
                    self.printer
                        .text(out, format_args!("open refused {fault}\n"))
                )?;
                Ok(())
            }
        }
    }

    // What the target answers, the second time where it is Memory at first.
    fn opened(&mut self, port: u16) -> Result<Result<usize, OpenFault>, PlayFault> {
        let before = seen(&self.target);
        let opened = self.target.open(port);
        if opened != Err(OpenFault::Memory) {
            return Ok(opened);
        }
        self.is_as_it_was(&before)?;
        Ok(self.target.open(port))
    }

    // A call answered Memory, and what is seen has to be what was before.
    fn is_as_it_was(&mut self, before: &Seen) -> Result<(), PlayFault> {
        self.refused = self.refused.saturating_add(1);
        if seen(&self.target) == *before {
            Ok(())
        } else {
            Err(PlayFault::Changed)
        }
    }

    fn edit<W: Write>(&mut self, line: &[u8], out: &mut W) -> Result<(), PlayFault> {
        let before = seen(&self.target);
        let mut made = make_line(self.alloc, &mut self.target, line);
        if matches!(made, Err(NotMade::Unread | NotMade::Memory)) {
            self.is_as_it_was(&before)?;
            if self.once {
                return self.print_refused_memory(out);
            }
            made = make_line(self.alloc, &mut self.target, line);
        }
        match made {
            Ok(()) => {
                again!(
                    self.refused,
                    ReplayFault::Memory,
                    self.printer.edit_made(out)
                )?;
                self.drain(out)
            }
            Err(NotMade::Unread | NotMade::Memory) => Err(PlayFault::Replay(ReplayFault::Memory)),
            Err(NotMade::Refused(reply)) => {
                again!(
                    self.refused,
                    ReplayFault::Memory,
                    self.printer.refused_edit(out, reply)
                )?;
                Ok(())
            }
        }
    }

    fn print_refused_memory<W: Write>(&mut self, out: &mut W) -> Result<(), PlayFault> {
        self.printer.text(out, format_args!("refused Memory\n"))?;
        Ok(())
    }

    fn event<W: Write>(&mut self, k: u64, word: &str, out: &mut W) -> Result<(), PlayFault> {
        again!(
            self.refused,
            ReplayFault::Memory,
            self.printer.event(out, k, word)
        )?;
        Ok(())
    }

    fn is_open(&self, k: u64) -> bool {
        self.target.is_known(k as usize)
    }

    fn end<W: Write>(&mut self, k: u64, out: &mut W) -> Result<(), PlayFault> {
        if !self.is_open(k) {
            return self.event(k, "none", out);
        }
        self.target.end(k as usize);
        self.drain(out)
    }

    fn receive<W: Write>(&mut self, k: u64, hex: &[u8], out: &mut W) -> Result<(), PlayFault> {
        if !self.is_open(k) {
            return self.event(k, "none", out);
        }
        self.decode(hex)?;
        let mut at = 0usize;
        for _ in 0..PDUS_MAX {
            let len = self.receive_from(k as usize, at);
            if len == 0 {
                return Ok(());
            }
            at = at.saturating_add(len);
            self.drain(out)?;
        }
        Ok(())
    }

    // Makes room for the bytes of a line, and reads them.
    fn decode(&mut self, hex: &[u8]) -> Result<(), PlayFault> {
        let len = hex.len() / 2;
        if self.bytes.resize(len, 0).is_err() {
            self.refused = self.refused.saturating_add(1);
            self.bytes.resize(len, 0)?;
        }
        match hex::decode_to_slice(hex, self.bytes.as_mut_slice()) {
            Ok(()) => Ok(()),
            Err(_) => Err(PlayFault::Replay(ReplayFault::Io)),
        }
    }

    // Hands the connection the bytes of the line from one on, as far as it has room.
    fn receive_from(&mut self, k: usize, at: usize) -> usize {
        let rest = self.bytes.get(at..).unwrap_or(&[]);
        self.target.receive(k, rest).unwrap_or(0)
    }

    // Lets all connections step until they are idle, and prints what they send and which are closed.
    fn drain<W: Write>(&mut self, out: &mut W) -> Result<(), PlayFault> {
        for k in 0..CONNECTIONS {
            if self.is_open(k as u64) {
                self.step_all(k)?;
            }
        }
        for k in 0..CONNECTIONS {
            if self.is_open(k as u64) {
                self.print_all(k, out)?;
            }
        }
        Ok(())
    }

    fn step_all(&mut self, k: usize) -> Result<(), PlayFault> {
        for _ in 0..PDUS_MAX {
            match self.step(k)? {
                Ok(Stepped::One | Stepped::Ended) => {}
                Ok(Stepped::Idle) | Err(StepFault::NoConn) => return Ok(()),
                Err(StepFault::Memory) => return Err(PlayFault::Replay(ReplayFault::Memory)),
            }
        }
        Ok(())
    }

    fn step(&mut self, k: usize) -> Result<Result<Stepped, StepFault>, PlayFault> {
        let before = seen(&self.target);
        let stepped = self.target.step(k);
        if stepped != Err(StepFault::Memory) {
            return Ok(stepped);
        }
        self.is_as_it_was(&before)?;
        Ok(self.target.step(k))
    }

    // Prints each PDU of a connection by itself, so that one whose line wants memory is printed again.
    fn print_all<W: Write>(&mut self, k: usize, out: &mut W) -> Result<(), PlayFault> {
        for _ in 0..PDUS_MAX {
            let len = self.print_pdu(k, out)?;
            if len == 0 {
                break;
            }
            self.take(k, len);
        }
        if self.target.ended(k) {
            self.event(k as u64, "closed", out)?;
            self.target.end(k);
        }
        Ok(())
    }

    // The length of the PDU that was printed; 0 where there is none.
    fn print_pdu<W: Write>(&mut self, k: usize, out: &mut W) -> Result<usize, PlayFault> {
        let output = self.target.output(k);
        let len = pdu_len(output);
        let pdu = output.get(..len).unwrap_or(output);
        again!(
            self.refused,
            ReplayFault::Memory,
            self.printer.pdus(out, k as u64, pdu)
        )?;
        Ok(len)
    }

    fn take(&mut self, k: usize, len: usize) {
        if len <= self.target.output(k).len() {
            self.target.taken(k, len);
        }
    }
}

fn seen(target: &PlayedTarget) -> Seen {
    let mut seen = [(0, false, 0); CONNECTIONS];
    for (k, connection) in seen.iter_mut().enumerate() {
        *connection = (target.room(k), target.ended(k), target.output(k).len());
    }
    seen
}

// The length of the PDU at the front of some output.
fn pdu_len(output: &[u8]) -> usize {
    match output {
        [_, _, _, _, a, b, c, d, ..] => {
            (u32::from_le_bytes([*a, *b, *c, *d]) as usize).min(output.len())
        }
        _ => output.len(),
    }
}
