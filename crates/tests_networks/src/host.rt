//! A host of the scripted network, and its socket.
ghost use Rattle.std.specs.Prelude.{◌≤◌, IfOk, length};
ghost use Rattle.nvt_sockets.specs.HandsOut.{FitsPiece};

use crate::manner::{Ending, Manner};
use crate::script::{Script, Span};
use nvt_ports::PortFault;
use nvt_sockets::Received;
use std::alloc::{AllocError, Global};
use std::rc::Rc;
use testkit_tables::{Outcome, Placed, check};

/// A host, and its socket.
#[derive(Drop)]
pub struct Host<'a> {
    pub script: &'a Script,
    pub manner: Manner,
    // Whoever holds its stream has it too.
    held: Rc<()>,
    is_open: bool,
    // How far its bytes were read, and how many more may be.
    place: usize,
    released: usize,
    // How many bytes of the reply under way are still to come, and when its command was sent.
    waits_for: usize,
    asked_at: u64,
    /// How many replies came, of a host that asks.
    pub replies: u64,
    /// The longest time that one took.
    pub slowest: u64,
    // How far its socket took what it is owed, and how much of it is not read.
    took: usize,
    /// How often it took all, where that begins again.
    pub rounds: u64,
    unread: usize,
    read_at: u64,
    // The first byte that it is not owed.
    wrong: Option<usize>,
    /// When it connected.
    pub opened_at: u64,
    /// When its socket took a byte last.
    pub took_at: u64,
    /// When its socket was tried last.
    pub tried_at: u64,
}

impl<'a> Host<'a> {
    pub fn new(alloc: Global, script: &'a Script, manner: Manner) -> Result<Host<'a>, AllocError> {
        Ok(Host {
            script,
            manner,
            held: Rc::new(alloc, ())?,
            is_open: false,
            place: 0,
            released: if manner.asks { 0 } else { usize::MAX },
            waits_for: 0,
            asked_at: manner.opens_at,
            replies: 0,
            slowest: 0,
            took: 0,
            rounds: 0,
            unread: 0,
            read_at: manner.opens_at,
            wrong: None,
            opened_at: 0,
            took_at: 0,
            tried_at: 0,
        })
    }

    /// Whether it connects by this time, and has not yet.
    pub fn is_due(&self, now: u64) -> bool {
        !self.is_open && self.manner.opens_at <= now
    }

    /// It connects: what shows that its stream is held.
    pub fn open(&mut self, now: u64) -> Option<Rc<()>> {
        self.is_open = true;
        self.opened_at = now;
        self.took_at = now;
        self.tried_at = now;
        self.held.clone().ok()
    }

    /// Whether the target closed its socket.
    pub fn is_closed(&self) -> bool {
        self.is_open && Rc::strong_count(&self.held) < 2
    }

    /// Whether the target has its socket.
    pub fn is_held(&self) -> bool {
        self.is_open && Rc::strong_count(&self.held) >= 2
    }

    /// What its socket took is a beginning of what it is owed.
    pub fn check_taken(&self) -> Outcome {
        match self.wrong {
            None => Ok(()),
            Some(place) => check(false, "the bytes that it is owed").at_step(place),
        }
    }

    /// Whether it read all that it is owed.
    pub fn has_all(&self) -> bool {
        self.unread == 0 && self.took >= self.script.owed.len()
    }

    // Whether all that it sends was read.
    fn is_over(&self) -> bool {
        self.place >= self.script.sends.len()
    }

    fn is_reset(&self) -> bool {
        self.manner.ending == Ending::Resets && self.is_over()
    }

    fn closes_side(&self) -> bool {
        match self.manner.ending {
            Ending::EndsAnswered => self.has_all(),
            Ending::Ends => self.is_over(),
            Ending::Stays | Ending::Resets => false,
        }
    }

    /// One read of its socket.
    pub fn give(&mut self, now: u64, piece: &mut [u8]) -> Received
        ensures { FitsPiece (length piece.new) result }
    {
        self.go_on(now);
        if self.is_reset() {
            return Received::Reset;
        }
        let most = self.manner.gives.min(self.released);
        let rest = self.script.sends.get(self.place..).unwrap_or(&[]);
        let n = piece.len().min(most).min(rest.len());
        piece[..n].copy_from_slice(&rest[..n]);
        if n > 0 {
            self.gave(n);
            Received::Bytes(n)
        } else if !piece.is_empty() && self.closes_side() {
            Received::End
        } else {
            Received::Nothing
        }
    }

    fn gave(&mut self, n: usize) {
        self.place = self.place.saturating_add(n);
        if self.manner.asks {
            self.released = self.released.saturating_sub(n);
        }
        if self.script.repeats && self.is_over() {
            self.place = self.script.opening.sent;
        }
    }

    /// One write to its socket: how many bytes it takes.
    pub fn take(&mut self, now: u64, bytes: &[u8]) -> Result<usize, PortFault>
        ensures { IfOk result (λ n. n ≤ length bytes.now) }
    {
        self.go_on(now);
        if self.is_reset() {
            return Err(PortFault);
        }
        let n = bytes
            .len()
            .min(self.manner.window.saturating_sub(self.unread));
        for byte in &bytes[..n] {
            self.compare(*byte);
        }
        if n > 0 {
            self.took_at = now;
            self.unread = self.unread.saturating_add(n);
            self.go_on(now);
        }
        Ok(n)
    }

    // A byte more, which is to be what it is owed.
    fn compare(&mut self, byte: u8) {
        match self.script.owed.get(self.took) {
            Some(owed) if *owed == byte => {}
            Some(_) if self.is_free(self.took) => {}
            _ => self.wrong = self.wrong.or(Some(self.took)),
        }
        self.took = self.took.saturating_add(1);
        if self.script.repeats && self.took >= self.script.owed.len() {
            self.took = self.script.opening.owed;
            self.rounds = self.rounds.saturating_add(1);
        }
    }

    fn is_free(&self, place: usize) -> bool {
        let (start, end) = self.script.free;
        start <= place && place < end
    }

    // What it reads and asks up to this time.
    fn go_on(&mut self, now: u64) {
        self.tried_at = now;
        self.read(now);
        if self.manner.asks && self.waits_for == 0 && now >= self.asked_at {
            self.ask();
        }
    }

    fn read(&mut self, now: u64) {
        let n = match now
            .saturating_sub(self.read_at)
            .checked_div(self.manner.every)
        {
            None => self.unread,
            Some(times) => {
                let micros = times.saturating_mul(self.manner.every);
                self.read_at = self.read_at.saturating_add(micros);
                let most = usize::try_from(times).unwrap_or(usize::MAX);
                self.unread.min(most.saturating_mul(self.manner.reads))
            }
        };
        self.unread = self.unread.saturating_sub(n);
        if n > 0 {
            self.received(now, n);
        }
    }

    // So many bytes of the reply under way came.
    fn received(&mut self, now: u64, n: usize) {
        if self.waits_for == 0 {
            return;
        }
        self.waits_for = self.waits_for.saturating_sub(n);
        if self.waits_for == 0 {
            self.replies = self.replies.saturating_add(1);
            self.slowest = self.slowest.max(now.saturating_sub(self.asked_at));
            self.asked_at = now.saturating_add(self.manner.thinks);
        }
    }

    // It sends its opening, or a command.
    fn ask(&mut self) {
        let next = self.next();
        self.released = next.sent;
        self.waits_for = next.owed;
    }

    fn next(&self) -> Span {
        if self.place == 0 {
            self.script.opening
        } else if self.is_over() {
            Span { sent: 0, owed: 0 }
        } else {
            self.script.command
        }
    }

    /// How long the reply that it waits for took, or the slowest one.
    pub fn slowest_by(&self, now: u64) -> u64 {
        if self.waits_for > 0 {
            self.slowest.max(now.saturating_sub(self.asked_at))
        } else {
            self.slowest
        }
    }
}
