//! What was taken for a host and is not sent yet.
ghost use Rattle.std.specs.Prelude.{◌≡◌, ◌+◌, ◌-◌, ◌^◌, ◌≤◌, ◌==◌, false, length, min, take, IfOk};
ghost use Rattle.nvt_ports.specs.Kept.{emptied, kept_after, room_of, sent_of};

use crate::backoff::Backoff;
use crate::send_buffer::SendBuffer;
use crate::sending::{KEPT_MAX, Sending, Standing, Taking};
use std::alloc::{AllocError, Global};

/// The bytes that wait for a host, how many of them were taken since the call before, and when its socket is tried. It
/// allocates when it is made, and never again.
#[derive(Drop)]
pub struct Outbox {
    pub kept: SendBuffer,
    pub taken: usize,
    pub backoff: Backoff,
}

impl Outbox {
    ghost use Rattle.nvt_ports.specs.Outbox.{IsTried, standing_of};
    ghost use Rattle.nvt_ports.specs.Sending.{Decides, Takes};

    /// Nothing waits.
    pub fn new(alloc: Global) -> Result<Outbox, AllocError>
        ensures kept { IfOk result (λ outbox. outbox.kept ≡ emptied 393216) }
        ensures taken { IfOk result (λ outbox. outbox.taken ≡ 0) }
    {
        Ok(Outbox {
            kept: SendBuffer::new(alloc, KEPT_MAX)?,
            taken: 0,
            backoff: Backoff::new(),
        })
    }

    /// Forgets what waits.
    pub fn clear(&mut self)
        ensures kept { self.new.kept ≡ emptied self.old.kept.capacity }
        ensures taken { self.new.taken ≡ 0 }
    {
        self.kept.clear();
        self.taken = 0;
        self.backoff = Backoff::new();
    }

    /// The bytes that wait.
    pub fn waiting(&self) -> &[u8]
        ensures { result.now ≡ self.now.kept.waiting }
    {
        self.kept.waiting()
    }

    pub fn is_empty(&self) -> bool
        ensures { result ≡ (length self.now.kept.waiting == 0) }
    {
        self.kept.is_empty()
    }

    fn standing(&self, is_answered: bool) -> Standing
        ensures { result ≡ standing_of is_answered self.now }
    {
        Standing {
            kept: self.kept.len(),
            room: self.kept.room(),
            taken: self.taken,
            is_answered,
            is_due: self.backoff.is_due(),
        }
    }

    /// What becomes of so many bytes that are offered.
    pub fn taking(&mut self, offered: usize) -> Taking
        ensures taking { Takes offered result (standing_of false self.old) }
        ensures kept { self.new.kept ≡ self.old.kept }
        ensures taken { self.new.taken ≡ self.old.taken }
        ensures waits { result ≡ Taking.Nothing → self.new.backoff.left ≡ self.old.backoff.left - 1 }
    {
        let taking = self.standing(false).taking(offered);
        if taking == Taking::Nothing {
            self.backoff.pass();
        }
        taking
    }

    /// Keeps the first of these bytes, and answers how many.
    pub fn keep(&mut self, bytes: &[u8]) -> usize
        ensures within { result ≤ length bytes.now }
        ensures most { result ≡ min (length bytes.now) (room_of self.old.kept) }
        ensures kept { self.new.kept ≡ kept_after (take result bytes.now) self.old.kept }
        ensures taken { self.new.taken ≡ min (self.old.taken + result) (2 ^ 64 - 1) }
    {
        let n = self.kept.keep(bytes);
        self.taken = self.taken.saturating_add(n);
        n
    }

    /// A call begins: what becomes of the bytes that wait, where all that the host sent is answered or not.
    pub fn call(&mut self, is_answered: bool) -> Sending
        ensures sending { Decides result (standing_of is_answered self.old) }
        ensures kept { self.new.kept ≡ self.old.kept }
        ensures taken { self.new.taken ≡ 0 }
        ensures waits { result ≡ Sending.Waits → self.new.backoff.left ≡ self.old.backoff.left - 1 }
    {
        let sending = self.standing(is_answered).sending();
        if sending == Sending::Waits {
            self.backoff.pass();
        }
        self.taken = 0;
        sending
    }

    /// The socket was tried with what waits, and took so many bytes.
    pub fn sent(&mut self, n: usize)
        requires { n ≤ length self.old.kept.waiting }
        ensures kept { self.new.kept ≡ sent_of n self.old.kept }
        ensures taken { self.new.taken ≡ self.old.taken }
        ensures backoff { IsTried n self.old.backoff self.new.backoff }
    {
        self.kept.sent(n);
        self.backoff.tried(n);
    }

    /// The socket was tried with bytes that were not kept, and took so many.
    pub fn sent_directly(&mut self, n: usize)
        ensures kept { self.new.kept ≡ self.old.kept }
        ensures taken { self.new.taken ≡ self.old.taken }
        ensures backoff { IsTried n self.old.backoff self.new.backoff }
    {
        self.backoff.tried(n);
    }
}
