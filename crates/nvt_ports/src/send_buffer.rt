//! Bytes that were taken and wait to be sent.
ghost use Rattle.std.specs.Prelude.{◌≡◌, ◌+◌, ◌*◌, ◌≤◌, ◌==◌, length, take, min, IfOk};

use crate::front::remove_first;
use std::alloc::{AllocError, Global};
use std::marker::Model;

/// Bytes that wait to be sent, in the order in which they were taken. The buffer allocates when it is made, and
/// never again. What was sent gives its room back once all is sent, or once it is half of the capacity: what waits is
/// then moved to the front, which is at most one byte for each that was sent.
#[derive(Drop)]
pub struct SendBuffer {
    bytes: Vec<u8>,
    // How many of them were sent.
    start: usize,
    capacity: usize,
}

impl Model for SendBuffer {
    ghost use Rattle.std.specs.Prelude.{◌≤◌, ◌*◌, drop, vec_len, vec_capacity};
    ghost use Rattle.nvt_ports.specs.Kept.{Kept};

    ghost Value = { Kept };

    ghost view = { λ b. record { waiting = drop b.start b.bytes.items; spent = b.start; capacity = b.capacity } };

    ghost invariant = { λ b. (b.start ≤ vec_len b.bytes) × (vec_len b.bytes ≤ b.capacity)
        × (b.capacity ≤ vec_capacity b.bytes) × (b.start * 2 ≤ b.capacity) };
}

impl SendBuffer {
    ghost use Rattle.nvt_ports.specs.Kept.{emptied, kept_after, room_of, sent_of};

    /// A buffer of so many bytes, which is empty.
    pub fn new(alloc: Global, capacity: usize) -> Result<SendBuffer, AllocError>
        ensures { IfOk result (λ buffer. buffer ≡ emptied capacity) }
    {
        Ok(SendBuffer {
            bytes: Vec::with_capacity(alloc, capacity)?,
            start: 0,
            capacity,
        })
    }

    /// The bytes that wait.
    pub fn waiting(&self) -> &[u8]
        ensures { result.now ≡ self.now.waiting }
    {
        &self.bytes.as_slice()[self.start..]
    }

    /// How many bytes wait.
    pub fn len(&self) -> usize
        ensures { result ≡ length self.now.waiting }
    {
        self.bytes.len() - self.start
    }

    /// Whether nothing waits.
    pub fn is_empty(&self) -> bool
        ensures { result ≡ (length self.now.waiting == 0) }
    {
        self.len() == 0
    }

    /// How many more bytes it takes: at least half of the capacity, less those that wait.
    pub fn room(&self) -> usize
        ensures room { result ≡ room_of self.now }
        ensures half { self.now.capacity ≤ (result + length self.now.waiting) * 2 }
    {
        self.capacity - self.bytes.len()
    }

    /// Takes as many of the first bytes as there is room for, and answers how many.
    pub fn keep(&mut self, bytes: &[u8]) -> usize
        ensures taken { result ≡ min (length bytes.now) (room_of self.old) }
        ensures kept { self.new ≡ kept_after (take result bytes.now) self.old }
    {
        let taken = bytes.len().min(self.capacity - self.bytes.len());
        self.bytes.extend_from_slice(&bytes[..taken]).unwrap();
        taken
    }

    /// So many of the bytes that waited were sent.
    pub fn sent(&mut self, n: usize)
        requires { n ≤ length self.old.waiting }
        ensures sent { self.new ≡ sent_of n self.old }
        ensures half { self.new.capacity ≤ (room_of self.new + length self.new.waiting) * 2 }
    {
        self.start += n;
        if self.start == self.bytes.len() || self.capacity - self.start <= self.start {
            remove_first(&mut self.bytes, self.start);
            self.start = 0;
        }
    }

    /// Forgets what waits.
    pub fn clear(&mut self)
        ensures { self.new ≡ emptied self.old.capacity }
    {
        self.bytes.clear();
        self.start = 0;
    }
}
