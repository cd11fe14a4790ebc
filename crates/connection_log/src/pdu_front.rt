//! The first bytes of the PDU under way in one direction of a stream.
ghost use Rattle.std.specs.Prelude.{◌≡◌, ◌+◌, ◌-◌, ◌≤◌, ◌<◌, ◌++◌, ℕ, List, [], IfOk, length, min, take, true};
ghost use Rattle.connection_log.specs.Reading.{HasRead, IsInOrder, ReadsOn};
ghost use Rattle.connection_log.specs.Reading.{at_first, is_whole, pdu_len, with_bytes};

use nvt_fields::u32_at;
use std::alloc::{AllocError, Global};
use std::marker::Model;

// The length of a common header (TCP Transport 1.0, section 3.6).
const HEADER_LEN: u32 = 8;

// Where PLEN stands in it.
const PLEN_AT: usize = 4;

/// A reader of one direction of a connection, which is whole PDUs, one behind another: it keeps the first bytes of the
/// PDU under way, or of the last one where none is, and jumps over the rest. It allocates when it is made, and never
/// again.
#[derive(Drop)]
pub struct PduFront {
    front: Vec<u8>,
    most: usize,
    // How many bytes of the PDU came.
    came: u32,
}

impl Model for PduFront {
    ghost use Rattle.std.specs.Prelude.{◌≤◌, vec_capacity};
    ghost use Rattle.connection_log.specs.Reading.{IsInOrder, Reading};

    ghost Value = { Reading };

    ghost view = { λ r. record { most = r.most; came = r.came; front = r.front.items } };

    ghost invariant = { λ r. (r.most ≤ vec_capacity r.front)
        × IsInOrder (record { most = r.most; came = r.came; front = r.front.items }) };
}

impl PduFront {
    /// Before the first byte. It keeps at most so many bytes of a PDU, which are 24 at least.
    pub fn new(alloc: Global, most: usize) -> Result<PduFront, AllocError>
        requires { 24 ≤ most }
        ensures first { IfOk result (λ reader. reader ≡ at_first most) }
        ensures stream { IfOk result (λ reader. HasRead reader []) }
    {
        Ok(PduFront {
            front: Vec::with_capacity(alloc, most)?,
            most,
            came: 0,
        })
    }

    /// Begins another stream.
    pub fn clear(&mut self)
        ensures first { self.new ≡ at_first self.old.most }
        ensures stream { HasRead self.new [] }
    {
        self.front.clear();
        self.came = 0;
    }

    /// Reads on, at most to the end of the PDU under way, and answers how many of the bytes it read. Where that is
    /// whole already, a new one begins with the first of them. A PDU whose PLEN is less than 8 ends with its header.
    pub fn read(&mut self, bytes: &[u8]) -> usize
        ensures reads { ReadsOn self.old bytes.now result self.new }
        ensures stream { (before : List ℕ) → HasRead self.old before
            → HasRead self.new (before ++ take result bytes.now) }
    {
        if bytes.is_empty() {
            return 0;
        }
        if self.is_whole() {
            self.clear();
        }
        if self.came == 0 && bytes.len() >= HEADER_LEN as usize {
            return self.read_first(bytes);
        }
        let header = self.read_to(HEADER_LEN, bytes);
        if self.came < HEADER_LEN {
            return header;
        }
        let len = self.pdu_len();
        header + self.read_to(len, &bytes[header..])
    }

    /// Whether the PDU under way is whole. Before the first byte none is.
    pub fn is_whole(&self) -> bool
        ensures whole { result ≡ is_whole self.now }
        ensures in_order { IsInOrder self.now }
    {
        self.came >= HEADER_LEN && self.came >= self.pdu_len()
    }

    /// The first bytes of the PDU under way, as far as they came, or of the last one where none is.
    pub fn front(&self) -> &[u8]
        ensures front { result.now ≡ self.now.front }
        ensures len { length result.now ≡ min self.now.came self.now.most }
    {
        self.front.as_slice()
    }

    // The length of the PDU under way.
    fn pdu_len(&self) -> u32
        requires { 8 ≤ self.now.came }
        ensures { result ≡ pdu_len self.now.front }
    {
        u32_at(&self.front, PLEN_AT).max(HEADER_LEN)
    }

    // Reads the PDU that begins with these bytes, to its end at most.
    fn read_first(&mut self, bytes: &[u8]) -> usize
        requires header { 8 ≤ length bytes.now }
        requires first { self.old.came ≡ 0 }
        ensures number { result ≡ min (pdu_len bytes.now) (length bytes.now) }
        ensures after { self.new ≡ with_bytes (take result bytes.now) self.old }
    {
        let len = u32_at(bytes, PLEN_AT).max(HEADER_LEN);
        let n = (len as usize).min(bytes.len());
        self.front
            .extend_from_slice(&bytes[..n.min(self.most)])
            .unwrap();
        self.came = n as u32;
        n
    }

    // Reads on to that place in the PDU under way, at its end at most, or to the last of these bytes.
    fn read_to(&mut self, place: u32, bytes: &[u8]) -> usize
        requires end { place ≤ pdu_len self.old.front }
        requires header { 8 < place → 8 ≤ self.old.came }
        ensures number { result ≡ min (place - self.old.came) (length bytes.now) }
        ensures after { self.new ≡ with_bytes (take result bytes.now) self.old }
    {
        let n = (place.saturating_sub(self.came) as usize).min(bytes.len());
        let room = self.most - self.front.len();
        self.front.extend_from_slice(&bytes[..n.min(room)]).unwrap();
        self.came += n as u32;
        n
    }
}
