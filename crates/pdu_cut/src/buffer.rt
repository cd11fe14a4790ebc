//! The bytes that came to one side of a connection and are not consumed yet.
ghost use Rattle.std.specs.Prelude.{◌≡◌, ◌+◌, ◌-◌, ◌≤◌, [], ◌++◌, length, slice_range, take, drop, min, IfOk};
ghost use Rattle.pdu_cut.specs.Side.{capacity_of};

use crate::cut::Cut;
use crate::header::{COMMON_HEADER_LEN, CommonHeader, HeaderFault};
use crate::side::Side;
use crate::view::PduView;
use std::alloc::{AllocError, Global};
use std::marker::Model;

/// A receive buffer. It allocates when it is made, and never again. It holds the bytes from `start` to `end`;
/// those before are consumed, and go where the room behind runs short.
#[derive(Debug, Drop)]
pub struct RxBuf {
    side: Side,
    bytes: Vec<u8>,
    start: usize,
    end: usize,
}

impl Model for RxBuf {
    ghost use Rattle.std.specs.Prelude.{◌≡◌, ◌≤◌, length, slice_range};
    ghost use Rattle.pdu_cut.specs.Side.{capacity_of};
    ghost use Rattle.pdu_cut.specs.Received.{Received};

    ghost Value = { Received };

    ghost view = { λ b. record { side = b.side; held = slice_range b.bytes.items b.start b.end } };

    ghost invariant = { λ b. (b.start ≤ b.end) × (b.end ≤ length b.bytes.items)
        × (length b.bytes.items ≡ capacity_of b.side) };
}

impl RxBuf {
    ghost use Rattle.pdu_cut.specs.Front.{front, BeginsWithPdu};
    ghost use Rattle.pdu_cut.specs.Cut.{front_shown, IfPdu};

    /// An empty buffer for what this side receives.
    pub fn new(alloc: Global, side: Side) -> Result<RxBuf, AllocError>
        ensures { IfOk result (λ buffer. buffer ≡ record { side = side; held = [] }) }
    {
        Ok(RxBuf {
            side,
            bytes: vec![in alloc; 0; side.capacity()]?,
            start: 0,
            end: 0,
        })
    }

    /// How many more bytes it has room for.
    pub fn room(&self) -> usize
        ensures { result + length self.now.held ≡ capacity_of self.now.side }
    {
        self.side.capacity() - (self.end - self.start)
    }

    /// Takes as many of the piece's first bytes as it has room for, and returns their number.
    pub fn receive(&mut self, piece: &[u8]) -> usize
        ensures taken { let room = capacity_of self.old.side - length self.old.held in
            result ≡ min room (length piece.now) }
        ensures appended { let held = self.old.held ++ take result piece.now in
            self.new ≡ record self.old { held = held } }
    {
        let taken = self.room().min(piece.len());
        let held = self.end - self.start;
        let start = make_way(self.bytes.as_mut_slice(), self.start, self.end, taken);
        append(self.bytes.as_mut_slice(), start + held, &piece[..taken]);
        self.start = start;
        self.end = start + held + taken;
        taken
    }

    /// What stands at the front of the bytes held.
    pub fn peek(&self) -> Cut<'_>
        ensures front { front_shown result ≡ front self.now.side self.now.held }
        ensures whole { IfPdu result (λ pdu. BeginsWithPdu self.now.side self.now.held pdu) }
    {
        let bytes = self.held();
        if bytes.len() < COMMON_HEADER_LEN {
            return Cut::More;
        }
        let header = CommonHeader::read(bytes);
        match header.check(self.side) {
            Err(HeaderFault { fes, fei }) => Cut::Fault {
                fes,
                fei,
                head: &bytes[..COMMON_HEADER_LEN],
            },
            Ok(kind) => {
                let len = header.plen as usize;
                if bytes.len() < len {
                    Cut::More
                } else {
                    Cut::Pdu(PduView::new(kind, &bytes[..len]))
                }
            }
        }
    }

    fn held(&self) -> &[u8]
        ensures { result.now ≡ self.now.held }
    {
        &self.bytes.as_slice()[self.start..self.end]
    }

    /// Removes the first `len` bytes held.
    #[tactic(auto, using(crate::proofs::Ranges::shorter))]
    pub fn consume(&mut self, len: usize)
        requires { len ≤ length self.old.held }
        ensures { self.new ≡ record self.old { held = drop len self.old.held } }
    {
        self.start += len;
        if self.start == self.end {
            self.start = 0;
            self.end = 0;
        }
    }
}

/// Makes room for `len` bytes behind those from `start` to `end`, and returns where these begin then.
fn make_way(bytes: &mut [u8], start: usize, end: usize, len: usize) -> usize
    requires { (start ≤ end) × (end ≤ length bytes.old) × (end - start + len ≤ length bytes.old) }
    ensures held { slice_range bytes.new result (result + (end - start)) ≡ slice_range bytes.old start end }
    ensures room { result + (end - start) + len ≤ length bytes.new }
    ensures len { length bytes.new ≡ length bytes.old }
{
    if len <= bytes.len() - end {
        return start;
    }
    move_to_front(bytes, start, end);
    0
}

/// Moves the bytes from `start` to `end` to the front, so that all the room is behind them.
fn move_to_front(bytes: &mut [u8], start: usize, end: usize)
    requires { (start ≤ end) × (end ≤ length bytes.old) }
    ensures items { slice_range bytes.new 0 (end - start) ≡ slice_range bytes.old start end }
    ensures len { length bytes.new ≡ length bytes.old }
{
    let held = end - start;
    if held <= start {
        // They do not overlap, so that they are copied at once.
        let (front, back) = bytes.split_at_mut(start);
        front[..held].copy_from_slice(&back[..held]);
    } else {
        bytes.copy_within(start..end, 0);
    }
}

/// Writes a piece behind the first `end` bytes.
fn append(bytes: &mut [u8], end: usize, piece: &[u8])
    requires { end + length piece.now ≤ length bytes.old }
    ensures items { take (end + length piece.now) bytes.new ≡ take end bytes.old ++ piece.now }
    ensures len { length bytes.new ≡ length bytes.old }
{
    bytes[end..end + piece.len()].copy_from_slice(piece);
}
