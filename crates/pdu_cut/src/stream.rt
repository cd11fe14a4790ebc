//! The bytes that came to one side of a connection and that no step has consumed.
ghost use Rattle.std.specs.Prelude.{◌≡◌, ◌-◌, ◌≤◌, [], ◌++◌, IfOk, length, take, drop, min};
ghost use Rattle.pdu_cut.specs.Cut.{IfPdu, front_shown};
ghost use Rattle.pdu_cut.specs.Front.{BeginsWithPdu, front};
ghost use Rattle.pdu_cut.specs.Side.{capacity_of};
ghost use Rattle.pdu_cut.specs.Short.{IsShort};

use crate::receiver::Receiver;
use crate::{Cut, RxBuf};
use std::alloc::{AllocError, Global};
use std::marker::{Model, PhantomData};

/// A receive buffer of the side `S`.
#[derive(Debug, Drop)]
pub struct Stream<S: Receiver> {
    buffer: RxBuf,
    of: PhantomData<S>,
}

impl<S: Receiver> Model for Stream<S> {
    ghost use Rattle.std.specs.Prelude.{◌≡◌, List, ℕ};

    ghost Value = { List ℕ };

    ghost view = { λ s. s.buffer.held };

    ghost invariant = { λ s. s.buffer.side ≡ S.side };
}

impl<S: Receiver> Stream<S> {
    /// A stream of which nothing came. It allocates here, and never again.
    pub fn new(alloc: Global) -> Result<Stream<S>, AllocError>
        ensures { IfOk result (λ stream. stream ≡ []) }
    {
        Ok(Stream {
            buffer: RxBuf::new(alloc, S::side())?,
            of: PhantomData,
        })
    }

    /// How many more bytes it has room for.
    pub fn room(&self) -> usize
        ensures { result ≡ capacity_of S.side - length self.now }
    {
        self.buffer.room()
    }

    /// Takes as many of the piece's first bytes as it has room for, and returns their number.
    pub fn receive(&mut self, piece: &[u8]) -> usize
        ensures taken { let room = capacity_of S.side - length self.old in
            result ≡ min room (length piece.now) }
        ensures held { self.new ≡ self.old ++ take result piece.now }
    {
        self.buffer.receive(piece)
    }

    /// What stands at its front.
    #[tactic(auto, using(crate::proofs::Short::is_short))]
    pub fn peek(&self) -> Cut<'_>
        ensures front { front_shown result ≡ front S.side self.now }
        ensures whole { IfPdu result (BeginsWithPdu S.side self.now) }
        ensures short { IsShort (front_shown result) }
    {
        self.buffer.peek()
    }

    /// Removes the first `len` bytes.
    pub fn consume(&mut self, len: usize)
        requires { len ≤ length self.old }
        ensures { self.new ≡ drop len self.old }
    {
        self.buffer.consume(len);
    }
}
