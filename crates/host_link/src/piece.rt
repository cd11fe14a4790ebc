//! Bytes on their way from a link to a queue.
ghost use Rattle.std.specs.Prelude.{◌≡◌, IfOk, []};
ghost use Rattle.host_link.specs.Conversation.{HandsOn};
ghost use Rattle.host_link.specs.Filling.{FillsBy};

use crate::link::{Link, LinkFault};
use host_driver::HostQueue;
use std::alloc::{AllocError, Global};
use std::marker::Model;

/// The most bytes that are received at a time.
const PIECE_MAX: usize = 65_536;

/// The bytes that came last, of which those from `start` to `end` are not taken yet.
#[derive(Drop)]
pub(crate) struct Piece {
    buffer: Vec<u8>,
    start: usize,
    end: usize,
}

impl Model for Piece {
    ghost use Rattle.std.specs.Prelude.{◌≤◌, ℕ, List, slice_range, vec_len};

    ghost Value = { List ℕ };

    ghost view = { λ p. slice_range p.buffer.items p.start p.end };

    ghost invariant = { λ p. (p.start ≤ p.end) × (p.end ≤ vec_len p.buffer) };
}

impl Piece {
    /// None yet.
    pub(crate) fn new(alloc: Global) -> Result<Piece, AllocError>
        ensures { IfOk result (λ piece. piece ≡ []) }
    {
        Ok(Piece {
            buffer: vec![in alloc; 0; PIECE_MAX]?,
            start: 0,
            end: 0,
        })
    }

    /// Receives bytes, where all that came before are taken.
    pub(crate) fn fill<L: Link>(&mut self, link: &mut L) -> Result<(), LinkFault>
        ensures { FillsBy result (L.state link.old) (L.state link.new) self.old self.new }
    {
        if self.start < self.end {
            return Ok(());
        }
        self.start = 0;
        self.end = 0;
        self.end = link.receive(&mut self.buffer)?;
        Ok(())
    }

    /// Hands the queue as many bytes as it has room for.
    pub(crate) fn give_to(&mut self, queue: &mut HostQueue)
        ensures { HandsOn self.old self.new queue.old queue.new }
    {
        self.start += queue.receive(&self.buffer[self.start..self.end]);
    }
}
