//! The hosts of all slots.
ghost use Rattle.std.specs.Prelude.{◌≡◌, ◌<◌, ◌≤◌, IfOk, length};
ghost use Rattle.nvt_sockets.specs.HandsOut.{FitsPiece};

use crate::host::{HostSocket, SentBytes};
use crate::network::{Network, Received};
use nvt_ports::{GivenUp, PIECE_MAX, PortFault, SLOTS, Sending};
use std::alloc::{AllocError, Global};

/// What came of a call for all hosts.
#[derive(Clone, Copy)]
pub struct Calls {
    /// Whether replies of some are joined.
    pub joins: bool,
    /// How many bytes were taken for these since the call before.
    pub taken: usize,
    /// Whether a socket took some in this call.
    pub is_moving: bool,
}

/// A host, or none, in each slot.
#[derive(Drop)]
pub struct HostSockets<S> {
    hosts: Vec<HostSocket<S>>,
    // A bit for each slot for whose host something is kept.
    kept: u64,
    ghost whole: { length hosts.items ≡ 64 },
}

impl<S: Drop> HostSockets<S> {
    /// None yet.
    pub fn new(alloc: Global) -> Result<HostSockets<S>, AllocError> {
        let mut hosts = Vec::with_capacity(alloc, SLOTS)?;
        for _ in 0..SLOTS {
            hosts.push(HostSocket::new(alloc)?)?;
        }
        Ok(HostSockets { hosts, kept: 0 })
    }

    /// One has connected, in a slot that is free.
    pub fn open(&mut self, slot: usize, stream: S)
        requires { slot < 64 }
    {
        self.hosts[slot].open(stream);
    }

    /// Whether something is kept for the host of a slot.
    pub fn keeps(&self, slot: usize) -> bool
        requires { slot < 64 }
    {
        self.hosts[slot].keeps()
    }

    /// Reads some of what the host of a slot sent, where there is so much room for it.
    pub fn read<N: Network<Stream = S>>(
        &mut self,
        network: &mut N,
        slot: usize,
        room: usize,
        buf: &mut [u8],
    ) -> Received
        requires { slot < 64 }
        ensures room { FitsPiece room result }
        ensures buf { FitsPiece (length buf.old) result }
    {
        self.hosts[slot].read(network, room, buf)
    }

    /// Takes the first of these bytes for the host of a slot.
    pub fn give<N: Network<Stream = S>>(
        &mut self,
        network: &mut N,
        slot: usize,
        bytes: &[u8],
    ) -> Result<usize, PortFault>
        requires { slot < 64 }
        ensures { IfOk result (λ n. n ≤ length bytes.now) }
    {
        let given = self.hosts[slot].give(network, bytes);
        if self.hosts[slot].keeps() {
            self.kept |= bit(slot);
        }
        given
    }

    /// A call begins: what is kept for each host is sent, is joined with more, or waits. A stream that there is all room for
    /// is answered as far as it came.
    pub fn call<N: Network<Stream = S>>(
        &mut self,
        network: &mut N,
        room: &[usize; SLOTS],
    ) -> Calls {
        let mut calls = Calls {
            joins: false,
            taken: 0,
            is_moving: false,
        };
        let mut left = self.kept;
        for _ in 0..SLOTS {
            let slot = left.trailing_zeros() as usize;
            if slot >= SLOTS {
                return calls;
            }
            left &= !bit(slot);
            calls = with(calls, self.call_one(network, slot, room[slot] >= PIECE_MAX));
        }
        calls
    }

    fn call_one<N: Network<Stream = S>>(
        &mut self,
        network: &mut N,
        slot: usize,
        is_answered: bool,
    ) -> SentBytes
        requires { slot < 64 }
    {
        let sent = self.hosts[slot].call(network, is_answered);
        if !self.hosts[slot].keeps() {
            self.kept &= !bit(slot);
        }
        sent
    }

    /// The time is this, in ms: why the host of a slot is given up, if it is, its connection being ended by the target or
    /// not.
    pub fn tick(&mut self, slot: usize, ms: u64, is_ended: bool) -> Option<GivenUp>
        requires { slot < 64 }
    {
        self.hosts[slot].tick(ms, is_ended)
    }

    /// Leaves the host of a slot in the place of another, which is none.
    pub fn swap_out(&mut self, slot: usize, place: &mut HostSocket<S>)
        requires { slot < 64 }
    {
        place.forget();
        std::mem::swap(&mut self.hosts[slot], place);
        self.kept &= !bit(slot);
    }
}

fn bit(slot: usize) -> u64
    requires { slot < 64 }
{
    1 << slot
}

// With what came of the call for one host more.
fn with(calls: Calls, sent: SentBytes) -> Calls {
    let joins = sent.sending == Sending::Joins;
    Calls {
        joins: calls.joins || joins,
        taken: if joins {
            calls.taken.saturating_add(sent.taken)
        } else {
            calls.taken
        },
        is_moving: calls.is_moving || sent.is_moving,
    }
}
