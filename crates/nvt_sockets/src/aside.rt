//! Hosts whose slot was closed before all that was taken for them was sent.
ghost use Rattle.std.specs.Prelude.{◌≡◌, ◌<◌, length};

use crate::host::HostSocket;
use crate::hosts::HostSockets;
use crate::network::{Network, Received};
use nvt_ports::{Linger, Lingering, LingeringHost, SLOTS};
use std::alloc::{AllocError, Global};

/// A host that was put aside, or none.
#[derive(Drop)]
struct Aside<S> {
    host: HostSocket<S>,
    linger: Linger,
    // Whether it was told that nothing more is sent.
    is_shut: bool,
}

impl<S: Drop> Aside<S> {
    // Answers whether something went to it.
    fn go_on<N: Network<Stream = S>>(
        &mut self,
        network: &mut N,
        now: u64,
        scratch: &mut [u8],
    ) -> bool {
        let host = LingeringHost {
            has_socket: self.host.has_socket(),
            keeps: self.host.keeps(),
            is_ended: self.host.is_ended(),
        };
        match self.linger.at(now, host) {
            Lingering::Over => self.host.forget(),
            Lingering::Sends => return self.host.call(network, true).is_moving,
            Lingering::Drains => self.drain(network, scratch),
        }
        false
    }

    fn drain<N: Network<Stream = S>>(&mut self, network: &mut N, scratch: &mut [u8]) {
        if !self.is_shut {
            self.host.shut(network);
            self.is_shut = true;
        }
        match self.host.receive(network, scratch) {
            Received::Nothing | Received::Bytes(_) => {}
            Received::End | Received::Reset | Received::Gone => self.host.forget(),
        }
    }
}

/// The hosts that were put aside, at most as many as there are slots. One after another is closed: when all is sent and
/// it has closed its side, after two seconds, or when there is no room for another.
#[derive(Drop)]
pub struct Asides<S> {
    asides: Vec<Aside<S>>,
    // Whose place is taken where all are.
    oldest: usize,
    // A bit for each place that is taken.
    taken: u64,
    // Whose turn it is.
    turn: usize,
    ghost whole: { length asides.items ≡ 64 },
    ghost within: { oldest < 64 },
    ghost turning: { turn < 64 },
}

impl<S: Drop> Asides<S> {
    /// None yet.
    pub fn new(alloc: Global) -> Result<Asides<S>, AllocError> {
        let mut asides = Vec::with_capacity(alloc, SLOTS)?;
        for _ in 0..SLOTS {
            asides.push(Aside {
                host: HostSocket::new(alloc)?,
                linger: Linger::begun(0),
                is_shut: false,
            })?;
        }
        Ok(Asides {
            asides,
            oldest: 0,
            taken: 0,
            turn: 0,
        })
    }

    /// Puts the host of a slot aside, so that the slot is free.
    pub fn put(&mut self, hosts: &mut HostSockets<S>, slot: usize, now: u64)
        requires { slot < 64 }
    {
        let free = (!self.taken).trailing_zeros() as usize;
        let place = if free < SLOTS { free } else { self.oldest };
        let aside = &mut self.asides[place];
        hosts.swap_out(slot, &mut aside.host);
        aside.linger = Linger::begun(now);
        aside.is_shut = false;
        self.oldest = (place + 1) % SLOTS;
        self.taken |= 1 << place;
    }

    /// Whether there is none.
    pub fn is_empty(&self) -> bool {
        self.taken == 0
    }

    /// Goes on with the one whose turn it is, and answers whether something went to it. The buffer is used, and holds nothing
    /// then. So each has its turn in 64 calls.
    pub fn go_on<N: Network<Stream = S>>(&mut self, network: &mut N, scratch: &mut [u8]) -> bool {
        if self.taken == 0 {
            return false;
        }
        let place = self.next_place();
        let now = network.micros();
        let is_moving = self.asides[place].go_on(network, now, scratch);
        if self.asides[place].host.is_absent() {
            self.taken &= !(1 << place);
        }
        is_moving
    }

    // The next place that is taken.
    fn next_place(&mut self) -> usize
        ensures { result < 64 }
    {
        let ahead = self.taken.rotate_right(self.turn as u32).trailing_zeros() as usize;
        let place = (self.turn + ahead) % SLOTS;
        self.turn = (place + 1) % SLOTS;
        place
    }
}
