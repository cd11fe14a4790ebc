//! All sockets, and the slots that are in use.
ghost use Rattle.std.specs.Prelude.{◌≡◌, ◌<◌, ◌≤◌, IfOk, IfSome, length, replicate, slice_index_or, slice_set, false, true, ℕ, List};
ghost use Rattle.nvt_sockets.specs.HandsOut.{Tries};

use crate::aside::Asides;
use crate::control::Control;
use crate::editor::Heard;
use crate::hosts::{Calls, HostSockets};
use crate::journal::Journal;
use crate::listeners::{AcceptedHost, Listeners};
use crate::network::{Network, Received};
use crate::speech::Speech;
use connection_log::Ending;
use nvt_config::Config;
use nvt_ports::{GivenUp, PortEvent, PortFault, SLOTS, Speaker};
use std::alloc::Global;
use std::io;

/// What came of a try of a socket.
#[derive(Clone, Copy)]
pub enum Tried {
    Nothing,
    /// A connection came or went that no event tells of.
    Heard,
    /// More of the configuration was shown to an editor, which began at this time, in microseconds.
    Shown { since: u64 },
    Event(PortEvent),
}

/// The sockets of the ports.
#[derive(Drop)]
pub struct Sockets<L, S> {
    /// Whether each slot is in use: open, and not closed.
    pub in_use: [bool; SLOTS],
    /// How many hosts were gone without a word.
    pub gone: u64,
    control: Control<L, S>,
    listeners: Listeners<L>,
    hosts: HostSockets<S>,
    asides: Asides<S>,
}

impl<L: Drop, S: Drop> Sockets<L, S> {
    /// Listens for lines of edits, on this port. Fails where it cannot be listened to, or memory runs out.
    pub fn open<N: Network<Listener = L, Stream = S>>(
        network: &mut N,
        alloc: Global,
        control: u16,
    ) -> io::Result<Sockets<L, S>>
        ensures { IfOk result (λ sockets. sockets.in_use ≡ replicate 64 false) }
    {
        Ok(Sockets {
            in_use: [false; SLOTS],
            gone: 0,
            control: Control::open(network, alloc, control)?,
            listeners: Listeners::new(alloc)?,
            hosts: HostSockets::new(alloc)?,
            asides: Asides::new(alloc)?,
        })
    }

    /// Listens for hosts at the ports of this configuration, which editors are shown from here on.
    pub fn refresh<N: Network<Listener = L, Stream = S>>(
        &mut self,
        network: &mut N,
        speech: &mut Speech,
        config: &Config,
    )
        ensures { self.new.in_use ≡ self.old.in_use }
    {
        self.listeners.refresh(network, speech, config);
        self.control.refresh(config);
    }

    /// A call begins: what is kept for hosts is sent, is joined with more, or waits.
    pub fn call<N: Network<Listener = L, Stream = S>>(
        &mut self,
        network: &mut N,
        room: &[usize; SLOTS],
    ) -> Calls
        ensures { self.new.in_use ≡ self.old.in_use }
    {
        self.hosts.call(network, room)
    }

    /// Goes on with a host that was put aside, and answers whether something went to it.
    pub fn go_on<N: Network<Listener = L, Stream = S>>(
        &mut self,
        network: &mut N,
        scratch: &mut [u8],
    ) -> bool
        ensures { self.new.in_use ≡ self.old.in_use }
    {
        self.asides.go_on(network, scratch)
    }

    /// Whether a host is put aside.
    pub fn has_asides(&self) -> bool {
        !self.asides.is_empty()
    }

    /// Closes each slot for whose host something is kept.
    pub fn close_kept(&mut self, now: u64) {
        for slot in 0..SLOTS {
            if self.hosts.keeps(slot) {
                self.close(slot, now);
            }
        }
    }

    /// Tries one socket. It is told what comes of it.
    pub fn try_speaker<N: Network<Listener = L, Stream = S>>(
        &mut self,
        network: &mut N,
        journal: &mut Journal,
        speaker: Speaker,
        room: &[usize; SLOTS],
        buf: &mut [u8],
    ) -> Tried
        requires { 1025 ≤ length buf.old }
        ensures { Tries self.old.in_use room.now (length buf.old) result self.new.in_use }
    {
        match speaker {
            Speaker::Host(slot) => self.try_host(network, journal, slot, room, buf),
            Speaker::Port(place) => self.try_port(network, journal, place),
            Speaker::Control => {
                if self.control.accept(network, buf) {
                    Tried::Heard
                } else {
                    Tried::Nothing
                }
            }
            Speaker::Editor(place) => match self.control.take_line(network, place, buf) {
                Heard::Nothing => Tried::Nothing,
                Heard::Something => Tried::Heard,
                Heard::Shown { since } => Tried::Shown { since },
                Heard::Line(n) => {
                    journal.asked(&buf[..n]);
                    Tried::Event(PortEvent::Line { n })
                }
            },
        }
    }

    fn try_host<N: Network<Listener = L, Stream = S>>(
        &mut self,
        network: &mut N,
        journal: &mut Journal,
        slot: usize,
        room: &[usize; SLOTS],
        buf: &mut [u8],
    ) -> Tried
        ensures { Tries self.old.in_use room.now (length buf.old) result self.new.in_use }
    {
        if slot >= SLOTS {
            return Tried::Nothing;
        }
        match self.hosts.read(network, slot, room[slot], buf) {
            Received::Nothing => Tried::Nothing,
            Received::Bytes(n) => {
                journal.received(slot, &buf[..n]);
                Tried::Event(PortEvent::Bytes { slot, n })
            }
            Received::End => {
                journal.ends(slot, Ending::Closed);
                Tried::Event(PortEvent::End { slot })
            }
            Received::Reset => {
                journal.ends(slot, Ending::Reset);
                Tried::Event(PortEvent::End { slot })
            }
            Received::Gone => {
                self.gone = self.gone.saturating_add(1);
                journal.ends(slot, Ending::Gone);
                Tried::Event(PortEvent::End { slot })
            }
        }
    }

    // A host that finds no slot free is closed at once, so that it does not wait.
    fn try_port<N: Network<Listener = L, Stream = S>>(
        &mut self,
        network: &mut N,
        journal: &mut Journal,
        place: usize,
    ) -> Tried
        ensures { (room : List ℕ) → (len : ℕ) → Tries self.old.in_use room len result self.new.in_use }
    {
        let Some(AcceptedHost { stream, peer, port }) = self.listeners.accept(network, place) else {
            return Tried::Nothing;
        };
        let Some(slot) = free_slot(&self.in_use) else {
            journal.found_no_slot(network, peer, port);
            return Tried::Heard;
        };
        journal.opened(network, slot, peer, port);
        self.hosts.open(slot, stream);
        self.in_use[slot] = true;
        Tried::Event(PortEvent::Open { slot, port })
    }

    /// The time is this, in ms: why the host of a slot is given up, if it is. The target has ended its connection where there
    /// is no room for it.
    pub fn tick(&mut self, slot: usize, ms: u64, room: usize) -> Option<GivenUp>
        requires { slot < 64 }
        ensures { self.new.in_use ≡ self.old.in_use }
    {
        if self.in_use[slot] {
            self.hosts.tick(slot, ms, room == 0)
        } else {
            None
        }
    }

    /// Takes the first of these bytes for the host of a slot.
    pub fn give<N: Network<Listener = L, Stream = S>>(
        &mut self,
        network: &mut N,
        slot: usize,
        bytes: &[u8],
    ) -> Result<usize, PortFault>
        requires { slot < 64 }
        ensures taken { IfOk result (λ n. n ≤ length bytes.now) }
        ensures in_use { self.new.in_use ≡ self.old.in_use }
    {
        self.hosts.give(network, slot, bytes)
    }

    /// Closes a slot; its host is put aside until what was taken for it is sent.
    pub fn close(&mut self, slot: usize, now: u64)
        requires { slot < 64 }
        ensures { self.new.in_use ≡ slice_set self.old.in_use slot false }
    {
        self.in_use[slot] = false;
        self.asides.put(&mut self.hosts, slot, now);
    }

    /// Answers the line that was handed out last.
    pub fn reply<N: Network<Listener = L, Stream = S>>(&mut self, network: &mut N, text: &[u8])
        ensures { self.new.in_use ≡ self.old.in_use }
    {
        self.control.reply(network, text);
    }
}

// The least slot that is not in use.
fn free_slot(in_use: &[bool; SLOTS]) -> Option<usize>
    ensures within { IfSome result (λ slot. slot < 64) }
    ensures free { IfSome result (λ slot. slice_index_or in_use.now slot true ≡ false) }
{
    for slot in 0..SLOTS {
        if !in_use[slot] {
            return Some(slot);
        }
    }
    None
}
