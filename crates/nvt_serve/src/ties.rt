//! Which connection each slot has, and which connections a turn has to look at.
ghost use Rattle.std.specs.Prelude.{◌≡◌, ◌<◌, ◌≤◌, ◌≢◌, ℕ, MatchOption, None, Some, replicate, false};
ghost use Rattle.tables.specs.NumberTable.{place};
ghost use Rattle.nvt_serve.specs.Looks.{AreKnown, AreLooks, Edits, Forgets, ForgetsAlone, GivesRooms, NoneEnds};
ghost use Rattle.nvt_serve.specs.Looks.{Opens, Receives, RestsNow, SetsRoom, StepsIn, Ticks, Unties};
ghost use Rattle.nvt_serve.specs.Sets.{IsFirst, is_in};

use crate::connection_set::ConnectionSet;
use block_store::Disk;
use nvt_ports::SLOTS;
use target_core::{CONNECTIONS_MAX, Target};

/// The connection of each slot, from its opening until either is given up; how many bytes it may receive; and which
/// connections there may be something to do for, so that a turn looks at these alone.
#[derive(Drop)]
pub struct Ties {
    connections: [Option<usize>; SLOTS],
    // How many bytes the connection of each slot may receive unless it has ended; none where a slot has none.
    rooms: [usize; SLOTS],
    // The slot that each connection had last.
    slots: [usize; CONNECTIONS_MAX],
    known: ConnectionSet,
    // Those for which bytes came. No other is a queue of a controller, and beside its own connection a step, a tick or an end
    // ends queues alone.
    active: ConnectionSet,
    // Those that may have output, or something to step.
    ready: ConnectionSet,
    // Those that may have ended.
    ending: ConnectionSet,
}

impl Ties {
    /// The ties of a target that was not served yet: no slot has a connection.
    pub fn of<D: Disk + Drop>(target: &Target<D>) -> Ties
        ensures connections { result.connections ≡ replicate 64 None }
        ensures looks { AreLooks target.now result }
    {
        let known = known_of(target);
        Ties {
            connections: [None; SLOTS],
            rooms: [0; SLOTS],
            slots: [0; CONNECTIONS_MAX],
            known,
            active: known,
            ready: known,
            ending: known,
        }
    }

    /// The connection of a slot.
    pub fn connection(&self, slot: usize) -> Option<usize>
        ensures { result ≡ place self.now.connections slot }
    {
        self.connections.get(slot).copied().flatten()
    }

    /// The slot that has this connection.
    pub fn slot_of(&self, k: usize) -> Option<usize>
        ensures slot { MatchOption result ((slot : ℕ) → place self.now.connections slot ≢ Some k)
            (λ slot. place self.now.connections slot ≡ Some k) }
        ensures within { MatchOption result (Unit {0}) (λ slot. slot < 64) }
    {
        let last = self.last_slot(k);
        if last < SLOTS && self.connection(last) == Some(k) {
            return Some(last);
        }
        self.connections
            .iter()
            .position(|connection| *connection == Some(k))
    }

    fn last_slot(&self, k: usize) -> usize {
        self.slots.get(k).copied().unwrap_or(0)
    }

    /// How many bytes the connection of each slot may receive unless it has ended.
    pub fn rooms(&self) -> &[usize; SLOTS]
        ensures { result.now ≡ self.now.rooms }
    {
        &self.rooms
    }

    /// The least connection, no less than this, that is known.
    pub fn known_from(&self, least: usize) -> Option<usize>
        ensures { MatchOption result (Unit {0}) (λ k. (k < 64) × (least ≤ k)) }
    {
        self.known.first_from(least)
    }

    /// The least connection, no less than this, that may have output or something to step.
    pub fn ready_from(&self, least: usize) -> Option<usize>
        ensures { MatchOption result ((k : ℕ) → least ≤ k → is_in self.now.ready.bits k ≡ false)
            (λ k. IsFirst least k self.now.ready.bits) }
    {
        self.ready.first_from(least)
    }

    /// The least connection, no less than this, that may have ended.
    pub fn ending_from(&self, least: usize) -> Option<usize>
        ensures { MatchOption result ((k : ℕ) → least ≤ k → is_in self.now.ending.bits k ≡ false)
            (λ k. IsFirst least k self.now.ending.bits) }
    {
        self.ending.first_from(least)
    }

    /// A connection was opened in this slot, and has so much room.
    pub fn tie(&mut self, slot: usize, k: usize, room: usize)
        requires slot { slot < 64 }
        requires k { k < 64 }
        ensures { Opens slot k room self.old self.new }
    {
        self.connections[slot] = Some(k);
        self.rooms[slot] = room;
        self.slots[k] = slot;
        self.known.add(k);
    }

    /// The slot's connection was given up.
    pub fn untie(&mut self, slot: usize, k: usize)
        requires slot { slot < 64 }
        requires k { k < 64 }
        ensures { Unties slot k self.old self.new }
    {
        self.connections[slot] = None;
        self.rooms[slot] = 0;
        self.forget(k);
    }

    /// A connection without a slot was given up. Queues may have ended with it.
    pub fn forget(&mut self, k: usize)
        requires { k < 64 }
        ensures { ForgetsAlone k self.old self.new }
    {
        self.known.remove(k);
        self.active.remove(k);
        self.ready.remove(k);
        self.ending.join(self.active);
    }

    /// Bytes came for the connection of a slot, which has so much room left.
    pub fn came(&mut self, slot: usize, k: usize, room: usize)
        requires slot { slot < 64 }
        requires k { k < 64 }
        ensures { Receives slot k room self.old self.new }
    {
        self.rooms[slot] = room;
        self.active.add(k);
        self.ready.add(k);
    }

    /// A connection stepped, and has so much room then. It and each queue may have ended.
    pub fn stepped(&mut self, k: usize, room: usize)
        requires { k < 64 }
        ensures { StepsIn k room self.old self.new }
    {
        if let Some(slot) = self.slot_of(k) {
            self.rooms[slot] = room;
        }
        self.active.add(k);
        self.ending.join(self.active);
    }

    /// A connection has no output and nothing to step.
    pub fn rests(&mut self, k: usize)
        requires { k < 64 }
        ensures { RestsNow k self.old self.new }
    {
        self.ready.remove(k);
    }

    /// The clock was set, by which queues may have ended.
    pub fn ticked(&mut self)
        ensures { Ticks self.old self.new }
    {
        self.ending.join(self.active);
    }

    /// An edit was made, or refused: queues may have output, and any connection may have ended.
    pub fn edited(&mut self)
        ensures { Edits self.old self.new }
    {
        self.ready.join(self.active);
        self.ending.join(self.known);
    }

    /// No connection has ended.
    pub fn none_ended(&mut self)
        ensures { NoneEnds self.old self.new }
    {
        self.ending = ConnectionSet::new();
    }

    /// The rooms were worked out anew.
    pub fn set_rooms(&mut self, rooms: [usize; SLOTS])
        ensures { GivesRooms rooms self.old self.new }
    {
        self.rooms = rooms;
    }
}

// The connections of a target that are known.
fn known_of<D: Disk + Drop>(target: &Target<D>) -> ConnectionSet
    ensures { AreKnown result.bits target.now }
{
    let mut known = ConnectionSet::new();
    for k in 0..CONNECTIONS_MAX {
        if target.is_known(k) {
            known.add(k);
        }
    }
    known
}
