//! In which order sockets are tried.
ghost use Rattle.std.specs.Prelude.{◌≡◌, ◌+◌, ◌<◌, ◌≤◌, ◌↔◌, ℕ, IsSome, IfOk, IsTrue, Any, length, option_map, slice_get, vec_capacity};
ghost use Rattle.nvt_ports.specs.Lately.{behind as behind_of, tired, with_heard, without};
ghost use Rattle.nvt_ports.specs.Waiting.{EachIsTried, WaitsAreShort};

use crate::SLOTS;
use crate::speaker::{SPEAKERS, Speaker};
use std::alloc::{AllocError, Global};
use std::marker::Model;

// A speaker of the round is tried for so many looks.
const LOOKS_PER_TRY: usize = 4;

// As many looks as tries of all speakers are for.
const LOOKS_PER_ROUND: usize = 388;

/// The number of a speaker that spoke lately, and how often it is still tried in vain until it counts as silent.
#[derive(Clone, Copy)]
pub struct Lately {
    pub number: u8,
    pub patience: u16,
}

/// What came of a look.
#[derive(Clone, Copy, PartialEq, Eq)]
pub enum LookOutcome {
    /// The last one that was tried had something.
    Found,
    /// None had.
    Vain,
    /// None had, and a pause follows, behind which all are tried, and none counts as one that spoke lately.
    Rests,
}

/// Whose turn it is. Each look tries those who spoke lately, the one that was heard last behind the others; and each
/// 4th look tries first the next in a round of all. So nobody waits longer than 580 looks, whatever the others do. It
/// allocates when it is made, and never again.
#[derive(Drop)]
pub struct TurnOrder {
    lately: Vec<Lately>,
    // Whom the round came to last.
    last: u8,
    // The looks that no try of the round was for yet.
    credit: usize,
}

impl Model for TurnOrder {
    ghost use Rattle.std.specs.Prelude.{◌≤◌, vec_len, vec_capacity};
    ghost use Rattle.nvt_ports.specs.Lately.{Order};
    ghost use Rattle.nvt_ports.specs.Waiting.{IsInOrder};

    ghost Value = { Order };

    ghost view = { λ o. record { lately = o.lately.items; last = o.last; credit = o.credit } };

    ghost invariant = { λ o. (97 ≤ vec_capacity o.lately) × IsInOrder (record { lately = o.lately.items; last = o.last; credit = o.credit }) };
}

impl TurnOrder {
    ghost use Rattle.std.specs.Prelude.{None};
    ghost use Rattle.nvt_ports.specs.Lately.{CanBeTried, after_look, at_first, due, number_in, plan};
    ghost use Rattle.nvt_ports.specs.Speaker.{speaker_of};
    ghost use Rattle.nvt_ports.specs.Waiting.{IsInOrder, IsTriedOrNearer};

    /// Nobody spoke yet, and the round begins with slot 0.
    pub fn new(alloc: Global) -> Result<TurnOrder, AllocError>
        ensures first { IfOk result (λ order. order ≡ at_first) }
        ensures in_order { IfOk result (λ order. IsInOrder order) }
    {
        Ok(TurnOrder {
            lately: Vec::with_capacity(alloc, SPEAKERS)?,
            last: 96,
            credit: 0,
        })
    }

    /// How many speakers this look tries at most.
    pub fn len(&self) -> usize
        ensures len { result ≡ length (plan self.now) }
        ensures in_order { IsInOrder self.now }
    {
        self.due() + self.lately.len()
    }

    /// Whether this look tries none.
    pub fn is_empty(&self) -> bool
        ensures { IsTrue result ↔ (length (plan self.now) ≡ 0) }
    {
        self.len() == 0
    }

    /// The one that is tried at this place of the look.
    pub fn at(&self, place: usize) -> Option<Speaker>
        ensures speaker { result ≡ option_map speaker_of (slice_get (plan self.now) place) }
        ensures there { IsSome result ↔ (place < length (plan self.now)) }
    {
        self.number_at(place).map(Speaker::of)
    }

    /// How many spoke lately.
    pub fn lately(&self) -> usize
        ensures { result ≡ length self.now.lately }
    {
        self.lately.len()
    }

    /// Whether a host is among those who spoke lately.
    pub fn has_host_lately(&self) -> bool
        ensures { IsTrue result ↔ Any (λ lately. lately.number < 64) self.now.lately }
    {
        self.lately
            .iter()
            .any(|lately| (lately.number as usize) < SLOTS)
    }

    /// So many were tried in this look: all in vain, or all but the last, which had something. Each speaker that was
    /// not tried has a shorter wait now.
    pub fn looked(&mut self, tried: usize, outcome: LookOutcome)
        requires { CanBeTried tried outcome self.old }
        ensures after { self.new ≡ after_look tried outcome self.old }
        ensures nearer { (number : ℕ) → number < 97 → IsTriedOrNearer tried self.old self.new number }
        ensures in_order { IsInOrder self.new }
    {
        match outcome {
            LookOutcome::Found => self.found(tried),
            LookOutcome::Vain => self.in_vain(tried),
            LookOutcome::Rests => self.rests(tried),
        }
    }

    // The last one that was tried had something.
    fn found(&mut self, tried: usize)
        requires { CanBeTried tried LookOutcome.Found self.old }
        ensures after { self.new ≡ after_look tried LookOutcome.Found self.old }
        ensures in_order { IsInOrder self.old }
    {
        let due = self.due();
        let number = self.number_at(tried - 1).unwrap();
        tire(&mut self.lately, (tried - 1).saturating_sub(due));
        hear(&mut self.lately, number);
        let tried_in_round = tried.min(due);
        self.last = behind(self.last, tried_in_round);
        self.credit = self.credit + 1 - LOOKS_PER_TRY * tried_in_round;
    }

    // None had.
    fn in_vain(&mut self, tried: usize)
        requires { CanBeTried tried LookOutcome.Vain self.old }
        ensures after { self.new ≡ after_look tried LookOutcome.Vain self.old }
        ensures in_order { IsInOrder self.old }
    {
        let due = self.due();
        tire(&mut self.lately, tried - due);
        self.last = behind(self.last, due);
        self.credit = self.credit + 1 - LOOKS_PER_TRY * due;
    }

    // None had, and a pause follows.
    fn rests(&mut self, tried: usize)
        requires { CanBeTried tried LookOutcome.Rests self.old }
        ensures after { self.new ≡ after_look tried LookOutcome.Rests self.old }
        ensures in_order { IsInOrder self.old }
    {
        let due = self.due();
        self.last = behind(self.last, tried.min(due));
        self.lately.clear();
        self.credit = LOOKS_PER_ROUND;
    }

    // How many of the round this look tries.
    fn due(&self) -> usize
        ensures due { result ≡ due self.now }
        ensures few { result ≤ 97 }
    {
        self.credit / LOOKS_PER_TRY
    }

    fn number_at(&self, place: usize) -> Option<u8>
        ensures { result ≡ slice_get (plan self.now) place }
    {
        let due = self.due();
        if place < due {
            return Some(behind(self.last, place + 1));
        }
        self.number_lately(place - due)
    }

    fn number_lately(&self, place: usize) -> Option<u8>
        ensures { result ≡ option_map number_in (slice_get self.now.lately place) }
    {
        self.lately.get(place).map(|lately| lately.number)
    }
}

// The first so many of those who spoke lately were tried in vain.
fn tire(list: &mut Vec<Lately>, count: usize)
    requires { count ≤ length list.old.items }
    ensures items { list.new.items ≡ tired count list.old.items }
    ensures capacity { vec_capacity list.new ≡ vec_capacity list.old }
{
    let mut place = 0;
    for _ in 0..count {
        let patience = list[place].patience;
        if patience < 2 {
            list.remove(place);
        } else {
            list[place].patience = patience - 1;
            place += 1;
        }
    }
}

// This one spoke.
fn hear(list: &mut Vec<Lately>, number: u8)
    requires { 97 ≤ vec_capacity list.old }
    ensures items { list.new.items ≡ with_heard number list.old.items }
    ensures capacity { 97 ≤ vec_capacity list.new }
{
    leave(list, number);
    if list.len() < SPEAKERS {
        let patience = Speaker::of(number).patience();
        list.push(Lately { number, patience }).unwrap();
    }
}

fn leave(list: &mut Vec<Lately>, number: u8)
    ensures items { list.new.items ≡ without number list.old.items }
    ensures capacity { vec_capacity list.new ≡ vec_capacity list.old }
{
    list.retain(|lately| lately.number != number);
}

// The one that stands so many behind this one, in the round of all.
fn behind(number: u8, count: usize) -> u8
    requires { count ≤ 97 }
    ensures { result ≡ behind_of number count }
{
    ((number as usize + count) % SPEAKERS) as u8
}

/// Nobody waits longer than 580 looks, in any order of turns that `TurnOrder` keeps.
#[tactic(auto, using(crate::proofs::Waits::waits_are_short))]
pub fn waits_are_short()
    ensures { WaitsAreShort }
{}

/// In 581 looks, one after another, each speaker is tried, whatever was found and whoever spoke.
#[tactic(auto, using(crate::proofs::Waits::each_is_tried))]
pub fn each_is_tried()
    ensures { EachIsTried }
{}
