//! Ports in memory, for tests.
ghost use Rattle.std.specs.Prelude.{◌≡◌, ◌<◌, ◌≤◌, ◌++◌, ◌∷◌, ℕ, List, IfOk, OnErr, OnOk, length, map, is_some, slice_index_or, false, []};

use crate::event::{PortEvent, PortFault};
use crate::ports::{Ports, SLOTS};
use crate::step::PortStep;
use nvt_config::Config;
use std::alloc::{AllocError, Global};

/// Ports in memory. They hand out the steps of a script in their order, one at a call, and answer `Nothing` where
/// the next one has no room, where memory runs out for what they keep of it, and behind the last. A step that
/// names no slot that it may is passed over: an `Open` a slot that is open, another one that is not.
#[derive(Drop)]
pub struct MemoryPorts {
    alloc: Global,
    steps: Vec<PortStep>,
    // How many steps are over, and how many bytes of the next one are.
    place: usize,
    offset: usize,
    in_use: [bool; SLOTS],
    asked: u64,
    handed_out: Vec<PortStep>,
    took: Vec<Vec<u8>>,
    replies: Vec<Vec<u8>>,
    // The configuration that an edit made last.
    refreshed: Option<Config>,
    // Whether there was no memory for a reply or a configuration: they tell nothing from then on.
    lost: bool,
    // How many calls of `give` pass before the one that is to fail.
    passes: Option<u64>,
    faults: u64,
    ghost whole: { length took.items ≡ 64 },
}

impl MemoryPorts {
    ghost use Rattle.nvt_ports.specs.Memory.{IsAtFirst, replies_in, told_of, took_in};

    /// Ports that go through these steps.
    pub fn new(alloc: Global, steps: Vec<PortStep>) -> Result<MemoryPorts, AllocError>
        ensures { IfOk result IsAtFirst }
    {
        let mut took = Vec::with_capacity(alloc, SLOTS)?;
        for _ in 0..SLOTS {
            took.push(Vec::new(alloc))?;
        }
        Ok(MemoryPorts {
            alloc,
            steps,
            place: 0,
            offset: 0,
            in_use: [false; SLOTS],
            asked: 0,
            handed_out: Vec::new(alloc),
            took,
            replies: Vec::new(alloc),
            refreshed: None,
            lost: false,
            passes: None,
            faults: 0,
        })
    }

    /// All that was taken in a slot.
    pub fn got(&self, slot: usize) -> &[u8]
        ensures { result.now ≡ slice_index_or (took_in self.now) slot [] }
    {
        match self.took.get(slot) {
            Some(bytes) => bytes,
            None => &[],
        }
    }

    /// The replies to lines, in their order; those for which there was no memory are lost.
    pub fn replies(&self) -> &[Vec<u8>]
        ensures { map (λ v. v.items) result.now ≡ replies_in self.now }
    {
        &self.replies
    }

    /// Whether there was memory for each reply and configuration, so that they tell what passed.
    pub fn tells(&self) -> bool
        ensures { result ≡ is_some (told_of self.now) }
    {
        !self.lost
    }

    /// Makes the `n`th call of `give` from here on fail; none for 0.
    pub fn fail_give(&mut self, n: u64)
        ensures told { told_of self.new ≡ told_of self.old }
        ensures in_use { self.new.in_use ≡ self.old.in_use }
    {
        self.passes = n.checked_sub(1);
    }
}

impl Ports for MemoryPorts {
    ghost use Rattle.std.specs.Prelude.{◌≡◌, ◌<◌, ◌≤◌, IfOk, length, slice_set, false};
    ghost use Rattle.std.specs.Option.{option_map};
    ghost use Rattle.block_store.specs.Faults.{Counts};
    ghost use Rattle.nvt_ports.specs.Event.{Fits, in_use_after};
    ghost use Rattle.nvt_ports.specs.Memory.{told_of};
    ghost use Rattle.nvt_ports.specs.Told.{TellsGiven, TellsMore, handed_out_by, heard, refreshed_to, replied};

    ghost state = { λ ports. record {
      told = told_of ports;
      in_use = ports.in_use;
      faults = ports.faults;
    } };

    fn next(&mut self, room: &[usize; 64], buf: &mut [u8]) -> PortEvent {
        self.asked = self.asked.saturating_add(1);
        match self.hand_out(room, buf) {
            Ok(event) => event,
            Err(AllocError) => PortEvent::Nothing,
        }
    }

    fn give(&mut self, slot: usize, bytes: &[u8]) -> Result<usize, PortFault> {
        if self.passes_on() && self.take(slot, bytes).is_ok() {
            return Ok(bytes.len());
        }
        self.faults = self.faults.wrapping_add(1);
        Err(PortFault)
    }

    fn close(&mut self, slot: usize) {
        self.in_use[slot] = false;
    }

    fn reply(&mut self, text: &[u8]) {
        if self.keep_reply(text).is_err() {
            self.lost = true;
        }
    }

    fn refresh(&mut self, config: &Config) {
        match config.try_clone() {
            Ok(copy) => self.refreshed = Some(copy),
            Err(AllocError) => self.lost = true,
        }
    }
}

impl MemoryPorts {
    ghost use Rattle.nvt_ports.specs.Memory.{HandsOutBy, Remembers, Stays, handed_out_in, handed_out_of, replies_in, took_in};
    ghost use Rattle.nvt_ports.specs.Told.{with_taken};

    // Whether this call of `give` is not the one that is to fail.
    fn passes_on(&mut self) -> bool
        ensures in_use { self.new.in_use ≡ self.old.in_use }
        ensures handed_out { self.new.handed_out ≡ self.old.handed_out }
        ensures stays { Stays self.old self.new }
    {
        match self.passes {
            None => true,
            Some(0) => {
                self.passes = None;
                false
            }
            Some(passes) => {
                self.passes = Some(passes - 1);
                true
            }
        }
    }

    // Keeps what was given in a slot.
    fn take(&mut self, slot: usize, bytes: &[u8]) -> Result<(), AllocError>
        requires { slot < 64 }
        ensures in_use { self.new.in_use ≡ self.old.in_use }
        ensures handed_out { self.new.handed_out ≡ self.old.handed_out }
        ensures remembers { Remembers self.old self.new }
        ensures took { OnOk result (took_in self.new ≡ with_taken slot bytes.now (took_in self.old)) }
        ensures err { OnErr result (took_in self.new ≡ took_in self.old) }
        ensures asked { self.new.asked ≡ self.old.asked }
        ensures faults { self.new.faults ≡ self.old.faults }
    {
        self.took[slot].extend_from_slice(bytes)
    }

    fn keep_reply(&mut self, text: &[u8]) -> Result<(), AllocError>
        ensures in_use { self.new.in_use ≡ self.old.in_use }
        ensures handed_out { self.new.handed_out ≡ self.old.handed_out }
        ensures replies { OnOk result (replies_in self.new ≡ replies_in self.old ++ text.now ∷ []) }
        ensures refreshed { self.new.refreshed ≡ self.old.refreshed }
        ensures lost { self.new.lost ≡ self.old.lost }
        ensures took { self.new.took ≡ self.old.took }
        ensures asked { self.new.asked ≡ self.old.asked }
        ensures faults { self.new.faults ≡ self.old.faults }
    {
        self.replies.push(Vec::from_slice(self.alloc, text)?)?;
        Ok(())
    }

    // Hands out the next step, or the next piece of its bytes.
    fn hand_out(&mut self, room: &[usize; 64], buf: &mut [u8]) -> Result<PortEvent, AllocError>
        ensures handed_out { HandsOutBy room.now buf.new result self.old self.new }
        ensures len { length buf.new ≡ length buf.old }
    {
        match self.steps.get(self.place) {
            None => Ok(PortEvent::Nothing),
            Some(PortStep::Open { slot, port }) => {
                let (slot, port) = (*slot, *port);
                self.open_slot(slot, port)
            }
            Some(PortStep::Bytes { slot, .. }) => {
                let slot = *slot;
                self.bring(slot, room, buf)
            }
            Some(PortStep::End { slot }) => {
                let slot = *slot;
                self.end_slot(slot)
            }
            Some(PortStep::Line { .. }) => self.bring_line(buf),
            Some(PortStep::Tick { ms }) => {
                let ms = *ms;
                self.set_clock(ms)
            }
        }
    }

    // The next step is over.
    fn pass_over(&mut self) -> PortEvent
        ensures in_use { self.new.in_use ≡ self.old.in_use }
        ensures handed_out { self.new.handed_out ≡ self.old.handed_out }
        ensures stays { Stays self.old self.new }
        ensures nothing { result ≡ PortEvent.Nothing }
    {
        self.place = self.place.saturating_add(1);
        self.offset = 0;
        PortEvent::Nothing
    }

    fn keep(&mut self, step: PortStep) -> Result<(), AllocError>
        ensures in_use { self.new.in_use ≡ self.old.in_use }
        ensures kept { OnOk result (handed_out_in self.new ≡ handed_out_in self.old ++ handed_out_of step ∷ []) }
        ensures err { OnErr result (handed_out_in self.new ≡ handed_out_in self.old) }
        ensures stays { Stays self.old self.new }
    {
        self.handed_out.push(step)?;
        Ok(())
    }

    fn open_slot(&mut self, slot: usize, port: u16) -> Result<PortEvent, AllocError>
        ensures { (buffer room : List ℕ) → HandsOutBy room buffer result self.old self.new }
    {
        if slot >= SLOTS || self.in_use[slot] {
            return Ok(self.pass_over());
        }
        self.keep(PortStep::Open { slot, port })?;
        self.pass_over();
        self.in_use[slot] = true;
        Ok(PortEvent::Open { slot, port })
    }

    fn end_slot(&mut self, slot: usize) -> Result<PortEvent, AllocError>
        ensures { (buffer room : List ℕ) → HandsOutBy room buffer result self.old self.new }
    {
        if slot >= SLOTS || !self.in_use[slot] {
            return Ok(self.pass_over());
        }
        self.keep(PortStep::End { slot })?;
        self.pass_over();
        Ok(PortEvent::End { slot })
    }

    fn set_clock(&mut self, ms: u64) -> Result<PortEvent, AllocError>
        ensures { (buffer room : List ℕ) → HandsOutBy room buffer result self.old self.new }
    {
        self.keep(PortStep::Tick { ms })?;
        self.pass_over();
        Ok(PortEvent::Tick { ms })
    }

    // The bytes of the next step that are not over, as many as there is room for.
    fn piece(&self, most: usize) -> Result<Vec<u8>, AllocError>
        ensures { IfOk result (λ piece. length piece.items ≤ most) }
    {
        let rest = match self.steps.get(self.place) {
            Some(PortStep::Bytes { bytes, .. } | PortStep::Line { bytes }) => {
                bytes.get(self.offset..).unwrap_or(&[])
            }
            _ => &[],
        };
        let n = rest.len().min(most);
        Vec::from_slice(self.alloc, &rest[..n])
    }

    // Hands out a line; of one that is longer than the buffer, as much as there is room for.
    fn bring_line(&mut self, buf: &mut [u8]) -> Result<PortEvent, AllocError>
        ensures handed_out { (room : List ℕ) → HandsOutBy room buf.new result self.old self.new }
        ensures len { length buf.new ≡ length buf.old }
    {
        let line = self.piece(buf.len())?;
        let n = line.len();
        buf[..n].copy_from_slice(&line);
        self.keep(PortStep::Line { bytes: line })?;
        self.pass_over();
        Ok(PortEvent::Line { n })
    }

    // Hands out as many of the next bytes as there is room for, of a slot that is in use.
    fn bring(
        &mut self,
        slot: usize,
        room: &[usize; 64],
        buf: &mut [u8],
    ) -> Result<PortEvent, AllocError>
        ensures handed_out { HandsOutBy room.now buf.new result self.old self.new }
        ensures len { length buf.new ≡ length buf.old }
    {
        if slot >= SLOTS || !self.in_use[slot] {
            return Ok(self.pass_over());
        }
        let most = room[slot].min(buf.len());
        let piece = self.piece(most)?;
        let n = piece.len();
        if n == 0 && most > 0 {
            return Ok(self.pass_over());
        }
        if n == 0 {
            return Ok(PortEvent::Nothing);
        }
        buf[..n].copy_from_slice(&piece);
        self.keep(PortStep::Bytes { slot, bytes: piece })?;
        self.offset = self.offset.saturating_add(n);
        Ok(PortEvent::Bytes { slot, n })
    }
}
