//! A target, and which of its connections are open.

ghost use Rattle.std.specs.Prelude.{◌≡◌, IfErr, IfOk, IsOkUnless, MatchOption, OnErr};
ghost use Rattle.std.specs.Prelude.{OnOk, is_some, take};
ghost use Rattle.tables.specs.NumberTable.{place};
ghost use Rattle.target_core.specs.Transition.{Transition};
ghost use Rattle.target_core.specs.Target.{free_number, is_ended_at, open_fault, output_at};
ghost use Rattle.target_history.specs.Event.{given_up, opened, ticked};
ghost use Rattle.target_decision.specs.World.{connections_max};
ghost use Rattle.nvt_replay.specs.Played.{Receives, StepBelow, TakesOutput, number_taken};
ghost use Rattle.edit_lines.specs.Line.{IsRefused, MakesLine};
ghost use Rattle.target_core.specs.Steps.{StepsUntilIdle};

use block_store::MemoryDisk;
use edit_lines::{NotMade, make_line};
use std::alloc::{AllocError, Global};
use std::marker::Model;
use target_core::{Marks, OpenFault, StepFault, Stepped, Target};

pub const CONNECTIONS: usize = target_core::CONNECTIONS_MAX;

/// A target, and which of its connections are open: opened and not given up.
#[derive(Drop)]
pub struct Connections {
    target: Target<MemoryDisk>,
    marks: Marks,
}

impl Model for Connections {
    ghost use Rattle.target_core.specs.Target.{TargetState};
    ghost use Rattle.target_core.specs.Marks.{AreMarks};

    ghost Value = { TargetState };

    ghost view = { λ c. c.target };

    ghost invariant = { λ c. AreMarks c.marks c.target };
}

impl Connections {
    /// The connections of a target.
    pub fn over(target: Target<MemoryDisk>) -> Connections
        ensures { result ≡ target }
    {
        let marks = Marks::of(&target);
        Connections { target, marks }
    }

    /// Opens a connection on a port, and returns its number, as the target does.
    pub fn open(&mut self, port: u16) -> Result<usize, OpenFault>
        ensures refused { MatchOption (open_fault self.old port)
            (IsOkUnless result OpenFault.Memory) (λ fault. result ≡ Err fault) }
        ensures opened { IfOk result (λ k.
            (free_number self.old ≡ Some k) × Transition (opened port k) self.old self.new) }
        ensures err { OnErr result (self.new ≡ self.old) }
    {
        let k = self.target.open(port)?;
        self.marks.add(k);
        Ok(k)
    }

    /// Makes the edit that a line says. After a refusal, `Memory` included, all is as it was.
    pub fn edit(&mut self, alloc: Global, line: &[u8]) -> Result<(), NotMade>
        ensures made { OnOk result (MakesLine line.now self.old self.new) }
        ensures refused { IfErr result (IsRefused self.old.config line.now) }
        ensures err { OnErr result (self.new ≡ self.old) }
    {
        make_line(alloc, &mut self.target, line)
    }

    pub fn is_open(&self, k: usize) -> bool
        ensures { result ≡ is_some (place self.now.connections k) }
    {
        self.marks.is_known(k)
    }

    /// Hands the connection as many of the first bytes as it has room for, and returns their number.
    pub fn receive(&mut self, k: usize, bytes: &[u8]) -> usize
        ensures number { result ≡ number_taken k bytes.now self.old }
        ensures received { Receives k (take result bytes.now) self.old self.new }
    {
        self.target.receive(k, bytes).unwrap_or(0)
    }

    /// Lets all connections step until they are idle, in rising number.
    pub fn step(&mut self) -> Result<(), AllocError>
        ensures { OnOk result (StepBelow connections_max self.old self.new) }
    {
        for k in 0..CONNECTIONS {
            if self.is_open(k) {
                self.step_one(k)?;
            }
        }
        Ok(())
    }

    fn step_one(&mut self, k: usize) -> Result<(), AllocError>
        ensures { OnOk result (StepsUntilIdle k self.old self.new) }
    {
        loop {
            match self.target.step(k) {
                Ok(Stepped::One) => {}
                Ok(Stepped::Ended) => {}
                Ok(Stepped::Idle) | Err(StepFault::NoConn) => return Ok(()),
                Err(StepFault::Memory) => return Err(AllocError),
            }
        }
    }

    /// What the connection has to send.
    pub fn output(&self, k: usize) -> &[u8]
        ensures { result.now ≡ output_at (place self.now.connections k) }
    {
        self.target.output(k)
    }

    /// Takes all of it away.
    pub fn take_output(&mut self, k: usize)
        ensures { TakesOutput k (place self.old.connections k) self.old self.new }
    {
        let len = self.output(k).len();
        self.target.taken(k, len);
    }

    /// Whether the target has ended the connection.
    pub fn is_ended(&self, k: usize) -> bool
        ensures { result ≡ is_ended_at (place self.now.connections k) }
    {
        self.target.ended(k)
    }

    /// Gives the connection up, and ends those that end with it. A number that is not known changes
    /// nothing.
    pub fn end(&mut self, k: usize)
        ensures { MatchOption (place self.old.connections k) (self.new ≡ self.old)
            (λ c. Transition (given_up k) self.old self.new) }
    {
        self.target.end(k);
        self.marks.remove(k);
    }

    /// Sets the clock, in ms, and ends the connections of each controller whose time has run out.
    pub fn tick(&mut self, ms: u64)
        ensures { Transition (ticked ms) self.old self.new }
    {
        self.target.tick(ms);
    }
}
