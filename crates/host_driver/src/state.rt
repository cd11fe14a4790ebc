//! How far a queue has come, and its outstanding commands.
ghost use Rattle.std.specs.Prelude.{◌≡◌, ◌≤◌, ◌<◌, ◌+◌, ◌++◌, IfOk, IfSome, Some, None, length, is_none, position};
ghost use Rattle.tables.specs.NumberTable.{place, with_value, without};
ghost use Rattle.host_driver.specs.Within.{AreLimits, Fits, IsNext};
ghost use Rattle.host_driver.specs.Pending.{changed, connect_begun, first_commands, outstanding_at, with_data, with_request};
ghost use Rattle.host_driver.specs.State.{connected_from, in_phase, with_commands};
ghost use Rattle.host_driver.specs.Told.{came_by, requested_in};
ghost use Rattle.host_driver.specs.Requested.{requested_room};
ghost use Rattle.host_driver.specs.Session.{is_failed, limits_in};

use crate::fault::HostFault;
use crate::pending::Pending;
use crate::{Outstanding, Phase, TransportLimits, write_requested};
use bytes::BytesMut;
use pdu_codec::R2t;
use std::alloc::{AllocError, Global};
use std::marker::Model;
use tables::NumberTable;

/// How far a queue has come, and its outstanding commands, by their identifiers.
#[derive(Debug, Drop)]
pub(crate) struct State {
    alloc: Global,
    phase: Phase,
    commands: NumberTable<Pending>,
}

impl Model for State {
    ghost use Rattle.std.specs.Prelude.{◌≤◌, length};
    ghost use Rattle.host_driver.specs.State.{HostState};
    ghost use Rattle.host_driver.specs.Session.{HasLimits};

    ghost Value = { HostState };

    ghost view = { λ s. record { phase = s.phase; commands = s.commands } };

    ghost invariant = { λ s. (length s.commands ≤ 63) × HasLimits s.phase };
}

impl State {
    /// The Connect alone is outstanding, of so many commands that may be.
    pub(crate) fn new(alloc: Global, sqsize: u16) -> Result<State, AllocError>
        requires least { 1 ≤ sqsize }
        requires most { sqsize ≤ 63 }
        ensures { IfOk result (λ s. s ≡ record { phase = Phase.Opened; commands = first_commands sqsize }) }
    {
        let mut commands = NumberTable::new(alloc, sqsize as usize)?;
        commands.put(0, Pending::connect(alloc));
        Ok(State {
            alloc,
            phase: Phase::Opened,
            commands,
        })
    }

    pub(crate) fn phase(&self) -> Phase
        ensures { result ≡ self.now.phase }
    {
        self.phase
    }

    pub(crate) fn is_failed(&self) -> bool
        ensures { result ≡ is_failed self.now.phase }
    {
        matches!(self.phase, Phase::Failed)
    }

    /// The limits that are in force once it is connected.
    pub(crate) fn limits(&self) -> Result<TransportLimits, HostFault>
        ensures value { result ≡ limits_in self.now.phase }
        ensures valid { IfOk result AreLimits }
    {
        match self.phase {
            Phase::Connected(limits) => Ok(limits),
            Phase::Opened | Phase::Initialized(_) => Err(HostFault::NotConnected),
            Phase::Failed => Err(HostFault::Failed),
        }
    }

    /// The least identifier that is free.
    #[tactic(auto, using(tables::proofs::NumberTables::laws))]
    pub(crate) fn least_free(&self) -> Option<usize>
        ensures value { result ≡ position is_none self.now.commands }
        ensures within { IfSome result (λ cid. cid < length self.now.commands) }
        ensures free { IfSome result (λ cid. place self.now.commands cid ≡ None) }
        ensures most { length self.now.commands ≤ 63 }
    {
        self.commands.least_free()
    }

    /// How far the data of an outstanding command have moved.
    pub(crate) fn outstanding(&self, cid: Option<u16>) -> Option<Outstanding>
        ensures { result ≡ outstanding_at self.now.commands cid }
    {
        let cid = cid?;
        let pending = self.commands.get(cid as usize)?;
        Some(pending.outstanding())
    }

    /// A command is outstanding from now on.
    pub(crate) fn begin(&mut self, cid: usize, pending: Pending)
        requires within { cid < length self.old.commands }
        requires free { place self.old.commands cid ≡ None }
        ensures { self.new ≡ with_commands (with_value self.old.commands cid pending) self.old }
    {
        self.commands.put(cid, pending);
    }

    /// The ICResp came.
    pub(crate) fn initialize(&mut self, limits: TransportLimits)
        requires { AreLimits limits }
        ensures { self.new ≡ in_phase (Phase.Initialized limits) self.old }
    {
        self.phase = Phase::Initialized(limits);
    }

    /// The Connect succeeded.
    pub(crate) fn connect(&mut self)
        ensures { self.new ≡ record {
          phase = connected_from self.old.phase;
          commands = without self.old.commands 0;
        } }
    {
        if let Phase::Initialized(limits) = self.phase {
            self.phase = Phase::Connected(limits);
        }
        self.commands.remove(0);
    }

    /// Nothing follows.
    pub(crate) fn fail(&mut self)
        ensures { self.new ≡ in_phase Phase.Failed self.old }
    {
        self.phase = Phase::Failed;
    }

    /// More data of a command came.
    pub(crate) fn receive(&mut self, cid: u16, bytes: &[u8])
        requires { Fits (outstanding_at self.old.commands (Some cid)) (length bytes.now) }
        ensures { self.new ≡ with_commands (changed self.old.commands cid (with_data bytes.now)) self.old }
    {
        if let Some(pending) = self.commands.get_mut(cid as usize) {
            pending.receive(bytes);
        }
    }

    /// A command is completed by the last of its data: all that came of them.
    pub(crate) fn finish(&mut self, cid: u16, bytes: &[u8]) -> Vec<u8>
        requires { Fits (outstanding_at self.old.commands (Some cid)) (length bytes.now) }
        ensures payload { result.items ≡ came_by (place self.old.commands cid) ++ bytes.now }
        ensures state { self.new ≡ with_commands (without self.old.commands cid) self.old }
    {
        match self.commands.remove(cid as usize) {
            Some(mut pending) => {
                pending.receive(bytes);
                pending.into_came()
            }
            None => Vec::new(self.alloc),
        }
    }

    /// A command is completed: the data that came.
    pub(crate) fn complete(&mut self, cid: u16) -> Vec<u8>
        ensures payload { result.items ≡ came_by (place self.old.commands cid) }
        ensures state { self.new ≡ with_commands (without self.old.commands cid) self.old }
    {
        match self.commands.remove(cid as usize) {
            Some(pending) => pending.into_came(),
            None => Vec::new(self.alloc),
        }
    }

    /// Data of a command are asked for: they are appended to where there is room for them.
    pub(crate) fn send(&mut self, request: R2t, output: &mut BytesMut)
        requires next { IsNext (outstanding_at self.old.commands (Some request.cccid)) request }
        requires room { requested_room request.r2tl ≤ output.old.spare }
        ensures state { self.new ≡ with_commands (changed self.old.commands request.cccid (with_request request.r2tl)) self.old }
        ensures output { output.new.items ≡ output.old.items ++ requested_in self.old.phase self.old.commands request }
    {
        let phase = self.phase;
        if let Some(pending) = self.commands.get_mut(request.cccid as usize) {
            match phase {
                Phase::Initialized(limits) => {
                    write_requested(limits, request, pending.out(), output);
                }
                Phase::Connected(limits) => {
                    write_requested(limits, request, pending.out(), output);
                }
                Phase::Opened | Phase::Failed => {}
            }
            pending.request(request.r2tl);
        }
    }
}
