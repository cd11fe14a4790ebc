//! A queue without what came.
ghost use Rattle.std.specs.Prelude.{◌≡◌, ◌≤◌, ◌<◌, IfOk, IsOkUnless, MatchOption, Err, None, OnErr, OnOk, drop, length};
ghost use Rattle.tables.specs.NumberTable.{place};
ghost use Rattle.pdu_cut.specs.Cut.{front_shown};
ghost use Rattle.host_driver.specs.Within.{AreLimits};
ghost use Rattle.host_driver.specs.Event.{head_at, submitted};
ghost use Rattle.host_driver.specs.Session.{AreParams, IsFirst, NeedsRoom, Submits, Tells, after, is_failed, submit_fault};

use crate::act::{act, owed, room_of};
use crate::answer::Told;
use crate::fault::HostFault;
use crate::output::{make_room, take_away};
use crate::pending::Pending;
use crate::state::State;
use crate::{HostCommand, HostParams, Phase, TransportLimits, capsule_room, write_capsule};
use bytes::BytesMut;
use pdu_codec::IcReq;
use pdu_cut::Cut;
use std::alloc::{AllocError, Global};
use std::marker::Model;

/// The most data of a command, in bytes.
const DATA_MAX: u32 = 131_072;

/// The length of an ICReq, in bytes.
const IC_REQ_LEN: usize = 128;

/// What a queue was opened with, how far it has come, and what it has to send.
#[derive(Debug, Drop)]
pub(crate) struct QueueSession {
    alloc: Global,
    params: HostParams,
    state: State,
    output: BytesMut,
}

impl Model for QueueSession {
    ghost use Rattle.std.specs.Prelude.{◌≡◌, length};
    ghost use Rattle.host_driver.specs.Session.{AreParams, SessionState};

    ghost Value = { SessionState };

    ghost view = { λ s. record { params = s.params; state = s.state; output = s.output.items } };

    ghost invariant = { λ s. AreParams s.params };
}

impl QueueSession {
    /// A queue whose ICReq is to be sent.
    pub(crate) fn start(alloc: Global, params: HostParams) -> Result<QueueSession, AllocError>
        requires { AreParams params }
        ensures { IfOk result (IsFirst params) }
    {
        let state = State::new(alloc, params.sqsize)?;
        let mut output = BytesMut::with_capacity(alloc, IC_REQ_LEN)?;
        let request = IcReq {
            pfv: 0,
            hpda: 0,
            dgst: 0,
            maxr2t: 0,
        };
        request.write(&mut output).unwrap();
        Ok(QueueSession {
            alloc,
            params,
            state,
            output,
        })
    }

    /// Whether it has failed.
    pub(crate) fn is_failed(&self) -> bool
        ensures { result ≡ is_failed self.now.state.phase }
    {
        self.state.is_failed()
    }

    /// What is to be sent and was not taken.
    pub(crate) fn output(&self) -> &[u8]
        ensures { result.now ≡ self.now.output }
    {
        self.output.as_slice()
    }

    /// Takes the first `len` bytes of the output away.
    pub(crate) fn taken(&mut self, len: usize)
        requires { len ≤ length self.old.output }
        ensures { self.new ≡ record self.old { output = drop len self.old.output } }
    {
        take_away(&mut self.output, len);
    }

    /// Sends a command under the least identifier that is free, and returns that. After a refusal the
    /// queue is as it was.
    pub(crate) fn submit(&mut self, command: &HostCommand) -> Result<u16, HostFault>
        ensures refused { MatchOption (submit_fault self.old.state command.now)
            (IsOkUnless result HostFault.Memory) (λ fault. result ≡ Err fault) }
        ensures ok { IfOk result (λ cid. Submits cid command.now self.old self.new) }
        ensures err { OnErr result (self.new ≡ self.old) }
    {
        let limits = self.state.limits()?;
        if command.out.len() > DATA_MAX as usize || command.into > DATA_MAX {
            return Err(HostFault::TooLarge);
        }
        let Some(cid) = self.state.least_free() else {
            return Err(HostFault::QueueFull);
        };
        match self.send_command(command, cid, limits) {
            Ok(()) => Ok(cid as u16),
            Err(AllocError) => Err(HostFault::Memory),
        }
    }

    // All growth comes first.
    fn send_command(
        &mut self,
        command: &HostCommand,
        cid: usize,
        limits: TransportLimits,
    ) -> Result<(), AllocError>
        requires phase { self.old.state.phase ≡ Phase.Connected limits }
        requires limits { AreLimits limits }
        requires out { length command.now.out ≤ 131072 }
        requires into { command.now.into ≤ 131072 }
        requires within { cid < length self.old.state.commands }
        requires most { cid < 63 }
        requires free { place self.old.state.commands cid ≡ None }
        ensures ok { OnOk result (self.new ≡ after (submitted cid command.now) self.old) }
        ensures err { OnErr result (self.new ≡ self.old) }
    {
        let in_capsule = self.params.in_capsule;
        let room = capsule_room(command.data(in_capsule));
        make_room(&mut self.output, room)?;
        let pending = Pending::new(self.alloc, command, in_capsule)?;
        write_capsule(
            command,
            cid as u16,
            in_capsule,
            limits.cpda,
            &mut self.output,
        );
        self.state.begin(cid, pending);
        Ok(())
    }

    /// Does what is owed to this front, and returns what that tells. All growth comes first: where memory runs
    /// out, which can be only where something is to be sent, nothing changes.
    pub(crate) fn take(&mut self, front: &Cut<'_>) -> Result<Told, AllocError>
        requires head { length (head_at (front_shown front.now)) ≤ 128 }
        ensures ok { IfOk result (λ told. Tells (front_shown front.now) self.old told self.new) }
        ensures err { OnErr result (self.new ≡ self.old) }
        ensures needs { OnErr result (NeedsRoom self.old.state (front_shown front.now)) }
    {
        let decision = owed(&self.state, front);
        make_room(&mut self.output, room_of(&decision))?;
        Ok(act(
            &self.params,
            &mut self.state,
            &mut self.output,
            &decision,
            front,
        ))
    }
}
