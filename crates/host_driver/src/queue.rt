//! A queue: what came, and what host and controller make of it.
ghost use Rattle.std.specs.Prelude.{◌≡◌, ◌≤◌, ◌<◌, ◌+◌, ◌-◌, ◌++◌, [], Err, IfOk, IsOkUnless, MatchOption, OnErr, OnOk, Some, drop, length, min, take};
ghost use Rattle.host_driver.specs.Session.{AreParams, submit_fault};
ghost use Rattle.host_driver.specs.Queue.{IsOpened, ReceiveAgrees, StepsBy, StepsIn, SubmitsOn, TakenAgrees, TakesFront};

use crate::answer::{HostStep, Told};
use crate::fault::HostFault;
use crate::session::QueueSession;
use crate::{HostCommand, HostParams};
use pdu_cut::{Cut, OfHost, Stream};
use std::alloc::{AllocError, Global};
use std::marker::Model;

/// One queue of a host, over one connection.
#[derive(Debug)]
pub struct HostQueue {
    session: QueueSession,
    stream: Stream<OfHost>,
}

// Written out, and not derived, so that whoever lets a queue fall proves one call.
impl Drop for HostQueue {
    fn drop(self) {
        let HostQueue { session, stream } = self;
        drop(session);
        drop(stream);
    }
}

impl Model for HostQueue {
    ghost use Rattle.host_driver.specs.Queue.{QueueState};

    ghost Value = { QueueState };

    ghost view = { λ q. record { session = q.session; held = q.stream } };
}

// What the front of what came led to.
#[derive(Drop)]
enum Taken {
    // There is less than a PDU.
    Nothing,
    // There is no memory for it.
    Starved,
    Told(Told),
}

impl HostQueue {
    /// A queue that has its ICReq to send. SQSIZE is from 1 to 63, and `in_capsule` at most 8,192: that is
    /// the caller's to keep.
    #[tactic(auto, using(crate::proofs::Agreeing::first_agrees))]
    pub fn start(alloc: Global, params: HostParams) -> Result<HostQueue, AllocError>
        requires { AreParams params }
        ensures { IfOk result (IsOpened params) }
    {
        Ok(HostQueue {
            session: QueueSession::start(alloc, params)?,
            stream: Stream::new(alloc)?,
        })
    }

    /// Submits a command, and returns its identifier, the least that no outstanding command has. Its
    /// capsule is behind the output then. A refusal changes nothing.
    #[tactic(auto, using(crate::proofs::Agreeing::submits_where_ok))]
    pub fn submit(&mut self, command: &HostCommand) -> Result<u16, HostFault>
        ensures refused { MatchOption (submit_fault self.old.session.state command.now)
            (IsOkUnless result HostFault.Memory) (λ fault. result ≡ Err fault) }
        ensures ok { IfOk result (λ cid. SubmitsOn cid command.now self.old self.new) }
        ensures err { OnErr result (self.new ≡ self.old) }
    {
        self.session.submit(command)
    }

    /// Takes as many of the piece's first bytes as there is room for, 135,168 bytes less those that no step
    /// has taken, and returns their number.
    pub fn receive(&mut self, piece: &[u8]) -> usize
        ensures taken { result ≡ min (135168 - length self.old.held) (length piece.now) }
        ensures held { self.new ≡ record self.old { held = self.old.held ++ take result piece.now } }
        ensures agrees { ReceiveAgrees (take result piece.now) self.old self.new }
    {
        self.stream.receive(piece)
    }

    /// Takes whole PDUs of what came, until one gives an answer or a fault. `Idle` says that none is left,
    /// or that one after the first found no memory: that one stays for the next step. After `Memory` the
    /// queue is as it was.
    pub fn step(&mut self) -> Result<HostStep, HostFault>
        ensures { StepsBy self.old result self.new }
    {
        if self.session.is_failed() {
            Err(HostFault::Failed)
        } else {
            self.run()
        }
    }

    /// What is to be sent and was not taken.
    pub fn output(&self) -> &[u8]
        ensures { result.now ≡ self.now.session.output }
    {
        self.session.output()
    }

    /// Takes the first `len` bytes of the output away.
    pub fn taken(&mut self, len: usize)
        requires { len ≤ length self.old.session.output }
        ensures taken { self.new ≡ record self.old {
          session = record self.old.session {
            output = drop len self.old.session.output;
          };
        } }
        ensures agrees { TakenAgrees (take len self.old.session.output) self.old self.new }
    {
        self.session.taken(len);
    }

    // Takes fronts until one tells something.
    fn run(&mut self) -> Result<HostStep, HostFault>
        ensures { StepsIn self.old result self.new }
    {
        let mut is_first = true;
        loop {
            match self.take() {
                Taken::Nothing => return Ok(HostStep::Idle),
                Taken::Starved if is_first => return Err(HostFault::Memory),
                Taken::Starved => return Ok(HostStep::Idle),
                Taken::Told(Ok(None)) => is_first = false,
                Taken::Told(Ok(Some(step))) => return Ok(step),
                Taken::Told(Err(fault)) => return Err(fault),
            }
        }
    }

    // Takes what stands at the front of what came.
    #[tactic(auto, using(crate::proofs::Taking::taking, crate::proofs::Fronts::fronts))]
    fn take(&mut self) -> Taken
        ensures { TakesFront self.old result self.new }
    {
        let front = self.stream.peek();
        let len = match &front {
            Cut::More => return Taken::Nothing,
            Cut::Fault { .. } => 0,
            Cut::Pdu(pdu) => pdu.plen() as usize,
        };
        match self.session.take(&front) {
            Ok(told) => {
                self.stream.consume(len);
                Taken::Told(told)
            }
            Err(AllocError) => Taken::Starved,
        }
    }
}
