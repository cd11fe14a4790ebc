//! A queue of a host over a link.
ghost use Rattle.std.specs.Prelude.{◌≡◌, ◌<◌, IfOk, IfSome, OnOk};
ghost use Rattle.host_driver.specs.Session.{AreParams};
ghost use Rattle.host_link.specs.Calls.{MovesBy, ReceivesBy, SendsBy, StepsOnce, StepsOut, TurnsBy};
ghost use Rattle.host_link.specs.Session.{Answers, Connects, Enables, Executes, IsSuccess, Requests, SubmitsBy, answer_of};
ghost use Rattle.host_link.specs.Waiting.{Waits, is_asked};

use crate::commands::{CONTROLLER_ENABLED, ControllerProperty, property_get, property_set};
use crate::fault::SessionFault;
use crate::link::Link;
use crate::piece::Piece;
use host_driver::{Answer, HostCommand, HostFault, HostParams, HostQueue, HostStep};
use std::alloc::Global;
use std::marker::Model;

/// The most steps of a turn: one more than the commands that are outstanding on a queue, for so many steps may be
/// answers, without a PDU between them that breaks the transport's rules.
const STEPS_MAX: usize = 64;

/// RDY of the property CSTS (Base 2.0, section 3.1.3.6).
const READY: u64 = 1;

/// A queue that is connected, over a link, with one command at a time.
///
/// A turn is one send, one receive, and steps until the queue is idle. Each call takes the turns that it needs from
/// those that are left, and ends with `Turns` where there is none.
pub struct LinkSession<L: Link> {
    alloc: Global,
    link: L,
    queue: HostQueue,
    piece: Piece,
    turns: u64,
    cntlid: u16,
    // Whether all that was to be sent was taken, at some time since the last command was submitted.
    is_sent: bool,
}

// Written out, and not derived, so that whoever lets a session fall proves one call.
impl<L: Link + Drop> Drop for LinkSession<L> {
    fn drop(self) {
        let LinkSession {
            alloc: _,
            link,
            queue,
            piece,
            turns: _,
            cntlid: _,
            is_sent: _,
        } = self;
        drop(link);
        drop(queue);
        drop(piece);
    }
}

impl<L: Link> Model for LinkSession<L> {
    ghost use Rattle.host_link.specs.Conversation.{Conversation};

    ghost Value = { Conversation };

    ghost view = { λ s. record {
      link = L.state s.link;
      queue = s.queue;
      held = s.piece;
      turns = s.turns;
      cntlid = s.cntlid;
      is_sent = s.is_sent;
    } };
}

impl<L: Link + Drop> LinkSession<L> {
    /// Opens a queue over a link, and waits until it is connected. SQSIZE is from 1 to 63, and `in_capsule` at most
    /// 8,192: that is the caller's to keep.
    pub fn connect(
        alloc: Global,
        link: L,
        params: HostParams,
        turns: u64,
    ) -> Result<LinkSession<L>, SessionFault>
        requires { AreParams params }
        ensures { Connects params (L.state link) turns result }
    {
        let mut session = LinkSession {
            alloc,
            link,
            queue: HostQueue::start(alloc, params)?,
            piece: Piece::new(alloc)?,
            turns,
            cntlid: 0,
            is_sent: false,
        };
        match session.wait()? {
            HostStep::Connected { cntlid } => {
                session.cntlid = cntlid;
                Ok(session)
            }
            // No command was submitted.
            HostStep::Idle | HostStep::Done(_) => Err(SessionFault::BadPage),
        }
    }

    /// The identifier of the controller.
    pub fn cntlid(&self) -> u16
        ensures { result ≡ self.now.cntlid }
    {
        self.cntlid
    }

    /// The turns that are left.
    pub fn turns(&self) -> u64
        ensures { result ≡ self.now.turns }
    {
        self.turns
    }

    /// Enables the controller, and waits until it is ready (Base 2.0, section 3.5.1).
    pub fn enable(&mut self) -> Result<(), SessionFault>
        ensures { Enables result self.old self.new }
    {
        let enable = property_set(
            self.alloc,
            ControllerProperty::ControllerConfiguration,
            CONTROLLER_ENABLED,
        );
        self.execute(&enable)?;
        let status = property_get(self.alloc, ControllerProperty::ControllerStatus);
        loop {
            if self.execute(&status)?.result % 2 == READY {
                return Ok(());
            }
        }
    }

    /// Sends a command, and waits for its answer. A status other than success is refused.
    pub fn execute(&mut self, command: &HostCommand) -> Result<Answer, SessionFault>
        ensures does { Executes command.now result self.old self.new }
        ensures success { IfOk result IsSuccess }
        ensures fewer { OnOk result (self.new.turns < self.old.turns) }
    {
        self.submit(command)?;
        self.answer()
    }

    /// Puts a command behind what is to be sent. None is outstanding: that is the caller's to keep. A refusal changes
    /// nothing.
    pub fn submit(&mut self, command: &HostCommand) -> Result<(), SessionFault>
        ensures { SubmitsBy command.now result self.old self.new }
    {
        self.queue.submit(command)?;
        self.is_sent = false;
        Ok(())
    }

    /// Waits for the answer to the command that was submitted. A status other than success is refused.
    pub fn answer(&mut self) -> Result<Answer, SessionFault>
        ensures does { Answers result self.old self.new }
        ensures success { IfOk result IsSuccess }
        ensures fewer { OnOk result (self.new.turns < self.old.turns) }
    {
        answered(self.wait()?)
    }

    /// Waits until the controller asks for data of the command that was submitted: until, once all of its capsule is
    /// taken, something is to be sent again. Its answer, where that comes before.
    pub fn request(&mut self) -> Result<Option<Answer>, SessionFault>
        ensures does { Requests result self.old self.new }
        ensures success { IfOk result (λ answer. IfSome answer IsSuccess) }
    {
        while self.turns > 0 {
            if let Some(step) = self.turn()? {
                return Ok(Some(answered(step)?));
            }
            if self.is_asked() {
                return Ok(None);
            }
        }
        Err(SessionFault::Turns)
    }

    // Whether more is to be sent than the capsules, all of which were taken.
    fn is_asked(&self) -> bool
        ensures { result ≡ is_asked self.now }
    {
        self.is_sent && !self.queue.output().is_empty()
    }

    // Takes turns until one tells something.
    fn wait(&mut self) -> Result<HostStep, SessionFault>
        ensures does { Waits result self.old self.new }
        ensures fewer { OnOk result (self.new.turns < self.old.turns) }
    {
        while self.turns > 0 {
            if let Some(step) = self.turn()? {
                return Ok(step);
            }
        }
        Err(SessionFault::Turns)
    }

    // Takes one of the turns that are left.
    fn turn(&mut self) -> Result<Option<HostStep>, SessionFault>
        requires { 0 < self.old.turns }
        ensures does { TurnsBy result self.old self.new }
        ensures fewer { self.new.turns < self.old.turns }
    {
        self.turns -= 1;
        self.exchange()
    }

    // What comes of a turn. What was received counts before the end of the link.
    fn exchange(&mut self) -> Result<Option<HostStep>, SessionFault>
        ensures { MovesBy result self.old self.new }
    {
        let sent = self.send();
        let received = self.receive();
        match self.steps() {
            Ok(None) => {
                sent?;
                received?;
                Ok(None)
            }
            Ok(Some(step)) => Ok(Some(step)),
            Err(fault) => {
                // What the queue has to say of the fault is sent as far as it goes.
                let _ = self.send();
                Err(SessionFault::from(fault))
            }
        }
    }

    fn send(&mut self) -> Result<(), SessionFault>
        ensures { SendsBy result self.old self.new }
    {
        let taken = self.link.send(self.queue.output())?;
        self.queue.taken(taken);
        self.is_sent |= self.queue.output().is_empty();
        Ok(())
    }

    fn receive(&mut self) -> Result<(), SessionFault>
        ensures { ReceivesBy result self.old self.new }
    {
        let received = self.piece.fill(&mut self.link);
        self.piece.give_to(&mut self.queue);
        received?;
        Ok(())
    }

    // Steps until the queue is idle: what the last one told.
    fn steps(&mut self) -> Result<Option<HostStep>, HostFault>
        ensures { StepsOut result self.old self.new }
    {
        let mut told = None;
        for _ in 0..STEPS_MAX {
            match self.step()? {
                HostStep::Idle => return Ok(told),
                step => told = Some(step),
            }
        }
        Ok(told)
    }

    fn step(&mut self) -> Result<HostStep, HostFault>
        ensures { StepsOnce result self.old self.new }
    {
        self.queue.step()
    }
}

// The answer that a step tells.
fn answered(step: HostStep) -> Result<Answer, SessionFault>
    ensures value { result ≡ answer_of step }
    ensures success { IfOk result IsSuccess }
{
    match step {
        HostStep::Done(answer) => {
            let status = answer.status;
            if status.sct == 0 && status.sc == 0 {
                Ok(answer)
            } else {
                Err(SessionFault::Status(status))
            }
        }
        // The queue is connected once.
        HostStep::Idle | HostStep::Connected { .. } => Err(SessionFault::BadPage),
    }
}
