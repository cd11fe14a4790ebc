//! How far target and host have come on a connection.
ghost use Rattle.std.specs.Prelude.{◌≡◌};
ghost use Rattle.target_decision.specs.Capsule.{head_counted};
ghost use Rattle.target_decision.specs.Queue.{new_queue, responded};
ghost use Rattle.target_decision.specs.Session.{is_ended, opened_on, replied, responded_in, session_after, turned};

use crate::alignment::Alignment;
use crate::consequence::Consequence;
use crate::decision::Decision;
use crate::notice::note;
use crate::queue::SubmissionQueue;
use admin_queue::Notices;

/// A connection, as far as a decision may look at it.
#[derive(Drop)]
pub struct ConnectionState {
    /// The port that it was opened on.
    pub port: u16,
    pub session: Session,
    /// What its ICReq asked for.
    pub alignment: Alignment,
    /// Where it is an admin queue: what the host of its controller is to be told.
    pub notices: Notices,
}

impl ConnectionState {
    /// A connection on which nothing has come yet.
    pub fn opened_on(port: u16) -> ConnectionState
        ensures { result ≡ opened_on port }
    {
        ConnectionState {
            port,
            session: Session::Opened,
            alignment: Alignment::none(),
            notices: Notices::new(),
        }
    }

    /// Goes where a decision leads it.
    pub(crate) fn turn(&mut self, decision: &Decision)
        ensures { self.new ≡ turned self.old decision.now }
    {
        if let Decision::Initialize(alignment) = decision {
            self.alignment = *alignment;
        }
        note(&mut self.notices, decision);
        self.session.turn(decision);
    }
}

/// How far target and host have come.
#[derive(Clone, Copy)]
pub enum Session {
    /// Nothing has come yet: the host owes an ICReq.
    Opened,
    /// The ICResp is sent: the host owes a Connect.
    Initialized,
    /// A Connect made it a queue of a controller.
    Connected { role: Role, queue: SubmissionQueue },
    /// It is ended: nothing more is consumed or sent.
    Ended,
}

/// Which queue a connection is (Base 2.0, section 3.3).
#[derive(Clone, Copy)]
pub enum Role {
    /// The admin queue of the controller of this identifier.
    Admin { cntlid: u16 },
    /// The I/O queue of this identifier, 1 to 8, of that controller.
    Io { cntlid: u16, qid: u16 },
}

impl Session {
    /// Goes where a decision leads it.
    fn turn(&mut self, decision: &Decision)
        ensures { self.new ≡ session_after self.old decision.now }
    {
        match decision {
            Decision::Initialize(_) => *self = Session::Initialized,
            Decision::Reply(reply) => self.reply(&reply.consequence),
            Decision::Request(_) | Decision::Receive { .. } | Decision::Wait { .. } => {}
            Decision::Terminate(_) | Decision::Close => *self = Session::Ended,
        }
    }

    // Counts a response, and becomes the queue that it makes. On a connection that has no queue nothing
    // counts it.
    fn reply(&mut self, consequence: &Consequence)
        ensures { self.new ≡ replied consequence.now self.old }
    {
        match consequence {
            Consequence::Begin(beginning) => {
                let cntlid = beginning.controller.cntlid;
                self.connect(Role::Admin { cntlid }, beginning.sqsize);
            }
            Consequence::Join(joining) => {
                let (cntlid, qid) = (joining.cntlid, joining.qid);
                self.connect(Role::Io { cntlid, qid }, joining.sqsize);
            }
            Consequence::Nothing | Consequence::Update { .. } => self.respond(),
        }
    }

    /// Counts a response, where the connection is a queue.
    pub(crate) fn respond(&mut self)
        ensures { self.new ≡ responded_in self.old }
    {
        if let Session::Connected { queue, .. } = self {
            queue.responded();
        }
    }

    fn connect(&mut self, role: Role, sqsize: u16)
        ensures { self.new ≡ Session.Connected role (responded (new_queue sqsize)) }
    {
        let mut queue = SubmissionQueue::new(sqsize);
        queue.responded();
        *self = Session::Connected { role, queue };
    }

    /// The submission queue head after one more response; a connection without a queue has no head, and
    /// 0 is sent.
    pub(crate) fn head_counted(&self) -> u16
        ensures { result ≡ head_counted self.now }
    {
        match self {
            Session::Connected { queue, .. } => queue.next_head(),
            Session::Opened | Session::Initialized | Session::Ended => 0,
        }
    }

    pub fn is_ended(&self) -> bool
        ensures { result ≡ is_ended self.now }
    {
        matches!(self, Session::Ended)
    }
}
