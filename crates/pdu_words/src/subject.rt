//! Which command a PDU speaks of.
ghost use Rattle.std.specs.Prelude.{◌≡◌};
ghost use Rattle.pdu_words.specs.Subject.{subject_of, completes, resets, subject_of_completion};

use crate::command::Command;
use crate::explanation::{Explanation, ResponseFields};

/// Which of the outstanding commands with one identifier. Only by a host's error are there several.
#[derive(Clone, Copy)]
pub enum Which {
    Oldest,
    Newest,
}

/// An outstanding command.
#[derive(Clone, Copy)]
pub struct Subject {
    pub which: Which,
    pub cid: u16,
}

impl Explanation {
    /// The command that the PDU answers, brings or carries data of. Of several with its identifier
    /// the newest is the one that a capsule brings, and that is refused for a conflict.
    pub fn subject(&self) -> Option<Subject>
        ensures { result ≡ subject_of self.now }
    {
        match *self {
            Explanation::CapsuleCmd { cid, command: _ } => Some(Subject {
                which: Which::Newest,
                cid,
            }),
            Explanation::CapsuleResp {
                completion,
                command: _,
            } => Some(subject_of_completion(completion)),
            Explanation::H2cData { head, command: _ } | Explanation::C2hData { head, command: _ } =>
                { Some(oldest(head.cccid)) }
            Explanation::R2t {
                request,
                command: _,
            } => Some(oldest(request.cccid)),
            _ => None,
        }
    }

    /// Whether the command is not outstanding after this PDU: a response, or data that stands for
    /// one (SUCCESS).
    pub fn completes(&self) -> bool
        ensures { result ≡ completes self.now }
    {
        match *self {
            Explanation::CapsuleResp { .. } => true,
            Explanation::C2hData { head, command: _ } => head.success,
            _ => false,
        }
    }

    /// Whether no command is outstanding after this PDU that was sent before its own: a Property Set
    /// of CC that clears EN was answered with success (Base 2.0, section 3.7.2).
    pub fn resets(&self) -> bool
        ensures { result ≡ resets self.now }
    {
        match *self {
            Explanation::CapsuleResp {
                completion,
                command: Some(Command::PropertySet { offset, value }),
            } => {
                let status = completion.status;
                status.sct == 0 && status.sc == 0x00 && offset == 0x14 && value % 2 == 0
            }
            _ => false,
        }
    }
}

fn oldest(cid: u16) -> Subject
    ensures { result ≡ record { which = Which.Oldest; cid = cid } }
{
    Subject {
        which: Which::Oldest,
        cid,
    }
}

fn subject_of_completion(completion: ResponseFields) -> Subject
    ensures { result ≡ subject_of_completion completion }
{
    let status = completion.status;
    if status.sct == 0 && status.sc == 0x03 {
        return Subject {
            which: Which::Newest,
            cid: completion.cid,
        };
    }
    oldest(completion.cid)
}
