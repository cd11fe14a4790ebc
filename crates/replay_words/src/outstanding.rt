//! The commands that a host has sent on a connection and that are not answered yet.
ghost use Rattle.std.specs.Prelude.{◌≡◌, ◌<◌, ◌≤◌, IfOk, IfSome, drop, length, reverse};
ghost use Rattle.std.specs.Prelude.{vec_capacity};
ghost use Rattle.std.specs.List.{position};
ghost use Rattle.replay_words.specs.Outstanding.{none_outstanding, sent_after, remembered, place_of};
ghost use Rattle.replay_words.specs.Outstanding.{command_of_subject, without_subject, queue_after};
ghost use Rattle.replay_words.specs.Outstanding.{behind_subject};
ghost use Rattle.replay_words.specs.Outstanding.{first_place_of, last_place_of, has_cid};
ghost use Rattle.replay_words.specs.Hearing.{explanation_by};

use pdu_codec::Sqe;
use pdu_words::{Command, Explanation, QueueKind, Subject, Which, explain};
use std::alloc::{AllocError, Global};
use std::marker::Model;

/// The most commands that are kept of a connection. The oldest is forgotten before one more.
pub const COMMANDS_MAX: usize = 1024;

/// A command that was sent, under its identifier.
#[derive(Clone, Copy)]
pub struct Sent {
    pub cid: u16,
    pub command: Command,
}

/// The commands of a connection, the oldest first, and the queue that they are sent on.
#[derive(Drop)]
pub struct OutstandingCommands {
    queue: QueueKind,
    sent: Vec<Sent>,
}

impl Model for OutstandingCommands {
    ghost use Rattle.std.specs.Prelude.{◌≤◌, vec_len, vec_capacity};
    ghost use Rattle.replay_words.specs.Outstanding.{Outstanding};

    ghost Value = { Outstanding };

    ghost view = { λ o. record { queue = o.queue; sent = o.sent.items } };

    ghost invariant = { λ o. (vec_len o.sent ≤ 1024) × (1024 ≤ vec_capacity o.sent) };
}

impl OutstandingCommands {
    /// No command, on a queue that no Connect has named yet. No later call takes memory.
    pub fn new(alloc: Global) -> Result<OutstandingCommands, AllocError>
        ensures { IfOk result (λ commands. commands ≡ none_outstanding) }
    {
        Ok(OutstandingCommands {
            queue: QueueKind::Admin,
            sent: Vec::with_capacity(alloc, COMMANDS_MAX)?,
        })
    }

    /// The same commands once more.
    pub fn copy(&self, alloc: Global) -> Result<OutstandingCommands, AllocError>
        ensures { IfOk result (λ copy. copy ≡ self.now) }
    {
        let mut sent = Vec::with_capacity(alloc, COMMANDS_MAX)?;
        sent.extend_from_slice(&self.sent)?;
        Ok(OutstandingCommands {
            queue: self.queue,
            sent,
        })
    }

    /// Keeps the command of a capsule. A Connect names the queue of those after it.
    pub fn send(&mut self, sqe: &Sqe<'_>)
        ensures { self.new ≡ sent_after sqe.now.entry.now self.old }
    {
        let command = Command::read(self.queue, sqe);
        self.queue = queue_after(command, self.queue);
        let cid = sqe.cid();
        self.remember(Sent { cid, command });
    }

    fn remember(&mut self, sent: Sent)
        ensures { self.new ≡ record self.old { sent = remembered self.old.sent sent } }
    {
        if self.sent.len() == COMMANDS_MAX {
            self.sent.remove(0);
        }
        self.sent.push(sent).unwrap();
    }

    /// The command that a PDU speaks of, if it is kept.
    pub fn command(&self, subject: Subject) -> Option<Command>
        ensures { result ≡ command_of_subject subject self.now.sent }
    {
        let place = place(self.sent.as_slice(), subject)?;
        Some(self.sent.as_slice()[place].command)
    }

    /// What a PDU is, with its command where that is kept.
    pub fn explain(&self, pdu: &[u8]) -> Explanation
        ensures { result ≡ explanation_by self.now pdu.now }
    {
        let bare = explain(pdu, None);
        let Some(subject) = bare.subject() else {
            return bare;
        };
        explain(pdu, self.command(subject))
    }

    /// Forgets the command that a PDU speaks of, if it is kept.
    pub fn complete(&mut self, subject: Subject)
        ensures { self.new ≡ record self.old { sent = without_subject subject self.old.sent } }
    {
        if let Some(place) = place(self.sent.as_slice(), subject) {
            self.sent.remove(place);
        }
    }

    /// Forgets the command that a PDU speaks of, if it is kept, and those sent before it.
    pub fn reset(&mut self, subject: Subject)
        ensures { self.new ≡ record self.old { sent = behind_subject subject self.old.sent } }
    {
        if let Some(place) = place(self.sent.as_slice(), subject) {
            forget_first(&mut self.sent, place + 1);
        }
    }
}

fn forget_first(sent: &mut Vec<Sent>, count: usize)
    requires { count ≤ length sent.old.items }
    ensures items { sent.new.items ≡ drop count sent.old.items }
    ensures capacity { vec_capacity sent.new ≡ vec_capacity sent.old }
{
    for _done in 0..count {
        sent.remove(0);
    }
}

// The queue of the commands after this one.
fn queue_after(command: Command, queue: QueueKind) -> QueueKind
    ensures { result ≡ queue_after command queue }
{
    match command {
        Command::Connect { qid: 0 } => QueueKind::Admin,
        Command::Connect { qid: _ } => QueueKind::Io,
        _ => queue,
    }
}

// Where the command stands among those kept.
fn place(sent: &[Sent], subject: Subject) -> Option<usize>
    ensures place { result ≡ place_of subject sent.now }
    ensures within { IfSome result (λ place. place < length sent.now) }
{
    let cid = subject.cid;
    match subject.which {
        Which::Oldest => first_place(sent, cid),
        Which::Newest => last_place(sent, cid),
    }
}

fn first_place(sent: &[Sent], cid: u16) -> Option<usize>
    ensures place { result ≡ first_place_of cid sent.now }
    ensures within { IfSome result (λ place. place < length sent.now) }
{
    sent.iter().position(|s| s.cid == cid)
}

fn last_place(sent: &[Sent], cid: u16) -> Option<usize>
    ensures place { result ≡ last_place_of cid sent.now }
    ensures within { IfSome result (λ place. place < length sent.now) }
{
    let behind = place_from_end(sent, cid)?;
    Some(sent.len() - 1 - behind)
}

// How many stand behind the last with this identifier.
fn place_from_end(sent: &[Sent], cid: u16) -> Option<usize>
    ensures place { result ≡ position (has_cid cid) (reverse sent.now) }
    ensures within { IfSome result (λ behind. behind < length sent.now) }
{
    sent.iter().rev().position(|s| s.cid == cid)
}
