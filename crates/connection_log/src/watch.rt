//! What the bytes that go by on a connection say of its Connect, and of how the target ended it.
ghost use Rattle.std.specs.Prelude.{◌≡◌, ◌≤◌, ◌++◌, ℕ, List, [], IfOk, length};
ghost use Rattle.connection_log.specs.Reading.{HasRead};
ghost use Rattle.connection_log.specs.Stages.{after_reply, passed_over, told_by};
ghost use Rattle.connection_log.specs.Watching.{HasReadSome, answered, begun, heard};
ghost use Rattle.connection_log.specs.Watching.{requested, response_at, told};
ghost use Rattle.connection_log.specs.Asked.{asked_in, termination_in};

use crate::asked::{AskedFor, asked_in, termination_of};
use crate::pdu_front::PduFront;
use crate::stage::{Stage, after_reply, after_request, response_in, told_by};
use pdu_codec::TermReq;
use pdu_words::ResponseFields;
use std::alloc::{AllocError, Global};

// As many bytes of a PDU as a Connect has, with its data behind the zeros of any alignment.
const REQUEST_MAX: usize = 1_152;

// As many as a CapsuleResp and the header of a C2HTermReq have.
const REPLY_MAX: usize = 24;

/// Watches the bytes of one connection at a time, in any pieces: what its Connect asks for, how it is answered, and the
/// termination that the target sent. It knows which response answers the Connect, since the target answers in order
/// what comes before a Connect succeeds. It allocates when it is made, and never again.
#[derive(Drop)]
pub struct ConnectionWatch {
    requests: PduFront,
    replies: PduFront,
    stage: Stage,
}

impl ConnectionWatch {
    /// For the first connection.
    pub fn new(alloc: Global) -> Result<ConnectionWatch, AllocError>
        ensures { IfOk result (λ watch. watch ≡ begun 1152 24) }
    {
        Ok(ConnectionWatch {
            requests: PduFront::new(alloc, REQUEST_MAX)?,
            replies: PduFront::new(alloc, REPLY_MAX)?,
            stage: Stage::Before { ahead: 0 },
        })
    }

    /// Begins with another connection.
    pub fn begin(&mut self)
        ensures begun { self.new ≡ begun self.old.requests.most self.old.replies.most }
        ensures requests { HasRead self.new.requests [] }
        ensures replies { HasRead self.new.replies [] }
    {
        self.requests.clear();
        self.replies.clear();
        self.stage = Stage::Before { ahead: 0 };
    }

    /// The host sent these bytes, behind those before. They are looked at up to the end of a Connect, and again once
    /// that is refused.
    pub fn received(&mut self, bytes: &[u8])
        ensures after { self.new ≡ heard self.old bytes.now }
        ensures stream { (before : List ℕ) → HasRead self.old.requests before
            → HasReadSome self.new before bytes.now }
    {
        let mut at = 0;
        while at < bytes.len() {
            let Stage::Before { ahead } = self.stage else {
                self.stage = passed_over(self.stage);
                return;
            };
            at += self.requests.read(&bytes[at..]);
            self.stage = requested(&self.requests, ahead);
        }
    }

    /// The target sent these bytes, behind those before. What it says to the Connect, where that is answered in them:
    /// at most one is.
    pub fn given(&mut self, bytes: &[u8]) -> Option<ResponseFields>
        ensures told { result ≡ told self.old bytes.now }
        ensures after { self.new ≡ answered self.old bytes.now }
        ensures stream { (before : List ℕ) → HasRead self.old.replies before
            → HasRead self.new.replies (before ++ bytes.now) }
    {
        let mut told = None;
        let mut at = 0;
        while at < bytes.len() {
            at += self.replies.read(&bytes[at..]);
            told = told.or(self.take_reply());
        }
        told
    }

    // Takes the target's PDU under way, once it is whole, for a response, if it is one: what that says to the Connect that
    // waits. None is looked at once a Connect succeeded, so that no reply of data costs more than its length.
    fn take_reply(&mut self) -> Option<ResponseFields>
        ensures told { result ≡ told_by (response_at self.old.replies) self.old.stage }
        ensures stage { self.new.stage ≡ after_reply (response_at self.old.replies) self.old.stage }
        ensures stays { self.new ≡ record self.old { stage = self.new.stage } }
    {
        if self.stage == Stage::Over {
            return None;
        }
        let response = response_at(&self.replies);
        let told = told_by(response, self.stage);
        self.stage = after_reply(response, self.stage);
        told
    }

    /// What the Connect asks for that came last; none where its data did not come, or stands behind its first 1,152
    /// bytes.
    pub fn connect(&self) -> Option<AskedFor<'_>>
        ensures { result ≡ asked_in self.now.requests.front }
    {
        asked_in(self.requests.front())
    }

    /// The termination that the target sent last; none where its last PDU is another, or is not whole.
    pub fn termination(&self) -> Option<TermReq>
        ensures { result ≡ termination_in self.now.replies }
    {
        if !self.replies.is_whole() {
            return None;
        }
        termination_of(self.replies.front())
    }
}

// The host's PDU under way came so far, while no Connect waits.
fn requested(requests: &PduFront, ahead: u32) -> Stage
    ensures { result ≡ requested requests.now ahead }
{
    if requests.is_whole() {
        return after_request(requests.front(), ahead);
    }
    Stage::Before { ahead }
}

// The response that the target's PDU under way is, once it is whole.
fn response_at(replies: &PduFront) -> Option<ResponseFields>
    ensures { result ≡ response_at replies.now }
{
    if replies.is_whole() {
        return response_in(replies.front());
    }
    None
}

// Bytes came behind a Connect that waits.
fn passed_over(stage: Stage) -> Stage
    ensures { result ≡ passed_over stage }
{
    match stage {
        Stage::Waits { ahead, .. } => Stage::Waits {
            ahead,
            passed: true,
        },
        Stage::Before { .. } | Stage::Over => stage,
    }
}
