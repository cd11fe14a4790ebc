//! What was heard on one connection, and is not answered yet.
ghost use Rattle.std.specs.Prelude.{◌≡◌, ◌++◌, ◌-◌, [], IfOk, OnErr, OnOk, false, drop, length};
ghost use Rattle.replay_words.specs.Hearing.{Hears};
ghost use Rattle.replay_words.specs.HostStream.{Heard, Listens, nothing_heard, saying, words_said};
ghost use Rattle.replay_words.specs.Told.{Tells};

use crate::hearing::hear;
use crate::outstanding::OutstandingCommands;
use pdu_cut::{RxBuf, Side};
use pdu_words::{Explanation, explain};
use std::alloc::{AllocError, Global};
use std::io::{self, Write};
use std::marker::Model;

/// One connection, from its opening on.
#[derive(Drop)]
pub struct HostStream {
    // What the host sent that is less than a PDU.
    held: Vec<u8>,
    // After a fault of a common header the stream cannot be cut.
    deaf: bool,
    commands: OutstandingCommands,
}

impl Model for HostStream {
    ghost use Rattle.std.specs.Prelude.{◌≡◌, false};
    ghost use Rattle.pdu_cut.specs.declared.side.Side.TheVariants.{Target};
    ghost use Rattle.pdu_cut.specs.Front.{front, incomplete};
    ghost use Rattle.replay_words.specs.HostStream.{Heard};

    ghost Value = { Heard };

    ghost view = { λ c. record { held = c.held.items; deaf = c.deaf; commands = c.commands } };

    ghost invariant = { λ c. c.deaf ≡ false → front Target c.held.items ≡ incomplete };
}

impl HostStream {
    /// A connection on which nothing was sent.
    pub fn new(alloc: Global) -> Result<HostStream, AllocError>
        ensures { IfOk result (λ host_stream. host_stream ≡ nothing_heard) }
    {
        Ok(HostStream {
            held: Vec::new(alloc),
            deaf: false,
            commands: OutstandingCommands::new(alloc)?,
        })
    }

    /// Hears bytes that the host of this connection sends, in whatever pieces they come, and writes a
    /// line for each PDU that they complete. Where that fails nothing was heard.
    pub fn hear<W: Write>(
        &mut self,
        alloc: Global,
        number: usize,
        bytes: &[u8],
        out: &mut W,
    ) -> io::Result<()>
        ensures heard { OnOk result (Tells (W.contents out.old) (W.contents out.new)
            (Listens number self.old self.new bytes.now)) }
        ensures err { OnErr result (self.new ≡ self.old) }
    {
        let mut text = Vec::new(alloc);
        if !self.deaf {
            let after = self.after(alloc, number, bytes, &mut text)?;
            out.write_all(&text)?;
            *self = after;
        }
        Ok(())
    }

    // What it is once it has heard these bytes, and the lines of the PDUs that they complete.
    fn after(
        &self,
        alloc: Global,
        number: usize,
        bytes: &[u8],
        text: &mut Vec<u8>,
    ) -> io::Result<HostStream>
        requires hears { self.now.deaf ≡ false }
        requires begins { text.old.items ≡ [] }
        ensures { IfOk result (λ after. Hears number self.now.held after.held
            self.now.commands after.commands bytes.now text.new.items after.deaf) }
    {
        let mut commands = self.commands.copy(alloc)?;
        let mut buffer = RxBuf::new(alloc, Side::Target)?;
        let room = buffer.room();
        buffer.receive(&self.held);
        let deaf = hear(&mut buffer, &mut commands, number, bytes, text)?;
        let held = last_of(alloc, &self.held, bytes, room - buffer.room())?;
        Ok(HostStream {
            held,
            deaf,
            commands,
        })
    }

    /// What a PDU is that is sent on the connection, with its command where that is kept. A response
    /// completes its command, and one that answers a reset drops those sent before: an event request
    /// that waits gets no answer then (Base 2.0, section 3.7.2).
    pub fn say(&mut self, pdu: &[u8]) -> Explanation
        ensures words { result ≡ words_said self.old pdu.now }
        ensures after { self.new ≡ saying self.old pdu.now }
    {
        let bare = explain(pdu, None);
        let Some(subject) = bare.subject() else {
            return bare;
        };
        let command = self.commands.command(subject);
        let explanation = explain(pdu, command);
        if explanation.resets() {
            self.commands.reset(subject);
        } else if explanation.completes() {
            self.commands.complete(subject);
        }
        explanation
    }
}

// The last bytes of both together, so many of them.
#[tactic(auto, using(crate::proofs::Lasts::last_of_both))]
fn last_of(alloc: Global, front: &[u8], back: &[u8], len: usize) -> Result<Vec<u8>, AllocError>
    ensures { IfOk result (λ last.
        last.items ≡ drop (length (front.now ++ back.now) - len) (front.now ++ back.now)) }
{
    let behind = len.saturating_sub(back.len());
    let (_, of_front) = front.split_at(front.len().saturating_sub(behind));
    let (_, of_back) = back.split_at(back.len().saturating_sub(len));
    let mut last = Vec::from_slice(alloc, of_front)?;
    last.extend_from_slice(of_back)?;
    Ok(last)
}
