//! The transfers of all connections.
ghost use Rattle.std.specs.Prelude.{◌≡◌, ◌<◌, IfNone, IfOk, OnErr, Some, option_copied};
ghost use Rattle.std.specs.Option.{option_map};
ghost use Rattle.data_transfer.specs.Part.{begun, data_after, data_answer, h2c_data, left_in, whole_in};
ghost use Rattle.data_transfer.specs.Parts.{Stand, count_of, free_tag, has_command, no_parts, part_at};
ghost use Rattle.data_transfer.specs.Parts.{with_part, without_queue};
ghost use Rattle.data_transfer.specs.Whole.{part_of};

use crate::fault::DataFault;
use crate::queue::Queue;
use crate::transfer::{Progress, Whole};
use std::alloc::{AllocError, Global};
use std::marker::Model;

/// How many connections there are.
const CONNECTIONS: usize = 64;

/// The transfers of connections 0 to 63: under each transfer tag (TTAG) of a connection the command that
/// an R2T asked data for, and the data that came so far. `C` is what the caller wants back with the
/// data. A call is answered by one connection's transfers alone, whatever the others have.
#[derive(Drop)]
pub struct Transfers<C> {
    alloc: Global,
    queues: Vec<Queue<C>>,
}

impl<C> Model for Transfers<C> {
    ghost use Rattle.std.specs.Prelude.{◌≡◌, List, Option, length};
    ghost use Rattle.std.specs.Coded.{coded_list, coded_option};
    ghost use Rattle.data_transfer.specs.Part.{Part, part_code};

    ghost Value = { List (List (Option (Part C))) };

    ghost coded = { coded_list (coded_list (coded_option (part_code C.code))) };

    ghost view = { λ t. t.queues.items };

    ghost invariant = { λ t. length t.queues.items ≡ 64 };
}

#[tactic(auto, using(crate::proofs::Places::places))]
impl<C> Transfers<C> {
    /// No transfer.
    pub fn new(alloc: Global) -> Result<Transfers<C>, AllocError>
    where
        C: Drop,
        ensures { IfOk result (λ transfers. Stand transfers no_parts) }
    {
        let mut queues = Vec::with_capacity(alloc, CONNECTIONS)?;
        for _ in 0..CONNECTIONS {
            queues.push(Queue::new())?;
        }
        Ok(Transfers { alloc, queues })
    }

    /// Begins a transfer of `asked` bytes, as its R2T asks for, under the least tag that no other
    /// transfer of the connection uses. All memory that it will need is taken here. A refusal leaves
    /// all as it was. The connection's number is below 64, and it has fewer than 63 transfers: as many
    /// as a queue has commands outstanding at most (Base 2.0, section 3.3.3.1).
    pub fn begin(
        &mut self,
        conn: usize,
        cid: u16,
        command: C,
        asked: u32,
    ) -> Result<u16, AllocError>
    where
        C: Drop,
        requires known { conn < 64 }
        requires room { count_of (part_at self.old conn) < 63 }
        ensures least { IfOk result (λ ttag. ttag ≡ free_tag (part_at self.old conn)) }
        ensures begun { let part = begun cid command asked in
            IfOk result (λ ttag. Stand self.new (with_part (part_at self.old) conn ttag (Some part))) }
        ensures refused { OnErr result (self.new ≡ self.old) }
    {
        self.queues[conn].begin(self.alloc, cid, command, asked)
    }

    /// Takes the data of an H2CData, which has this CCCID (`cid`), DATAO (`offset`) and DATAL, and
    /// carries these bytes, or says why it is refused. It takes no memory, and a refusal leaves all as
    /// it was.
    pub fn data(
        &mut self,
        conn: usize,
        ttag: u16,
        cid: u16,
        offset: u32,
        datal: u32,
        bytes: &[u8],
    ) -> Result<Progress, DataFault>
        ensures answer { let pdu = h2c_data cid offset datal bytes.now in
            result ≡ data_answer (part_at self.old conn ttag) pdu }
        ensures after { let pdu = h2c_data cid offset datal bytes.now in
            let part = data_after (part_at self.old conn ttag) pdu in
            Stand self.new (with_part (part_at self.old) conn ttag part) }
        ensures refused { OnErr result (self.new ≡ self.old) }
    {
        match self.queues.get_mut(conn) {
            Some(queue) => queue.data(ttag, cid, offset, datal, bytes),
            None => Err(DataFault::UnknownTag),
        }
    }

    /// What `data` would answer.
    pub fn check(
        &self,
        conn: usize,
        ttag: u16,
        cid: u16,
        offset: u32,
        datal: u32,
        bytes: &[u8],
    ) -> Result<Progress, DataFault>
        ensures { let pdu = h2c_data cid offset datal bytes.now in
            result ≡ data_answer (part_at self.now conn ttag) pdu }
    {
        match self.queues.get(conn) {
            Some(queue) => queue.check(ttag, cid, offset, datal, bytes),
            None => Err(DataFault::UnknownTag),
        }
    }

    /// What the transfer of that tag, if it is there, was begun with.
    pub fn command(&self, conn: usize, ttag: u16) -> Option<&C>
        ensures { option_copied result
            ≡ option_map (λ part. part.command) (part_at self.now conn ttag) }
    {
        match self.queues.get(conn) {
            Some(queue) => queue.command(ttag),
            None => None,
        }
    }

    /// How many transfers a connection has.
    pub fn count(&self, conn: usize) -> usize
        requires { conn < 64 }
        ensures { result ≡ count_of (part_at self.now conn) }
    {
        self.queues[conn].count()
    }

    /// Whether one of a connection's transfers is of the command of that identifier (CID).
    pub fn has_command(&self, conn: usize, cid: u16) -> bool
        requires { conn < 64 }
        ensures { result ≡ has_command (part_at self.now conn) cid }
    {
        self.queues[conn].has_command(cid)
    }

    /// Hands out the transfer of that tag, if it is there and all its data has come; its tag and its
    /// memory are then free. Else all stays as it was.
    pub fn finish(&mut self, conn: usize, ttag: u16) -> Option<Whole<C>>
    where
        C: Drop,
        ensures whole { option_map part_of result ≡ whole_in (part_at self.old conn ttag) }
        ensures left { let part = left_in (part_at self.old conn ttag) in
            Stand self.new (with_part (part_at self.old) conn ttag part) }
        ensures kept { IfNone result (self.new ≡ self.old) }
    {
        match self.queues.get_mut(conn) {
            Some(queue) => queue.finish(ttag),
            None => None,
        }
    }

    /// Drops all transfers of a connection, with their memory.
    pub fn drop_queue(&mut self, conn: usize)
    where
        C: Drop,
        ensures { Stand self.new (without_queue (part_at self.old) conn) }
    {
        if let Some(queue) = self.queues.get_mut(conn) {
            queue.clear();
        }
    }
}
