//! The transfers of one connection.
ghost use Rattle.std.specs.Prelude.{◌≡◌, ◌<◌, ◌+◌, IfOk, IfNone, OnErr, OnSome, Some, length, option_copied, slice_set};
ghost use Rattle.std.specs.Option.{option_map};
ghost use Rattle.tables.specs.NumberTable.{place, with_value};
ghost use Rattle.data_transfer.specs.Part.{begun, data_after, data_answer, h2c_data, left_in, whole_in};
ghost use Rattle.data_transfer.specs.Parts.{count_of, free_tag, has_command, is_of};
ghost use Rattle.data_transfer.specs.Queue.{no_tags};
ghost use Rattle.data_transfer.specs.Whole.{part_of};

use crate::fault::DataFault;
use crate::transfer::{Progress, Transfer, Whole};
use std::alloc::{AllocError, Global};
use std::marker::Model;
use tables::NumberTable;

/// How many transfers a connection may have at a time: as many as its queue may have commands.
pub(crate) const TAGS: usize = 63;

/// The transfers of one connection, by their tags: 0 to 62. It has a table only while it has a transfer.
#[derive(Drop)]
pub(crate) struct Queue<C> {
    // How many there are.
    count: usize,
    table: Option<NumberTable<Transfer<C>>>,
}

impl<C> Model for Queue<C> {
    ghost use Rattle.std.specs.Prelude.{List, Option};
    ghost use Rattle.std.specs.Coded.{coded_list, coded_option};
    ghost use Rattle.data_transfer.specs.Part.{Part, part_code};
    ghost use Rattle.data_transfer.specs.Queue.{IsQueue, tags_in};

    ghost Value = { List (Option (Part C)) };

    ghost coded = { coded_list (coded_option (part_code C.code)) };

    ghost view = { λ q. tags_in q.table };

    ghost invariant = { λ q. IsQueue q.count q.table };
}

// Puts a transfer under the least tag that is free, which there is.
#[tactic(auto, using(crate::proofs::Tags::tags, crate::proofs::Counts::counts))]
fn put_least<C>(table: &mut NumberTable<Transfer<C>>, transfer: Transfer<C>) -> u16
where
    C: Drop,
    requires tags { length table.old ≡ 63 }
    requires room { count_of (place table.old) < 63 }
    ensures least { result ≡ free_tag (place table.old) }
    ensures within { result < 63 }
    ensures tags { length table.new ≡ 63 }
    ensures counted { count_of (place table.new) ≡ count_of (place table.old) + 1 }
    ensures put { table.new ≡ with_value table.old result transfer }
{
    let ttag = table.least_free().unwrap_or(0);
    table.put(ttag, transfer);
    ttag as u16
}

#[tactic(auto, unfolding(crate::specs::Queue::no_tags))]
fn new_table<C>(alloc: Global) -> Result<NumberTable<Transfer<C>>, AllocError>
    ensures { IfOk result (λ table. table ≡ no_tags) }
{
    NumberTable::new(alloc, TAGS)
}

#[tactic(auto, using(crate::proofs::Counts::counts))]
fn data_in<C>(
    table: &mut NumberTable<Transfer<C>>,
    ttag: u16,
    cid: u16,
    offset: u32,
    datal: u32,
    bytes: &[u8],
) -> Result<Progress, DataFault>
    requires { length table.old ≡ 63 }
    ensures tags { length table.new ≡ 63 }
    ensures counted { count_of (place table.new) ≡ count_of (place table.old) }
    ensures answer { let pdu = h2c_data cid offset datal bytes.now in
        result ≡ data_answer (place table.old ttag) pdu }
    ensures after { let pdu = h2c_data cid offset datal bytes.now in
        table.new ≡ slice_set table.old ttag (data_after (place table.old ttag) pdu) }
    ensures refused { OnErr result (table.new ≡ table.old) }
{
    match table.get_mut(usize::from(ttag)) {
        Some(transfer) => transfer.data(cid, offset, datal, bytes),
        None => Err(DataFault::UnknownTag),
    }
}

#[tactic(auto, using(crate::proofs::Counts::counts))]
fn finish_in<C>(table: &mut NumberTable<Transfer<C>>, number: usize) -> Option<Whole<C>>
where
    C: Drop,
    requires { length table.old ≡ 63 }
    ensures tags { length table.new ≡ 63 }
    ensures counted { OnSome result (count_of (place table.new) + 1 ≡ count_of (place table.old)) }
    ensures whole { option_map part_of result ≡ whole_in (place table.old number) }
    ensures left { table.new ≡ slice_set table.old number (left_in (place table.old number)) }
    ensures kept { IfNone result (table.new ≡ table.old) }
{
    if table.get(number)?.progress() == Progress::More {
        return None;
    }
    Some(table.remove(number)?.into_whole())
}

fn is_of<C>(table: &NumberTable<Transfer<C>>, ttag: usize, cid: u16) -> bool
    ensures { result ≡ is_of cid (place table.now ttag) }
{
    match table.get(ttag) {
        Some(transfer) => transfer.is_of(cid),
        None => false,
    }
}

#[tactic(auto, unfolding(crate::specs::Parts::has_command))]
fn has_command_in<C>(table: &NumberTable<Transfer<C>>, cid: u16) -> bool
    ensures { result ≡ has_command (place table.now) cid }
{
    (0..TAGS).any(|ttag| is_of(table, ttag, cid))
}

#[tactic(auto, using(crate::proofs::Tags::tags))]
impl<C> Queue<C> {
    /// No transfer, and no memory for one.
    pub(crate) fn new() -> Queue<C>
        ensures { result ≡ no_tags }
    {
        Queue {
            count: 0,
            table: None,
        }
    }

    /// Begins a transfer, under the least tag that is free.
    pub(crate) fn begin(
        &mut self,
        alloc: Global,
        cid: u16,
        command: C,
        asked: u32,
    ) -> Result<u16, AllocError>
    where
        C: Drop,
        requires { count_of (place self.old) < 63 }
        ensures least { IfOk result (λ ttag. ttag ≡ free_tag (place self.old)) }
        ensures within { IfOk result (λ ttag. ttag < length self.old) }
        ensures begun { let part = begun cid command asked in
            IfOk result (λ ttag. self.new ≡ with_value self.old ttag part) }
        ensures refused { OnErr result (self.new ≡ self.old) }
    {
        let transfer = Transfer::new(alloc, cid, command, asked)?;
        match &mut self.table {
            Some(table) => {
                self.count += 1;
                Ok(put_least(table, transfer))
            }
            None => {
                let mut table = new_table(alloc)?;
                let ttag = put_least(&mut table, transfer);
                self.count = 1;
                self.table = Some(table);
                Ok(ttag)
            }
        }
    }

    /// Takes the data of an H2CData, or says why it is refused and stays as it was.
    pub(crate) fn data(
        &mut self,
        ttag: u16,
        cid: u16,
        offset: u32,
        datal: u32,
        bytes: &[u8],
    ) -> Result<Progress, DataFault>
        ensures answer { let pdu = h2c_data cid offset datal bytes.now in
            result ≡ data_answer (place self.old ttag) pdu }
        ensures after { let pdu = h2c_data cid offset datal bytes.now in
            self.new ≡ slice_set self.old ttag (data_after (place self.old ttag) pdu) }
        ensures refused { OnErr result (self.new ≡ self.old) }
    {
        match &mut self.table {
            Some(table) => data_in(table, ttag, cid, offset, datal, bytes),
            None => Err(DataFault::UnknownTag),
        }
    }

    /// Hands out the transfer of that tag, if it is there and whole.
    pub(crate) fn finish(&mut self, ttag: u16) -> Option<Whole<C>>
    where
        C: Drop,
        ensures whole { option_map part_of result ≡ whole_in (place self.old ttag) }
        ensures left { self.new ≡ slice_set self.old ttag (left_in (place self.old ttag)) }
        ensures kept { IfNone result (self.new ≡ self.old) }
    {
        match &mut self.table {
            Some(table) => {
                let whole = finish_in(table, usize::from(ttag))?;
                self.count -= 1;
                self.release();
                Some(whole)
            }
            None => None,
        }
    }

    // Gives the table back where no transfer is left.
    fn release(&mut self)
    where
        C: Drop,
        ensures { self.new ≡ self.old }
    {
        if self.count == 0 {
            self.table = None;
        }
    }

    /// Drops all transfers, and the table.
    pub(crate) fn clear(&mut self)
    where
        C: Drop,
        ensures { self.new ≡ no_tags }
    {
        self.count = 0;
        self.table = None;
    }

    /// What `data` would answer.
    pub(crate) fn check(
        &self,
        ttag: u16,
        cid: u16,
        offset: u32,
        datal: u32,
        bytes: &[u8],
    ) -> Result<Progress, DataFault>
        ensures { let pdu = h2c_data cid offset datal bytes.now in
            result ≡ data_answer (place self.now ttag) pdu }
    {
        match self.get(ttag) {
            Some(transfer) => transfer.check(cid, offset, datal, bytes),
            None => Err(DataFault::UnknownTag),
        }
    }

    // The transfer of that tag, if it is there.
    fn get(&self, ttag: u16) -> Option<&Transfer<C>>
        ensures { option_copied result ≡ place self.now ttag }
    {
        match &self.table {
            Some(table) => table.get(usize::from(ttag)),
            None => None,
        }
    }

    /// What the transfer of that tag, if it is there, was begun with.
    pub(crate) fn command(&self, ttag: u16) -> Option<&C>
        ensures { option_copied result ≡ option_map (λ part. part.command) (place self.now ttag) }
    {
        match self.get(ttag) {
            Some(transfer) => Some(transfer.command()),
            None => None,
        }
    }

    /// How many transfers there are.
    pub(crate) fn count(&self) -> usize
        ensures { result ≡ count_of (place self.now) }
    {
        self.count
    }

    /// Whether one of them is of the command of that identifier.
    pub(crate) fn has_command(&self, cid: u16) -> bool
        ensures { result ≡ has_command (place self.now) cid }
    {
        match &self.table {
            Some(table) => has_command_in(table, cid),
            None => false,
        }
    }
}
