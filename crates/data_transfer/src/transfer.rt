//! One transfer: what its R2T asked for, and what came of it.
ghost use Rattle.std.specs.Prelude.{◌≡◌, IfOk, IsTrue, Some};
ghost use Rattle.data_transfer.specs.Part.{begun, data_answer, h2c_data, is_whole, part_after, part_fault, progress_at};
ghost use Rattle.data_transfer.specs.Part.{progress_of};
ghost use Rattle.data_transfer.specs.Parts.{is_of};
ghost use Rattle.data_transfer.specs.Whole.{part_of};

use crate::fault::DataFault;
use std::alloc::{AllocError, Global};
use std::marker::Model;

/// The most data of one H2CData, in bytes: what an ICResp says as MAXH2CDATA.
pub const MAX_H2C_DATA: u32 = 16_384;

/// How far a transfer has come.
#[derive(Clone, Copy, Debug, PartialEq, Eq)]
pub enum Progress {
    /// More data is to come.
    More,
    /// All that its R2T asked for has come.
    Whole,
}

/// A transfer of which all data has come.
#[derive(Drop)]
pub struct Whole<C> {
    pub cid: u16,
    /// What the transfer was begun with.
    pub command: C,
    /// The data of its H2CData, joined.
    pub data: Vec<u8>,
}

/// A transfer. Its memory was taken when it was made. A contract sees it as a `Part`.
#[derive(Drop)]
pub(crate) struct Transfer<C> {
    cid: u16,
    command: C,
    asked: usize,
    bytes: Vec<u8>,
}

impl<C> Model for Transfer<C> {
    ghost use Rattle.data_transfer.specs.Part.{Part, part_code};

    ghost Value = { Part C };

    ghost coded = { part_code C.code };

    ghost use Rattle.std.specs.Prelude.{◌≤◌, length, vec_capacity};

    ghost view = { λ t. record { cid = t.cid; command = t.command; asked = t.asked; bytes = t.bytes.items } };

    ghost invariant = { λ t. (length t.bytes.items ≤ t.asked) × (t.asked ≤ vec_capacity t.bytes) };
}

impl<C> Transfer<C> {
    /// A transfer of so many bytes, none of which has come.
    pub(crate) fn new(
        alloc: Global,
        cid: u16,
        command: C,
        asked: u32,
    ) -> Result<Transfer<C>, AllocError>
    where
        C: Drop,
        ensures { IfOk result (λ transfer. transfer ≡ begun cid command asked) }
    {
        let bytes = Vec::with_capacity(alloc, asked as usize)?;
        Ok(Transfer {
            cid,
            command,
            asked: asked as usize,
            bytes,
        })
    }

    /// Why an H2CData is refused, if it is.
    fn fault(&self, cid: u16, offset: u32, datal: u32, bytes: &[u8]) -> Option<DataFault>
        ensures { result ≡ part_fault self.now (h2c_data cid offset datal bytes.now) }
    {
        if cid != self.cid {
            return Some(DataFault::OtherCommand);
        }
        if datal as usize != bytes.len() {
            return Some(DataFault::LengthMismatch);
        }
        if datal > MAX_H2C_DATA {
            return Some(DataFault::TooLong);
        }
        let end = u64::from(offset) + u64::from(datal);
        if offset as usize != self.bytes.len() || end > self.asked as u64 {
            return Some(DataFault::OutOfRange);
        }
        None
    }

    /// What `data` would answer.
    pub(crate) fn check(
        &self,
        cid: u16,
        offset: u32,
        datal: u32,
        bytes: &[u8],
    ) -> Result<Progress, DataFault>
        ensures { result ≡ data_answer (Some self.now) (h2c_data cid offset datal bytes.now) }
    {
        match self.fault(cid, offset, datal, bytes) {
            Some(fault) => Err(fault),
            None => Ok(self.progress_at(self.bytes.len() + bytes.len())),
        }
    }

    /// Appends the data of an H2CData, or says why it is refused and stays as it was. It takes no
    /// memory.
    pub(crate) fn data(
        &mut self,
        cid: u16,
        offset: u32,
        datal: u32,
        bytes: &[u8],
    ) -> Result<Progress, DataFault>
        ensures answer { let pdu = h2c_data cid offset datal bytes.now in
            result ≡ data_answer (Some self.old) pdu }
        ensures after { let pdu = h2c_data cid offset datal bytes.now in
            self.new ≡ part_after (part_fault self.old pdu) pdu self.old }
    {
        if let Some(fault) = self.fault(cid, offset, datal, bytes) {
            return Err(fault);
        }
        // There is room for all that was asked for.
        let _ = self.bytes.extend_from_slice(bytes);
        Ok(self.progress())
    }

    /// How far it has come.
    pub(crate) fn progress(&self) -> Progress
        ensures { result ≡ progress_of self.now }
    {
        self.progress_at(self.bytes.len())
    }

    // How far it would have come with so many bytes.
    fn progress_at(&self, len: usize) -> Progress
        ensures { result ≡ progress_at len self.now.asked }
    {
        if len == self.asked {
            Progress::Whole
        } else {
            Progress::More
        }
    }

    /// What it was begun with.
    pub(crate) fn command(&self) -> &C
        ensures { result.now ≡ self.now.command }
    {
        &self.command
    }

    /// Whether it is of the command of that identifier.
    pub(crate) fn is_of(&self, cid: u16) -> bool
        ensures { result ≡ is_of cid (Some self.now) }
    {
        self.cid == cid
    }

    /// Its identifier, command and bytes.
    pub(crate) fn into_whole(self) -> Whole<C>
        requires { IsTrue (is_whole self) }
        ensures { part_of result ≡ self }
    {
        Whole {
            cid: self.cid,
            command: self.command,
            data: self.bytes,
        }
    }
}
