//! Data that a controller sends (TCP Transport 1.0, section 3.6).
ghost use Rattle.std.specs.Prelude.{◌≡◌, ◌<◌, ◌≤◌, ◌^◌, ◌+◌, length, replicate, ℕ, List, ◌++◌, ◌-◌, OnOk};
ghost use Rattle.pdu_codec.specs.C2hData.{data_offset};
ghost use Rattle.pdu_codec.specs.CommonHeader.{common_header};
ghost use Rattle.nvt_fields.specs.declared.pdu_type.PduType.TheVariants as types;

use crate::append::{Full, append, append_room, common_header};
use bytes::BytesMut;
use nvt_fields::PduType;

pub(crate) const HEADER_LEN: u32 = 24;

pub(crate) const LAST_PDU: u8 = 0x04;

/// One C2HData of a command. This controller never sets SUCCESS in one.
#[derive(Drop)]
pub struct C2hData<'a> {
    /// Command identifier.
    pub cid: u16,
    /// Where the data stands in the command's data, in bytes.
    pub offset: u32,
    /// Whether this is the last data of its command.
    pub last: bool,
    /// The host's PDU data alignment, in units of 4 bytes, 0's based: 0 to 31.
    pub hpda: u8,
    pub payload: &'a [u8],
}

impl C2hData<'_> {
    ghost use Rattle.pdu_codec.specs.C2hData.{c2h_data, piece_of, head_of};
    ghost use Rattle.pdu_codec.specs.Output.{AppendsOrFull};

    /// Appends the PDU: its header, zeros up to the host's alignment, and the data.
    pub fn write(&self, out: &mut BytesMut) -> Result<(), Full>
        requires alignment { self.now.hpda ≤ 31 }
        requires length { length self.now.payload.now + 128 < 2 ^ 32 }
        ensures { AppendsOrFull out.old out.new (c2h_data (piece_of self.now)) result }
    {
        let head = self.head();
        let (common, zeros) = head.common_header();
        append(out, &common, &head.fields(), zeros, self.payload)
    }

    fn head(&self) -> C2hHead
        requires { length self.now.payload.now + 128 < 2 ^ 32 }
        ensures { result ≡ head_of self.now }
    {
        C2hHead {
            cid: self.cid,
            offset: self.offset,
            last: self.last,
            hpda: self.hpda,
            len: self.payload.len() as u32,
        }
    }
}

/// One C2HData without its data, which is written straight into the output.
#[derive(Clone, Copy, Debug, PartialEq, Eq)]
pub struct C2hHead {
    /// Command identifier.
    pub cid: u16,
    /// Where the data stands in the command's data, in bytes.
    pub offset: u32,
    /// Whether this is the last data of its command.
    pub last: bool,
    /// The host's PDU data alignment, in units of 4 bytes, 0's based: 0 to 31.
    pub hpda: u8,
    /// The length of the data, in bytes.
    pub len: u32,
}

impl C2hHead {
    ghost use Rattle.pdu_codec.specs.C2hData.{c2h_data, data_fields, flags_of};
    ghost use Rattle.pdu_codec.specs.C2hData.{piece_with, with_end};
    ghost use Rattle.pdu_codec.specs.Output.{AppendsOrFull};

    /// Appends the PDU with zeros as its data: `len` bytes of room at the end of the buffer, lent by
    /// `&mut out.as_mut_slice()[start..]`. Once they are written over, the PDU has these bytes as its
    /// data.
    pub fn write(&self, out: &mut BytesMut) -> Result<(), Full>
        requires alignment { self.now.hpda ≤ 31 }
        requires length { self.now.len + 128 < 2 ^ 32 }
        ensures room { let pdu = c2h_data (piece_with self.now (replicate self.now.len 0)) in
            AppendsOrFull out.old out.new pdu result }
        ensures written_over { OnOk result ((payload : List ℕ) → length payload ≡ self.now.len
            → with_end out.new.items payload
            ≡ out.old.items ++ c2h_data (piece_with self.now payload)) }
    {
        let (common, zeros) = self.common_header();
        append_room(out, &common, &self.fields(), zeros, self.len as usize)
    }

    // The common header, and how many zeros stand before the data.
    fn common_header(&self) -> ([u8; 8], usize)
        requires alignment { self.now.hpda ≤ 31 }
        requires length { self.now.len + 128 < 2 ^ 32 }
        ensures header { let pdo = data_offset self.now.hpda in
            result.0 ≡ common_header types.C2hData (flags_of self.now.last) 24 pdo (pdo + self.now.len) }
        ensures zeros { result.1 ≡ data_offset self.now.hpda - 24 }
        ensures few { result.1 ≤ 112 }
    {
        let pdo = data_offset(self.hpda);
        let header = common_header(
            PduType::C2hData,
            self.flags(),
            24,
            pdo as u8,
            pdo + self.len,
        );
        (header, (pdo - HEADER_LEN) as usize)
    }

    fn flags(&self) -> u8
        ensures { result ≡ flags_of self.now.last }
    {
        if self.last { LAST_PDU } else { 0 }
    }

    // What follows the common header, up to the zeros.
    fn fields(&self) -> [u8; 16]
        ensures { result ≡ data_fields self.now.cid self.now.offset self.now.len }
    {
        let cid = self.cid.to_le_bytes();
        let at = self.offset.to_le_bytes();
        let len = self.len.to_le_bytes();
        [
            cid[0], cid[1], 0, 0, at[0], at[1], at[2], at[3], len[0], len[1], len[2], len[3], 0, 0,
            0, 0,
        ]
    }
}

/// Where the data begins, after a header of 24 bytes.
pub fn data_offset(hpda: u8) -> u32
    requires { hpda ≤ 31 }
    ensures value { result ≡ data_offset hpda }
    ensures after_header { 24 ≤ result }
    ensures bound { result < 152 }
{
    let unit = (u32::from(hpda) + 1) * 4;
    HEADER_LEN.next_multiple_of(unit)
}
