//! One whole PDU, lent from the buffer that received it.
ghost use Rattle.std.specs.Prelude.{◌≡◌, length, slice_index};
ghost use Rattle.nvt_fields.specs.Field.{field_at};
ghost use Rattle.pdu_cut.specs.CommonHeader.{layout_of};
ghost use Rattle.pdu_cut.specs.Pdu.{IsWhole, header_part, data_part};

use crate::header::{CommonHeader, Layout};
use nvt_fields::PduType;
use std::marker::Model;

/// A whole PDU: its type and its bytes.
#[derive(Debug, Drop)]
pub struct PduView<'a> {
    kind: PduType,
    bytes: &'a [u8],
}

impl<'a> Model for PduView<'a> {
    ghost use Rattle.pdu_cut.specs.Pdu.{Pdu, IsWhole};

    ghost Value = { Pdu };

    ghost view = { λ v. record { kind = v.kind; bytes = v.bytes.now } };

    ghost invariant = { λ v. IsWhole (record { kind = v.kind; bytes = v.bytes.now }) };
}

impl<'a> PduView<'a> {
    pub(crate) fn new(kind: PduType, bytes: &'a [u8]) -> PduView<'a>
        requires { IsWhole (record { kind = kind; bytes = bytes.now }) }
        ensures { result ≡ record { kind = kind; bytes = bytes.now } }
    {
        PduView { kind, bytes }
    }

    /// The PDU's type.
    pub fn kind(&self) -> PduType
        ensures { result ≡ self.now.kind }
    {
        self.kind
    }

    /// The FLAGS byte.
    pub fn flags(&self) -> u8
        ensures { result ≡ slice_index self.now.bytes 1 }
    {
        self.bytes[1]
    }

    /// The header, HLEN bytes.
    pub fn header(&self) -> &'a [u8]
        ensures value { result.now ≡ header_part self.now }
        ensures len { length result.now ≡ (layout_of self.now.kind).header_len }
    {
        &self.bytes[..Layout::of(self.kind).header_len as usize]
    }

    /// The data: from PDO, or from HLEN in a termination request, to PLEN; empty where the PDU has
    /// none.
    pub fn data(&self) -> &'a [u8]
        ensures { result.now ≡ data_part self.now }
    {
        let header = CommonHeader::read(self.bytes);
        &self.bytes[header.data_start(self.kind)..]
    }

    /// The length of the whole PDU in bytes, as its header says.
    pub fn plen(&self) -> u32
        ensures field { result ≡ field_at 4 4 self.now.bytes }
        ensures len { result ≡ length self.now.bytes }
    {
        CommonHeader::read(self.bytes).plen
    }
}
