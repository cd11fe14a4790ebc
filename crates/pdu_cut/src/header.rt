//! The common header of a PDU, and the checks that its first 8 bytes decide.
ghost use Rattle.std.specs.Prelude.{◌≡◌, ◌≤◌, length};
ghost use Rattle.pdu_cut.specs.CommonHeader.{header_of, layout_of, invalid_field};
ghost use Rattle.pdu_cut.specs.CommonHeader.{places_data, is_misplaced, type_or_fault};
ghost use Rattle.pdu_cut.specs.Pdu.{data_start};

use crate::side::Side;
use nvt_fields::{FatalErrorStatus, PduType, u32_at};

/// The length of the common header in bytes.
pub(crate) const COMMON_HEADER_LEN: usize = 8;

/// The first 8 bytes of each PDU: type, flags, header length, data offset and PDU length, the
/// lengths and the offset in bytes.
#[derive(Clone, Copy)]
pub(crate) struct CommonHeader {
    pub(crate) code: u8,
    pub(crate) flags: u8,
    pub(crate) hlen: u8,
    pub(crate) pdo: u8,
    pub(crate) plen: u32,
}

/// Why a common header is refused: a fatal error status and the offset of the field in error.
#[derive(Clone, Copy)]
pub(crate) struct HeaderFault {
    pub(crate) fes: FatalErrorStatus,
    pub(crate) fei: u32,
}

/// What the standard fixes for each type: the flags that announce a digest, the header's length,
/// and the bounds of the whole PDU's length, in bytes.
#[derive(Clone, Copy)]
pub(crate) struct Layout {
    pub(crate) digest_flags: u8,
    pub(crate) header_len: u8,
    pub(crate) shortest: u32,
    pub(crate) longest: u32,
}

impl Layout {
    pub(crate) fn of(kind: PduType) -> Layout
        ensures { result ≡ layout_of kind }
    {
        let (digest_flags, header_len, shortest, longest) = match kind {
            PduType::IcReq | PduType::IcResp => (0b00, 128, 128, 128),
            PduType::H2cTermReq | PduType::C2hTermReq => (0b00, 24, 24, 152),
            PduType::CapsuleCmd => (0b11, 72, 72, 32_768),
            PduType::CapsuleResp | PduType::R2t => (0b01, 24, 24, 24),
            PduType::H2cData => (0b11, 24, 24, 32_768),
            PduType::C2hData => (0b11, 24, 24, 135_168),
        };
        Layout {
            digest_flags,
            header_len,
            shortest,
            longest,
        }
    }
}

impl HeaderFault {
    /// The header's field at this offset is invalid.
    fn invalid_field(offset: u32) -> HeaderFault
        ensures { result ≡ invalid_field offset }
    {
        HeaderFault {
            fes: FatalErrorStatus::InvalidHeaderField,
            fei: offset,
        }
    }
}

impl CommonHeader {
    /// The common header of the PDU that these bytes begin.
    pub(crate) fn read(bytes: &[u8]) -> CommonHeader
        requires { 8 ≤ length bytes.now }
        ensures { result ≡ header_of bytes.now }
    {
        CommonHeader {
            code: bytes[0],
            flags: bytes[1],
            hlen: bytes[2],
            pdo: bytes[3],
            plen: u32_at(bytes, 4),
        }
    }

    /// The type of the PDU, or the first fault for the side that receives it.
    pub(crate) fn check(self, side: Side) -> Result<PduType, HeaderFault>
        ensures { result ≡ type_or_fault side self }
    {
        let Some(kind) = PduType::from_code(self.code) else {
            return Err(HeaderFault::invalid_field(0));
        };
        let layout = Layout::of(kind);
        if !side.expects(kind) {
            return Err(HeaderFault::invalid_field(0));
        }
        if self.flags & layout.digest_flags != 0 {
            return Err(HeaderFault::invalid_field(1));
        }
        if self.hlen != layout.header_len {
            return Err(HeaderFault::invalid_field(2));
        }
        if self.plen < layout.shortest || self.plen > layout.longest {
            return Err(HeaderFault::invalid_field(4));
        }
        if self.places_data(kind) && self.is_misplaced() {
            return Err(HeaderFault::invalid_field(3));
        }
        Ok(kind)
    }

    /// Whether a PDU of this type and length has data at its data offset.
    fn places_data(self, kind: PduType) -> bool
        ensures { result ≡ places_data kind self.plen }
    {
        match kind {
            PduType::CapsuleCmd => self.plen > 72,
            PduType::H2cData | PduType::C2hData => true,
            _ => false,
        }
    }

    /// Where the data of a PDU of this type begins; at its end where it has none.
    pub(crate) fn data_start(self, kind: PduType) -> usize
        ensures { result ≡ data_start kind self }
    {
        match kind {
            PduType::CapsuleCmd | PduType::H2cData | PduType::C2hData
                if u32::from(self.hlen) < self.plen => { self.pdo as usize }
            PduType::H2cTermReq | PduType::C2hTermReq => self.hlen as usize,
            _ => self.plen as usize,
        }
    }

    /// Whether the data offset is inside the header, behind the end or not aligned to 4 bytes.
    fn is_misplaced(self) -> bool
        ensures { result ≡ is_misplaced self }
    {
        self.pdo < self.hlen || u32::from(self.pdo) > self.plen || self.pdo % 4 != 0
    }
}
