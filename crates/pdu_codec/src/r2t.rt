ghost use Rattle.std.specs.Prelude.{◌≡◌, ◌≤◌, length};
ghost use Rattle.pdu_codec.specs.Output.{AppendsOrFull};
ghost use Rattle.pdu_codec.specs.R2t.{r2t, r2t_fields, r2t_of};

use crate::append::{Full, append, common_header};
use bytes::BytesMut;
use nvt_fields::{PduType, u16_at, u32_at};

/// What a controller asks for, Ready to Transfer: data of a command (TCP Transport 1.0, section 3.6).
#[derive(Clone, Copy, Debug, PartialEq, Eq)]
pub struct R2t {
    /// Command identifier.
    pub cccid: u16,
    /// Transfer tag, which the data is to carry.
    pub ttag: u16,
    /// Where the data stands in the command's data, in bytes.
    pub r2to: u32,
    /// The length of the data, in bytes.
    pub r2tl: u32,
}

impl R2t {
    /// What a header of 24 bytes asks for.
    pub fn read(header: &[u8]) -> R2t
        requires { 20 ≤ length header.now }
        ensures { result ≡ r2t_of header.now }
    {
        R2t {
            cccid: u16_at(header, 8),
            ttag: u16_at(header, 10),
            r2to: u32_at(header, 12),
            r2tl: u32_at(header, 16),
        }
    }

    /// Appends the PDU, of 24 bytes.
    pub fn write(&self, out: &mut BytesMut) -> Result<(), Full>
        ensures { AppendsOrFull out.old out.new (r2t self.now) result }
    {
        let header = common_header(PduType::R2t, 0, 24, 0, 24);
        append(out, &header, &self.fields(), 0, &[])
    }

    // What follows the common header.
    fn fields(&self) -> [u8; 16]
        ensures { result ≡ r2t_fields self.now }
    {
        let cccid = self.cccid.to_le_bytes();
        let ttag = self.ttag.to_le_bytes();
        let at = self.r2to.to_le_bytes();
        let len = self.r2tl.to_le_bytes();
        [
            cccid[0], cccid[1], ttag[0], ttag[1], at[0], at[1], at[2], at[3], len[0], len[1],
            len[2], len[3], 0, 0, 0, 0,
        ]
    }
}
