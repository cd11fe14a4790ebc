ghost use Rattle.std.specs.Prelude.{◌≡◌, ◌≤◌, ◌<◌, ◌^◌, ◌+◌, ◌++◌, length, OnOk, OnErr, IsOk};

use crate::append::{Full, append, common_header};
use crate::data_pdu::{HEADER_LEN, LAST_PDU, data_offset};
use bytes::BytesMut;
use nvt_fields::PduType;

/// Data of a command that its controller asked for, H2CData (TCP Transport 1.0, section 3.6).
#[derive(Drop)]
pub struct H2cData<'a> {
    /// Command identifier.
    pub cccid: u16,
    /// Transfer tag, of the R2T that asked for the data.
    pub ttag: u16,
    /// Where the data stands in the command's data, in bytes.
    pub offset: u32,
    /// Whether this is the last data of its R2T.
    pub last: bool,
    /// The controller's PDU data alignment, in units of 4 bytes, 0's based: 0 to 31.
    pub cpda: u8,
    pub payload: &'a [u8],
}

impl H2cData<'_> {
    ghost use Rattle.pdu_codec.specs.C2hData.{flags_of};
    ghost use Rattle.pdu_codec.specs.H2cData.{h2c_data, sent_fields, sent_of};
    ghost use Rattle.pdu_codec.specs.Output.{AppendsOrFull};

    /// Appends the PDU: its header, zeros up to the controller's alignment, and the data.
    pub fn write(&self, out: &mut BytesMut) -> Result<(), Full>
        requires alignment { self.now.cpda ≤ 31 }
        requires length { length self.now.payload.now + 152 < 2 ^ 32 }
        ensures exact { AppendsOrFull out.old out.new (h2c_data (sent_of self.now)) result }
        ensures bytes { OnOk result (out.new.items ≡ out.old.items ++ h2c_data (sent_of self.now)) }
        ensures full { OnErr result (out.new ≡ out.old) }
        ensures fits { 152 + length self.now.payload.now ≤ out.old.spare → IsOk result }
        ensures spare { out.old.spare ≤ out.new.spare + (152 + length self.now.payload.now) }
    {
        let pdo = data_offset(self.cpda);
        let len = self.payload.len() as u32;
        let header = common_header(PduType::H2cData, self.flags(), 24, pdo as u8, pdo + len);
        let zeros = (pdo - HEADER_LEN) as usize;
        append(out, &header, &self.fields(len), zeros, self.payload)
    }

    fn flags(&self) -> u8
        ensures { result ≡ flags_of self.now.last }
    {
        if self.last { LAST_PDU } else { 0 }
    }

    // What follows the common header, up to the zeros.
    fn fields(&self, len: u32) -> [u8; 16]
        requires { len ≡ length self.now.payload.now }
        ensures { result ≡ sent_fields (sent_of self.now) }
    {
        let cccid = self.cccid.to_le_bytes();
        let ttag = self.ttag.to_le_bytes();
        let at = self.offset.to_le_bytes();
        let len = len.to_le_bytes();
        [
            cccid[0], cccid[1], ttag[0], ttag[1], at[0], at[1], at[2], at[3], len[0], len[1],
            len[2], len[3], 0, 0, 0, 0,
        ]
    }
}
