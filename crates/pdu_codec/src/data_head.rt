ghost use Rattle.std.specs.Prelude.{◌≡◌, ◌≤◌, length};
ghost use Rattle.pdu_codec.specs.DataHead.{data_head_of};

use nvt_fields::{u16_at, u32_at};

/// What the header of an H2CData or a C2HData says of its data (TCP Transport 1.0, section 3.6).
#[derive(Clone, Copy, Debug, PartialEq, Eq)]
pub struct DataHead {
    /// Command identifier.
    pub cccid: u16,
    /// Transfer tag, of the R2T that asked for the data. Reserved in a C2HData.
    pub ttag: u16,
    /// Where the data stands in the command's data, in bytes.
    pub datao: u32,
    /// The length of the data, in bytes.
    pub datal: u32,
    /// Whether this is the last PDU with data of its command, or of its R2T.
    pub last_pdu: bool,
    /// In a C2HData: it stands for the command's response too, with success.
    pub success: bool,
}

impl DataHead {
    /// What a header of 24 bytes says.
    pub fn read(header: &[u8]) -> DataHead
        requires { 20 ≤ length header.now }
        ensures { result ≡ data_head_of header.now }
    {
        let flags = header[1];
        DataHead {
            cccid: u16_at(header, 8),
            ttag: u16_at(header, 10),
            datao: u32_at(header, 12),
            datal: u32_at(header, 16),
            last_pdu: flags / 4 % 2 == 1,
            success: flags / 8 % 2 == 1,
        }
    }
}
