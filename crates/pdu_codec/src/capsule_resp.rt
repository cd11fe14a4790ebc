ghost use Rattle.std.specs.Prelude.{◌≡◌};

use crate::append::{Full, append, common_header};
use bytes::BytesMut;
use nvt_fields::{PduType, Status};

/// The response to a command: a capsule with a completion queue entry (TCP Transport 1.0, section 3.6;
/// Base 2.0, section 3.3.3.2).
#[derive(Clone, Copy, Debug, PartialEq, Eq)]
pub struct CapsuleResp {
    /// What the command defines, in dwords 0 and 1.
    pub result: u64,
    /// Submission queue head pointer.
    pub sqhd: u16,
    /// Command identifier.
    pub cid: u16,
    pub status: Status,
}

impl CapsuleResp {
    ghost use Rattle.pdu_codec.specs.CapsuleResp.{capsule_resp, completion_entry};
    ghost use Rattle.pdu_codec.specs.Output.{AppendsOrFull};

    /// Appends the PDU, of 24 bytes.
    pub fn write(&self, out: &mut BytesMut) -> Result<(), Full>
        ensures { AppendsOrFull out.old out.new (capsule_resp self.now) result }
    {
        let header = common_header(PduType::CapsuleResp, 0, 24, 0, 24);
        append(out, &header, &self.entry(), 0, &[])
    }

    // The completion queue entry.
    fn entry(&self) -> [u8; 16]
        ensures { result ≡ completion_entry self.now }
    {
        let r = self.result.to_le_bytes();
        let sqhd = self.sqhd.to_le_bytes();
        let cid = self.cid.to_le_bytes();
        let status = self.status.word().to_le_bytes();
        [
            r[0], r[1], r[2], r[3], r[4], r[5], r[6], r[7], sqhd[0], sqhd[1], 0, 0, cid[0], cid[1],
            status[0], status[1],
        ]
    }
}
