ghost use Rattle.std.specs.Prelude.{◌≡◌, ◌≤◌, ◌<◌, ◌^◌, ◌+◌, ◌++◌, length, OnOk, OnErr, IsOk};
ghost use Rattle.pdu_codec.specs.CapsuleCmd.{capsule_data_offset};

use crate::append::{Full, append, common_header};
use crate::sqe_fields::SqeFields;
use bytes::BytesMut;
use nvt_fields::PduType;

const HEADER_LEN: u32 = 72;

/// A command in its capsule, with the data that it carries (TCP Transport 1.0, section 3.6).
#[derive(Drop)]
pub struct CapsuleCmd<'a> {
    pub sqe: SqeFields,
    /// The controller's PDU data alignment, in units of 4 bytes, 0's based: 0 to 31.
    pub cpda: u8,
    /// The data in the capsule, empty where it carries none.
    pub payload: &'a [u8],
}

impl CapsuleCmd<'_> {
    ghost use Rattle.pdu_codec.specs.CapsuleCmd.{capsule_cmd};
    ghost use Rattle.pdu_codec.specs.Output.{AppendsOrFull};

    /// Appends the PDU: its header, and if it carries data, zeros up to the controller's alignment and
    /// the data.
    pub fn write(&self, out: &mut BytesMut) -> Result<(), Full>
        requires alignment { self.now.cpda ≤ 31 }
        requires length { length self.now.payload.now + 200 < 2 ^ 32 }
        ensures exact { let pdu = capsule_cmd self.now.sqe self.now.cpda self.now.payload.now in
            AppendsOrFull out.old out.new pdu result }
        ensures bytes { let pdu = capsule_cmd self.now.sqe self.now.cpda self.now.payload.now in
            OnOk result (out.new.items ≡ out.old.items ++ pdu) }
        ensures full { OnErr result (out.new ≡ out.old) }
        ensures fits { 200 + length self.now.payload.now ≤ out.old.spare → IsOk result }
        ensures spare { out.old.spare ≤ out.new.spare + (200 + length self.now.payload.now) }
    {
        let entry = self.sqe.entry();
        if self.payload.is_empty() {
            let header = common_header(PduType::CapsuleCmd, 0, 72, 0, HEADER_LEN);
            return append(out, &header, &entry, 0, &[]);
        }
        let pdo = capsule_data_offset(self.cpda);
        let plen = pdo + self.payload.len() as u32;
        let header = common_header(PduType::CapsuleCmd, 0, 72, pdo as u8, plen);
        append(
            out,
            &header,
            &entry,
            (pdo - HEADER_LEN) as usize,
            self.payload,
        )
    }
}

/// Where the data of a capsule begins, after its header of 72 bytes.
pub fn capsule_data_offset(cpda: u8) -> u32
    requires { cpda ≤ 31 }
    ensures value { result ≡ capsule_data_offset cpda }
    ensures after_header { 72 ≤ result }
    ensures bound { result < 200 }
    ensures few_zeros { result ≤ 72 + 112 }
{
    let unit = (u32::from(cpda) + 1) * 4;
    HEADER_LEN.next_multiple_of(unit)
}
