//! The PDUs that set a connection up (TCP Transport 1.0, section 3.6).
ghost use Rattle.std.specs.Prelude.{◌≡◌, ◌≤◌, ◌+◌, ◌++◌, length, OnOk, OnErr, IsOk};

use crate::append::{Full, append, common_header};
use bytes::BytesMut;
use nvt_fields::{PduType, u16_at, u32_at};

/// What a host asks for: Initialize Connection Request.
#[derive(Clone, Copy, Debug, PartialEq, Eq)]
pub struct IcReq {
    /// PDU format version.
    pub pfv: u16,
    /// Host PDU data alignment, in units of 4 bytes, 0's based.
    pub hpda: u8,
    /// Digests: bit 0 header, bit 1 data.
    pub dgst: u8,
    /// The most R2Ts of one command at a time, 0's based.
    pub maxr2t: u32,
}

impl IcReq {
    ghost use Rattle.pdu_codec.specs.Initialize.{ic_req, ic_req_fields, ic_req_of};
    ghost use Rattle.pdu_codec.specs.Output.{AppendsOrFull};

    // Offsets of fields in the header.

    pub const PFV_AT: usize = 8;

    pub const HPDA_AT: usize = 10;

    /// The request in a header of 128 bytes.
    pub fn read(header: &[u8]) -> IcReq
        requires { 16 ≤ length header.now }
        ensures { result ≡ ic_req_of header.now }
    {
        IcReq {
            pfv: u16_at(header, IcReq::PFV_AT),
            hpda: header[IcReq::HPDA_AT],
            dgst: header[11],
            maxr2t: u32_at(header, 12),
        }
    }

    /// Appends the PDU, of 128 bytes.
    pub fn write(&self, out: &mut BytesMut) -> Result<(), Full>
        ensures exact { AppendsOrFull out.old out.new (ic_req self.now) result }
        ensures bytes { OnOk result (out.new.items ≡ out.old.items ++ ic_req self.now) }
        ensures full { OnErr result (out.new ≡ out.old) }
        ensures fits { 128 ≤ out.old.spare → IsOk result }
        ensures spare { out.old.spare ≤ out.new.spare + 128 }
    {
        let common = common_header(PduType::IcReq, 0, 128, 0, 128);
        append(out, &common, &self.fields(), 112, &[])
    }

    // What follows the common header, up to the reserved bytes.
    fn fields(&self) -> [u8; 8]
        ensures { result ≡ ic_req_fields self.now }
    {
        let pfv = self.pfv.to_le_bytes();
        let max = self.maxr2t.to_le_bytes();
        [
            pfv[0], pfv[1], self.hpda, self.dgst, max[0], max[1], max[2], max[3],
        ]
    }
}

/// What a controller answers: Initialize Connection Response.
#[derive(Clone, Copy, Debug, PartialEq, Eq)]
pub struct IcResp {
    /// PDU format version.
    pub pfv: u16,
    /// Controller PDU data alignment, in units of 4 bytes, 0's based.
    pub cpda: u8,
    /// Digests: bit 0 header, bit 1 data.
    pub dgst: u8,
    /// The most data bytes in one H2CData.
    pub maxh2cdata: u32,
}

impl IcResp {
    ghost use Rattle.pdu_codec.specs.Initialize.{ic_resp, ic_resp_fields, ic_resp_of};
    ghost use Rattle.pdu_codec.specs.Output.{AppendsOrFull};

    /// The response in a header of 128 bytes.
    pub fn read(header: &[u8]) -> IcResp
        requires { 16 ≤ length header.now }
        ensures { result ≡ ic_resp_of header.now }
    {
        IcResp {
            pfv: u16_at(header, 8),
            cpda: header[10],
            dgst: header[11],
            maxh2cdata: u32_at(header, 12),
        }
    }

    /// Appends the PDU, of 128 bytes.
    pub fn write(&self, out: &mut BytesMut) -> Result<(), Full>
        ensures { AppendsOrFull out.old out.new (ic_resp self.now) result }
    {
        let header = common_header(PduType::IcResp, 0, 128, 0, 128);
        append(out, &header, &self.fields(), 112, &[])
    }

    // What follows the common header, up to the reserved bytes.
    fn fields(&self) -> [u8; 8]
        ensures { result ≡ ic_resp_fields self.now }
    {
        let pfv = self.pfv.to_le_bytes();
        let max = self.maxh2cdata.to_le_bytes();
        [
            pfv[0], pfv[1], self.cpda, self.dgst, max[0], max[1], max[2], max[3],
        ]
    }
}
