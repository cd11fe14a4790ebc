//! Termination requests (TCP Transport 1.0, section 3.6).
ghost use Rattle.std.specs.Prelude.{◌≡◌, ◌<◌, ◌≤◌, ◌^◌, ◌+◌, ◌++◌, length, OnOk, OnErr, IsOk};
ghost use Rattle.nvt_fields.specs.Field.{field_at};
ghost use Rattle.nvt_fields.specs.FatalErrorStatus.{fatal_code_of};
ghost use Rattle.pdu_codec.specs.Output.{AppendsOrFull};
ghost use Rattle.pdu_codec.specs.TermReq.{c2h_term_req, h2c_term_req, term_fields};

use crate::append::{Full, append, common_header};
use bytes::BytesMut;
use nvt_fields::{FatalErrorStatus, PduType, u16_at, u32_at};

/// What a termination request of either side says. Its data is the header of the PDU in error.
#[derive(Clone, Copy, Debug, PartialEq, Eq)]
pub struct TermReq {
    /// Fatal error status, by its code: a peer may send one that no standard names.
    pub fes: u16,
    /// Fatal error information.
    pub fei: u32,
}

impl TermReq {
    /// The request in a header of 24 bytes.
    pub fn read(header: &[u8]) -> TermReq
        requires { 14 ≤ length header.now }
        ensures fes { result.fes ≡ field_at 2 8 header.now }
        ensures fei { result.fei ≡ field_at 4 10 header.now }
    {
        TermReq {
            fes: u16_at(header, 8),
            fei: u32_at(header, 10),
        }
    }

    /// Appends a request of the controller, of 24 bytes and those of `head`, which are the header of
    /// the PDU in error or its first bytes.
    pub fn write_c2h(
        out: &mut BytesMut,
        fes: FatalErrorStatus,
        fei: u32,
        head: &[u8],
    ) -> Result<(), Full>
        requires { 24 + length head.now < 2 ^ 32 }
        ensures { let bytes = c2h_term_req (fatal_code_of fes) fei head.now in
            AppendsOrFull out.old out.new bytes result }
    {
        let header = common_header(PduType::C2hTermReq, 0, 24, 0, 24 + head.len() as u32);
        append(out, &header, &fields(fes, fei), 10, head)
    }

    /// Appends a request of the host, of 24 bytes and those of `head`, which are the header of the PDU
    /// in error or its first bytes.
    pub fn write_h2c(
        out: &mut BytesMut,
        fes: FatalErrorStatus,
        fei: u32,
        head: &[u8],
    ) -> Result<(), Full>
        requires { 24 + length head.now < 2 ^ 32 }
        ensures exact { let bytes = h2c_term_req (fatal_code_of fes) fei head.now in
            AppendsOrFull out.old out.new bytes result }
        ensures bytes { let bytes = h2c_term_req (fatal_code_of fes) fei head.now in
            OnOk result (out.new.items ≡ out.old.items ++ bytes) }
        ensures full { OnErr result (out.new ≡ out.old) }
        ensures fits { 24 + length head.now ≤ out.old.spare → IsOk result }
        ensures spare { out.old.spare ≤ out.new.spare + (24 + length head.now) }
    {
        let plen = 24 + head.len() as u32;
        let common = common_header(PduType::H2cTermReq, 0, 24, 0, plen);
        append(out, &common, &fields(fes, fei), 10, head)
    }
}

// FES and FEI.
fn fields(fes: FatalErrorStatus, fei: u32) -> [u8; 6]
    ensures { result ≡ term_fields (fatal_code_of fes) fei }
{
    let fes = fes.code().to_le_bytes();
    let fei = fei.to_le_bytes();
    [fes[0], fes[1], fei[0], fei[1], fei[2], fei[3]]
}
