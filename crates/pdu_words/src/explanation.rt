//! What a PDU is.
ghost use Rattle.std.specs.Prelude.{◌≡◌, ◌≤◌, length, slice_range};
ghost use Rattle.pdu_cut.specs.CommonHeader.{layout_of};
ghost use Rattle.pdu_words.specs.Explanation.{explanation_of, explained, completion_of};

use crate::command::Command;
use nvt_fields::{PduType, Status, u16_at};
use pdu_codec::{Cqe, DataHead, IcReq, IcResp, R2t, TermReq};

/// What a response says of its command.
#[derive(Clone, Copy)]
pub struct ResponseFields {
    /// Command identifier.
    pub cid: u16,
    /// Submission queue head pointer.
    pub sqhd: u16,
    pub status: Status,
    /// What the command defines, in dwords 0 and 1.
    pub result: u64,
}

/// What a PDU is, and which command it answers or carries data of, where that is known.
#[derive(Clone, Copy)]
pub enum Explanation {
    IcReq(IcReq),
    IcResp(IcResp),
    H2cTermReq(TermReq),
    C2hTermReq(TermReq),
    CapsuleCmd {
        cid: u16,
        command: Option<Command>,
    },
    CapsuleResp {
        completion: ResponseFields,
        command: Option<Command>,
    },
    H2cData {
        head: DataHead,
        command: Option<Command>,
    },
    C2hData {
        head: DataHead,
        command: Option<Command>,
    },
    R2t {
        request: R2t,
        command: Option<Command>,
    },
    /// The bytes have no type of a PDU, or are less than the header of theirs.
    NoPdu,
}

/// What the bytes of a PDU are, where its command is this one.
pub fn explain(bytes: &[u8], command: Option<Command>) -> Explanation
    ensures { result ≡ explanation_of bytes.now command }
{
    let Some(code) = bytes.first() else {
        return Explanation::NoPdu;
    };
    let Some(kind) = PduType::from_code(*code) else {
        return Explanation::NoPdu;
    };
    if bytes.len() < header_len(kind) {
        return Explanation::NoPdu;
    }
    explain_header(kind, bytes, command)
}

// The length of the type's header, in bytes.
fn header_len(kind: PduType) -> usize
    ensures { result ≡ (layout_of kind).header_len }
{
    match kind {
        PduType::IcReq | PduType::IcResp => 128,
        PduType::CapsuleCmd => 72,
        PduType::H2cTermReq
        | PduType::C2hTermReq
        | PduType::CapsuleResp
        | PduType::H2cData
        | PduType::C2hData
        | PduType::R2t => 24,
    }
}

fn explain_header(kind: PduType, bytes: &[u8], command: Option<Command>) -> Explanation
    requires { (layout_of kind).header_len ≤ length bytes.now }
    ensures { result ≡ explained kind bytes.now command }
{
    match kind {
        PduType::IcReq => Explanation::IcReq(IcReq::read(bytes)),
        PduType::IcResp => Explanation::IcResp(IcResp::read(bytes)),
        PduType::H2cTermReq => Explanation::H2cTermReq(TermReq::read(bytes)),
        PduType::C2hTermReq => Explanation::C2hTermReq(TermReq::read(bytes)),
        PduType::CapsuleCmd => Explanation::CapsuleCmd {
            cid: u16_at(bytes, 10),
            command,
        },
        PduType::CapsuleResp => Explanation::CapsuleResp {
            completion: read_completion(bytes),
            command,
        },
        PduType::H2cData => Explanation::H2cData {
            head: DataHead::read(bytes),
            command,
        },
        PduType::C2hData => Explanation::C2hData {
            head: DataHead::read(bytes),
            command,
        },
        PduType::R2t => Explanation::R2t {
            request: R2t::read(bytes),
            command,
        },
    }
}

fn read_completion(bytes: &[u8]) -> ResponseFields
    requires { 24 ≤ length bytes.now }
    ensures { result ≡ completion_of bytes.now }
{
    let cqe = Cqe::read(response_header(bytes));
    ResponseFields {
        cid: cqe.cid(),
        sqhd: cqe.sqhd(),
        status: cqe.status(),
        result: cqe.result(),
    }
}

fn response_header(bytes: &[u8]) -> &[u8; 24]
    requires { 24 ≤ length bytes.now }
    ensures { result.now ≡ slice_range bytes.now 0 24 }
{
    <&[u8; 24]>::try_from(&bytes[0..24]).unwrap()
}
