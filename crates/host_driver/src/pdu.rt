//! What a whole PDU leads to.
ghost use Rattle.std.specs.Prelude.{◌≡◌, length};
ghost use Rattle.pdu_cut.specs.Pdu.{data_part};
ghost use Rattle.host_driver.specs.Decision.{cid_named, decide, first_by, next_by};
ghost use Rattle.host_driver.specs.Within.{IsInTime, IsWithin, Names};

use crate::data::{receive, request};
use crate::decision::{HostDecision, terminate};
use crate::initialize::initialize;
use crate::outstanding::Outstanding;
use crate::phase::Phase;
use crate::reply::{complete, response};
use nvt_fields::{FatalErrorStatus, PduType};
use pdu_codec::{DataHead, IcResp, R2t, TermReq};
use pdu_cut::PduView;

/// The identifier of the command that a PDU names: of a CapsuleResp, a C2HData and an R2T.
pub fn cid_named(pdu: &PduView<'_>) -> Option<u16>
    ensures { result ≡ cid_named pdu.now }
{
    match pdu.kind() {
        PduType::CapsuleResp => Some(response(pdu).cid),
        PduType::C2hData => Some(DataHead::read(pdu.header()).cccid),
        PduType::R2t => Some(R2t::read(pdu.header()).cccid),
        PduType::IcReq
        | PduType::IcResp
        | PduType::H2cTermReq
        | PduType::C2hTermReq
        | PduType::CapsuleCmd
        | PduType::H2cData => None,
    }
}

/// What is owed to a whole PDU, where `command` is the outstanding command that it names, if there is
/// one: the faults of the transport come in a fixed order, and the first is answered.
pub fn decide(phase: Phase, command: Option<Outstanding>, pdu: &PduView<'_>) -> HostDecision
    ensures owed { result ≡ decide phase command pdu.now }
    ensures within { IsWithin command (length (data_part pdu.now)) result }
    ensures names { Names (cid_named pdu.now) result }
    ensures in_time { IsInTime command result }
{
    match phase {
        Phase::Opened => first(pdu),
        Phase::Initialized(_) | Phase::Connected(_) | Phase::Failed => next(phase, command, pdu),
    }
}

// The first PDU of a connection.
fn first(pdu: &PduView<'_>) -> HostDecision
    ensures { result ≡ first_by pdu.now.kind pdu.now }
{
    match pdu.kind() {
        PduType::IcResp => initialize(IcResp::read(pdu.header())),
        PduType::C2hTermReq => HostDecision::Close(TermReq::read(pdu.header())),
        PduType::IcReq
        | PduType::H2cTermReq
        | PduType::CapsuleCmd
        | PduType::CapsuleResp
        | PduType::H2cData
        | PduType::C2hData
        | PduType::R2t => terminate(FatalErrorStatus::SequenceError, 0),
    }
}

// A PDU after the first.
fn next(phase: Phase, command: Option<Outstanding>, pdu: &PduView<'_>) -> HostDecision
    ensures { result ≡ next_by pdu.now.kind phase command pdu.now }
{
    match pdu.kind() {
        PduType::C2hTermReq => HostDecision::Close(TermReq::read(pdu.header())),
        PduType::CapsuleResp => complete(phase, command, response(pdu)),
        PduType::C2hData => { receive(command, DataHead::read(pdu.header()), pdu.data().len()) }
        PduType::R2t => request(command, R2t::read(pdu.header())),
        PduType::IcReq
        | PduType::IcResp
        | PduType::H2cTermReq
        | PduType::CapsuleCmd
        | PduType::H2cData => terminate(FatalErrorStatus::SequenceError, 0),
    }
}
