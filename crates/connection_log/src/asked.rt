//! What a Connect asks for, and why a target ended a connection, by the first bytes of their PDUs.
ghost use Rattle.std.specs.Prelude.{◌≡◌, ◌≤◌, length};
ghost use Rattle.std.specs.Option.{option_copied};
ghost use Rattle.connection_log.specs.Asked.{asked_by, asked_in, data_in, payload_in, termination_of};

use crate::stage::{CAPSULE_LEN, capsule_header, is_connect};
use nvt_fields::up_to_zero;
use pdu_codec::{Connect, ConnectData, Sgl, SglType, Sqe, TermReq};
use pdu_words::{Explanation, explain};
use std::marker::Model;

// Where PDO stands in a common header (TCP Transport 1.0, section 3.6).
const PDO_AT: usize = 3;

/// What a Connect asks for (Base 2.0, section 6.3). The names may be malformed.
#[derive(Drop)]
pub struct AskedFor<'a> {
    /// The queue: 0 is the admin queue.
    pub qid: u16,
    /// The bytes of the subsystem's name.
    pub subsystem: &'a [u8],
    /// The bytes of the host's name.
    pub host: &'a [u8],
}

impl<'a> Model for AskedFor<'a> {
    ghost use Rattle.connection_log.specs.Asked.{Asked};

    ghost Value = { Asked };

    ghost view = { λ a. record { qid = a.qid; subsystem = a.subsystem.now; host = a.host.now } };
}

// What the Connect asks for that begins with these bytes.
#[tactic(auto, unfolding(crate::specs::Asked::asked_in))]
pub(crate) fn asked_in(front: &[u8]) -> Option<AskedFor<'_>>
    ensures { result ≡ asked_in front.now }
{
    let header = capsule_header(front)?;
    let sqe = Sqe::read(header);
    if !is_connect(&sqe) {
        return None;
    }
    asked_by(&sqe, payload_in(front))
}

// .. by its entry and the data in its capsule.
#[tactic(auto, unfolding(crate::specs::Asked::asked_by))]
fn asked_by<'a>(sqe: &Sqe, payload: &'a [u8]) -> Option<AskedFor<'a>>
    ensures { result ≡ asked_by sqe.now.entry.now payload.now }
{
    let data = ConnectData::read(data_in(&sqe.sgl1(), payload)?);
    let subsystem = data.subnqn;
    let host = data.hostnqn;
    Some(AskedFor {
        qid: Connect::read(sqe).qid,
        subsystem: up_to_zero(subsystem),
        host: up_to_zero(host),
    })
}

// The data of a capsule that begins with these bytes; none where its place is none behind the header.
fn payload_in(front: &[u8]) -> &[u8]
    requires { 72 ≤ length front.now }
    ensures { result.now ≡ payload_in front.now }
{
    let pdo = usize::from(front[PDO_AT]);
    if pdo < CAPSULE_LEN || pdo > front.len() {
        return &[];
    }
    &front[pdo..]
}

// The data of a Connect, which has to be in its capsule and whole.
fn data_in<'a>(sgl: &Sgl, payload: &'a [u8]) -> Option<&'a [u8; ConnectData::LEN]>
    ensures { option_copied result ≡ data_in sgl.now payload.now }
{
    let len = ConnectData::LEN;
    if sgl.sgl_type != SglType::CapsuleOffset || sgl.len as usize != len {
        return None;
    }
    if payload.len() < len || sgl.address > (payload.len() - len) as u64 {
        return None;
    }
    let at = sgl.address as usize;
    Some(<&[u8; ConnectData::LEN]>::try_from(&payload[at..at + len]).unwrap())
}

// The termination that begins with these bytes.
#[tactic(auto, unfolding(crate::specs::Asked::termination_of))]
pub(crate) fn termination_of(front: &[u8]) -> Option<TermReq>
    ensures { result ≡ termination_of front.now }
{
    match explain(front, None) {
        Explanation::C2hTermReq(request) => Some(request),
        _ => None,
    }
}
