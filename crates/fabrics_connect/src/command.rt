//! A Connect as it came, and what it asks for.
ghost use Rattle.std.specs.Prelude.{◌≡◌, IfOk, MatchResult, Ok, Err};
ghost use Rattle.pdu_codec.specs.Sqe.{connect_of, sgl1_of};
ghost use Rattle.fabrics_connect.specs.Command.{data_at, data_verdict, parameters_of};

use crate::decision::Refusal;
use nvt_fields::{Status, up_to_zero};
use pdu_codec::{ConnectData, Sgl, SglType, Sqe};
use std::marker::Model;

/// The greatest size of a submission queue, 0's based.
pub const SQSIZE_MAX: u16 = 63;

/// A Connect as its capsule brought it: the submission queue entry and the capsule's data.
#[derive(Drop)]
pub struct Connect<'a> {
    sqe: &'a Sqe<'a>,
    payload: &'a [u8],
}

impl<'a> Model for Connect<'a> {
    ghost use Rattle.fabrics_connect.specs.Command.{Command};

    ghost Value = { Command };

    ghost view = { λ c. record { entry = c.sqe.now.entry.now; payload = c.payload.now } };
}

impl<'a> Connect<'a> {
    /// A Connect by its submission queue entry and the data in its capsule.
    pub fn new(sqe: &'a Sqe<'a>, payload: &'a [u8]) -> Connect<'a>
        ensures { result ≡ record { entry = sqe.now.entry.now; payload = payload.now } }
    {
        Connect { sqe, payload }
    }

    /// The fields of the entry.
    pub fn fields(&self) -> pdu_codec::Connect
        ensures { result ≡ connect_of self.now.entry }
    {
        pdu_codec::Connect::read(self.sqe)
    }

    /// What it asks for. Refused where its data is not in the capsule, whole.
    #[tactic(auto, unfolding(crate::specs::Command::parameters_of))]
    pub fn request(&self) -> Result<Request<'a>, Refusal>
        ensures read { IfOk result (λ request.
            request ≡ parameters_of self.now.entry self.now.payload) }
        ensures verdict { let verdict = data_verdict (sgl1_of self.now.entry) self.now.payload in
            MatchResult result (λ _. verdict ≡ Ok tt) (λ refusal. verdict ≡ Err refusal) }
    {
        let bytes = in_capsule(&self.sqe.sgl1(), self.payload)?;
        Ok(Request {
            data: ConnectData::read(bytes),
            fields: self.fields(),
        })
    }
}

// The data, which has to be in the capsule and whole.
#[tactic(auto, unfolding(crate::specs::Command::data_verdict))]
fn in_capsule<'a>(sgl: &Sgl, payload: &'a [u8]) -> Result<&'a [u8; ConnectData::LEN], Refusal>
    ensures read { IfOk result (λ bytes. bytes.now ≡ data_at sgl.now payload.now) }
    ensures verdict { MatchResult result
        (λ _. data_verdict sgl.now payload.now ≡ Ok tt)
        (λ refusal. data_verdict sgl.now payload.now ≡ Err refusal) }
{
    if sgl.sgl_type != SglType::CapsuleOffset {
        return Err(Refusal::new(Status::SGL_TYPE_INVALID));
    }
    let len = ConnectData::LEN;
    if sgl.len as usize != len {
        return Err(Refusal::new(Status::DATA_SGL_LENGTH_INVALID));
    }
    if payload.len() < len || sgl.address > (payload.len() - len) as u64 {
        return Err(Refusal::new(Status::SGL_OFFSET_INVALID));
    }
    let at = sgl.address as usize;
    Ok(<&[u8; ConnectData::LEN]>::try_from(&payload[at..at + len]).unwrap())
}

/// What a Connect asks for.
#[derive(Drop)]
pub struct Request<'a> {
    /// The fields of its entry.
    pub fields: pdu_codec::Connect,
    pub data: ConnectData<'a>,
}

impl<'a> Model for Request<'a> {
    ghost use Rattle.nvt_fields.specs.Name.{up_to_zero};
    ghost use Rattle.fabrics_connect.specs.Command.{Parameters};

    ghost Value = { Parameters };

    ghost view = { λ r. record {
      recfmt = r.fields.recfmt;
      qid = r.fields.qid;
      sqsize = r.fields.sqsize;
      cntlid = r.data.cntlid;
      subsystem = up_to_zero r.data.subnqn.now;
      host = up_to_zero r.data.hostnqn.now;
      hostid = r.data.hostid.now;
    } };
}

impl<'a> Request<'a> {
    /// The bytes of the subsystem's name, which may be malformed.
    pub fn subsystem(&self) -> &'a [u8]
        ensures { result.now ≡ self.now.subsystem }
    {
        let field = self.data.subnqn;
        up_to_zero(field)
    }

    /// The bytes of the host's name, which may be malformed.
    pub fn host(&self) -> &'a [u8]
        ensures { result.now ≡ self.now.host }
    {
        let field = self.data.hostnqn;
        up_to_zero(field)
    }
}
