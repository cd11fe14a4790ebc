//! What a PDU leads to, as a value: decided by looking alone, before anything changes.
ghost use Rattle.std.specs.Prelude.{◌≡◌, ◌<◌};
ghost use Rattle.pdu_cut.specs.Cut.{front_shown};
ghost use Rattle.target_decision.specs.Begin.{BeginsFree, NamesWell};
ghost use Rattle.target_decision.specs.Carry.{CarriesWell, brought_by};
ghost use Rattle.target_decision.specs.Decision.{decide, decide_pdu, first_by, initialize};
ghost use Rattle.target_decision.specs.Decision.{PerformsWithin, is_end, next_by, terminate};
ghost use Rattle.target_decision.specs.Transfer.{tags_in};
ghost use Rattle.target_decision.specs.World.{world_in};

use crate::alignment::Alignment;
use crate::consequence::Consequence;
use crate::session::{ConnectionState, Session};
use crate::transfer::OwnTransfers;
use crate::world::World;
use crate::{capsule, received};
use admin_queue::Payload;
use io_queue::Operation;
use nvt_fields::{FatalErrorStatus, PduType, Status};
use pdu_codec::IcReq;
use pdu_cut::{Cut, PduView};

/// What is owed to a PDU.
#[derive(Clone, Copy)]
pub enum Decision {
    /// The connection is initialized, with this alignment of data to the host, and an ICResp says so.
    Initialize(Alignment),
    /// A command is answered.
    Reply(Reply),
    /// The host is asked for the data of a command, by an R2T.
    Request(DataRequest),
    /// An event request of this identifier waits until there is something to tell.
    Wait { cid: u16 },
    /// An H2CData brings data of the transfer of this tag (TTAG), and more is to come.
    Receive { ttag: u16 },
    /// The connection is ended by a C2HTermReq.
    Terminate(Termination),
    /// The host asked for termination: the connection is ended, and nothing is sent.
    Close,
}

impl Decision {
    /// Whether it ends the connection.
    pub fn is_end(&self) -> bool
        ensures { result ≡ is_end self.now }
    {
        matches!(self, Decision::Terminate(_) | Decision::Close)
    }
}

/// Why a connection is terminated (TCP Transport 1.0, section 3.6).
#[derive(Clone, Copy)]
pub struct Termination {
    pub fes: FatalErrorStatus,
    /// The offset of the field in error, where the status asks for one.
    pub fei: u32,
}

/// The answer to a command, and what follows from it.
#[derive(Clone, Copy)]
pub struct Reply {
    pub cid: u16,
    /// Submission queue head.
    pub sqhd: u16,
    /// The tag (TTAG) of the transfer that brought the command's data, which this ends.
    pub transfer: Option<u16>,
    pub answer: ReplyAnswer,
    pub consequence: Consequence,
}

/// What a host is asked for: the data of a command, in one transfer.
#[derive(Clone, Copy)]
pub struct DataRequest {
    /// The command's identifier.
    pub cid: u16,
    /// How many bytes: all its data, at most 131,072.
    pub len: u32,
}

/// What a reply says.
#[derive(Clone, Copy)]
pub enum ReplyAnswer {
    Given(Given),
    /// An operation is performed on its disk, and answered as that goes.
    Performed(Operation),
}

/// An answer that is known when it is decided.
#[derive(Clone, Copy)]
pub struct Given {
    pub status: Status,
    pub result: u64,
    pub data: Option<Payload>,
}

/// What is owed to what stands at the front of the stream of a connection that has these transfers.
pub fn decide(
    world: &World<'_>,
    v: &ConnectionState,
    own: &OwnTransfers<'_>,
    front: &Cut<'_>,
) -> Decision
    requires known { own.now.connection < 64 }
    ensures decision { result
        ≡ decide (world_in world.now) v.now (tags_in own.now) (front_shown front.now) }
    ensures begins { BeginsFree (world_in world.now).row result }
    ensures named { NamesWell result (front_shown front.now) }
    ensures carries { CarriesWell (tags_in own.now) result (front_shown front.now) }
    ensures within { let units = (world_in world.now).config.units in
        PerformsWithin units result (brought_by (tags_in own.now) result (front_shown front.now)) }
{
    // prover: a configuration says that it is valid where it lends a list
    world.config.namespaces();
    decide_front(world, v, own, front)
}

fn decide_front(
    world: &World<'_>,
    v: &ConnectionState,
    own: &OwnTransfers<'_>,
    front: &Cut<'_>,
) -> Decision
    requires { own.now.connection < 64 }
    ensures { result ≡ decide (world_in world.now) v.now (tags_in own.now) (front_shown front.now) }
{
    match front {
        Cut::More => Decision::Close,
        Cut::Pdu(pdu) => decide_pdu(world, v, own, pdu),
        Cut::Fault { fes, fei, .. } => terminate(*fes, *fei),
    }
}

fn decide_pdu(
    world: &World<'_>,
    v: &ConnectionState,
    own: &OwnTransfers<'_>,
    pdu: &PduView<'_>,
) -> Decision
    requires { own.now.connection < 64 }
    ensures { result ≡ decide_pdu (world_in world.now) v.now (tags_in own.now) pdu.now }
{
    match v.session {
        Session::Opened => first(pdu),
        Session::Initialized | Session::Connected { .. } => next(world, v, own, pdu),
        Session::Ended => Decision::Close,
    }
}

// The first PDU: an ICReq, or the host gives up.
fn first(pdu: &PduView<'_>) -> Decision
    ensures { result ≡ first_by pdu.now.kind pdu.now }
{
    match pdu.kind() {
        PduType::IcReq => initialize(&IcReq::read(pdu.header())),
        PduType::H2cTermReq => Decision::Close,
        _ => terminate(FatalErrorStatus::SequenceError, 0),
    }
}

fn next(
    world: &World<'_>,
    v: &ConnectionState,
    own: &OwnTransfers<'_>,
    pdu: &PduView<'_>,
) -> Decision
    requires { own.now.connection < 64 }
    ensures { result ≡ next_by pdu.now.kind (world_in world.now) v.now (tags_in own.now) pdu.now }
{
    match pdu.kind() {
        PduType::H2cTermReq => Decision::Close,
        PduType::CapsuleCmd => capsule::decide(world, v, own, pdu),
        PduType::H2cData => received::decide(world, v, own, pdu),
        _ => terminate(FatalErrorStatus::SequenceError, 0),
    }
}

fn initialize(request: &IcReq) -> Decision
    ensures { result ≡ initialize request.now }
{
    if request.pfv != 0 {
        return terminate(FatalErrorStatus::UnsupportedParameter, IcReq::PFV_AT as u32);
    }
    match Alignment::new(request.hpda) {
        Some(alignment) => Decision::Initialize(alignment),
        None => terminate(FatalErrorStatus::InvalidHeaderField, IcReq::HPDA_AT as u32),
    }
}

pub(crate) fn terminate(fes: FatalErrorStatus, fei: u32) -> Decision
    ensures { result ≡ terminate fes fei }
{
    Decision::Terminate(Termination { fes, fei })
}
