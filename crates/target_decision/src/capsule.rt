//! A command capsule: the checks that come before its command is looked at.
ghost use Rattle.std.specs.Prelude.{◌≡◌, ◌<◌};
ghost use Rattle.std.specs.Option.{option_copied};
ghost use Rattle.target_decision.specs.Capsule.{command, first_command, queue_command};
ghost use Rattle.target_decision.specs.Capsule.{is_ready_at, on_admin_queue, on_io_queue};
ghost use Rattle.target_decision.specs.Capsule.{answered_with, command_on, head_after, is_full, owed};
ghost use Rattle.target_decision.specs.Capsule.{refused_with};
ghost use Rattle.target_decision.specs.Decision.{capsule};
ghost use Rattle.target_decision.specs.Outcome.{done, given, performed, refused, waits};
ghost use Rattle.target_decision.specs.Transfer.{tags_in};
ghost use Rattle.target_decision.specs.World.{world_in};

use crate::consequence::Consequence;
use crate::decision::{DataRequest, Decision, Given, Reply, ReplyAnswer, terminate};
use crate::fabrics::{CONNECT, FABRICS};
use crate::queue::next_head;
use crate::session::{ConnectionState, Role, Session};
use crate::transfer::OwnTransfers;
use crate::world::World;
use crate::{admin, connect, fabrics, io};
use admin_queue::{Notices, Payload};
use fabrics_connect::Row;
use io_queue::Operation;
use nvt_fields::{FatalErrorStatus, PduType, Status};
use pdu_codec::Sqe;
use pdu_cut::PduView;

/// The most bytes of data that a capsule may bring.
const IN_CAPSULE_MAX: usize = 8_192;

/// The most commands that may be outstanding on a queue, whatever its size.
const OUTSTANDING_MAX: u16 = 63;

/// A command's outcome: what is done about it, or its refusal.
pub(crate) type Outcome = Result<Served, Refusal>;

/// What is done about a command that is not refused.
#[derive(Clone, Copy)]
pub(crate) enum Served {
    Answered(Success),
    /// Its host is asked for so many bytes of data.
    Asked(u32),
    /// It waits until there is something to tell.
    Waits,
}

/// What a command is answered that is not refused, and what follows from it.
#[derive(Clone, Copy)]
pub(crate) struct Success {
    pub answer: ReplyAnswer,
    pub consequence: Consequence,
}

/// A command's status, other than success, and its result.
#[derive(Clone, Copy)]
pub(crate) struct Refusal {
    pub status: Status,
    pub result: u64,
}

/// What is owed to a capsule.
pub(crate) fn decide(
    world: &World<'_>,
    v: &ConnectionState,
    own: &OwnTransfers<'_>,
    pdu: &PduView<'_>,
) -> Decision
    requires kind { pdu.now.kind ≡ PduType.CapsuleCmd }
    requires known { own.now.connection < 64 }
    ensures { result ≡ capsule (world_in world.now) v.now (tags_in own.now) pdu.now }
{
    let payload = pdu.data();
    if payload.len() > IN_CAPSULE_MAX {
        return terminate(FatalErrorStatus::LimitExceeded, 0);
    }
    if is_full(v, own) {
        return terminate(FatalErrorStatus::SequenceError, 0);
    }
    let header = <&[u8; 72]>::try_from(pdu.header()).unwrap();
    let sqe = Sqe::read(header);
    let outcome = command(world, v, own, &sqe, payload);
    owed(&v.session, sqe.cid(), None, outcome)
}

// Whether no further command may be outstanding on a queue.
fn is_full(v: &ConnectionState, own: &OwnTransfers<'_>) -> bool
    requires { own.now.connection < 64 }
    ensures { result ≡ is_full v.now (tags_in own.now) }
{
    match &v.session {
        Session::Connected { queue, .. } => {
            let most = usize::from(queue.sqsize.min(OUTSTANDING_MAX));
            let transfers = own.count();
            most <= transfers || most - transfers <= v.notices.events().waiting()
        }
        Session::Opened | Session::Initialized | Session::Ended => false,
    }
}

fn command(
    world: &World<'_>,
    v: &ConnectionState,
    own: &OwnTransfers<'_>,
    sqe: &Sqe<'_>,
    payload: &[u8],
) -> Outcome
    requires { own.now.connection < 64 }
    ensures { let tags = tags_in own.now in
        result ≡ command (world_in world.now) v.now tags sqe.now.entry.now payload.now }
{
    if own.has_command(sqe.cid()) || v.notices.events().waits(sqe.cid()) {
        return refused(Status::COMMAND_ID_CONFLICT);
    }
    command_on(world, v, sqe, payload)
}

fn command_on(world: &World<'_>, v: &ConnectionState, sqe: &Sqe<'_>, payload: &[u8]) -> Outcome
    ensures { result ≡ command_on (world_in world.now) v.now sqe.now.entry.now payload.now }
{
    if sqe.fuse() != 0 {
        return refused(Status::INVALID_FIELD);
    }
    match v.session {
        Session::Connected { role, .. } => on_queue(world, &v.notices, role, sqe, payload),
        Session::Opened | Session::Initialized | Session::Ended => {
            before_connect(world, v.port, sqe, payload)
        }
    }
}

fn before_connect(world: &World<'_>, port: u16, sqe: &Sqe<'_>, payload: &[u8]) -> Outcome
    ensures { result ≡ first_command (world_in world.now) port sqe.now.entry.now payload.now }
{
    if sqe.opcode() == FABRICS && sqe.fctype() == CONNECT {
        connect::command(world, port, sqe, payload)
    } else {
        refused(Status::COMMAND_SEQUENCE_ERROR)
    }
}

fn on_queue(
    world: &World<'_>,
    notices: &Notices,
    role: Role,
    sqe: &Sqe<'_>,
    payload: &[u8],
) -> Outcome
    ensures { let entry = sqe.now.entry.now in
        result ≡ queue_command (world_in world.now) notices.now role entry payload.now }
{
    match role {
        Role::Admin { cntlid } => on_admin_queue(world, notices, cntlid, sqe),
        Role::Io { cntlid, .. } => on_io_queue(world, cntlid, sqe, payload),
    }
}

fn on_admin_queue(world: &World<'_>, notices: &Notices, cntlid: u16, sqe: &Sqe<'_>) -> Outcome
    ensures { result ≡ on_admin_queue (world_in world.now) notices.now cntlid sqe.now.entry.now }
{
    if sqe.opcode() == FABRICS {
        fabrics::command(&world.registers(cntlid), cntlid, sqe)
    } else {
        admin::command(world, notices, cntlid, sqe)
    }
}

fn on_io_queue(world: &World<'_>, cntlid: u16, sqe: &Sqe<'_>, payload: &[u8]) -> Outcome
    ensures { result ≡ on_io_queue (world_in world.now) cntlid sqe.now.entry.now payload.now }
{
    if sqe.opcode() == FABRICS {
        return match sqe.fctype() {
            CONNECT => refused(Status::COMMAND_SEQUENCE_ERROR),
            _ => refused(Status::INVALID_FIELD),
        };
    }
    io::command(world, cntlid, sqe, payload.len() as u64)
}

pub(crate) fn is_ready(row: Option<&Row>) -> bool
    ensures { result ≡ is_ready_at (option_copied row.entry) }
{
    match row {
        Some(row) => row.ready,
        None => false,
    }
}

/// What is owed to a command of this identifier that comes to this, and ends this transfer.
pub(crate) fn owed(session: &Session, cid: u16, transfer: Option<u16>, outcome: Outcome) -> Decision
    ensures { result ≡ owed session.now cid transfer outcome }
{
    match outcome {
        Ok(Served::Answered(success)) => {
            Decision::Reply(answered_with(session, cid, transfer, success))
        }
        Ok(Served::Asked(len)) => Decision::Request(DataRequest { cid, len }),
        Ok(Served::Waits) => Decision::Wait { cid },
        Err(refusal) => Decision::Reply(refused_with(session, cid, transfer, refusal)),
    }
}

fn answered_with(session: &Session, cid: u16, transfer: Option<u16>, success: Success) -> Reply
    ensures { result ≡ answered_with session.now cid transfer success }
{
    Reply {
        cid,
        sqhd: head_after(session, &success.consequence),
        transfer,
        answer: success.answer,
        consequence: success.consequence,
    }
}

fn refused_with(session: &Session, cid: u16, transfer: Option<u16>, refusal: Refusal) -> Reply
    ensures { result ≡ refused_with session.now cid transfer refusal }
{
    Reply {
        cid,
        sqhd: head_after(session, &Consequence::Nothing),
        transfer,
        answer: ReplyAnswer::Given(Given {
            status: refusal.status,
            result: refusal.result,
            data: None,
        }),
        consequence: Consequence::Nothing,
    }
}

// A connection without a queue has no head: 0 is sent.
fn head_after(session: &Session, consequence: &Consequence) -> u16
    ensures { result ≡ head_after session.now consequence.now }
{
    match consequence {
        Consequence::Begin(beginning) => next_head(beginning.sqsize, 0),
        Consequence::Join(joining) => next_head(joining.sqsize, 0),
        Consequence::Nothing | Consequence::Update { .. } => session.head_counted(),
    }
}

/// It waits until there is something to tell.
pub(crate) fn waits() -> Outcome
    ensures { result ≡ waits }
{
    Ok(Served::Waits)
}

pub(crate) fn refused(status: Status) -> Outcome
    ensures { result ≡ refused status }
{
    Err(Refusal { status, result: 0 })
}

pub(crate) fn done(value: u64, consequence: Consequence) -> Outcome
    ensures { result ≡ done value consequence }
{
    given(value, None, consequence)
}

/// What succeeds with this result and this data.
pub(crate) fn given(value: u64, payload: Option<Payload>, consequence: Consequence) -> Outcome
    ensures { result ≡ given value payload consequence }
{
    Ok(Served::Answered(Success {
        answer: ReplyAnswer::Given(Given {
            status: Status::SUCCESS,
            result: value,
            data: payload,
        }),
        consequence,
    }))
}

/// What the performance of this operation will say.
pub(crate) fn performed(operation: Operation) -> Outcome
    ensures { result ≡ performed operation }
{
    Ok(Served::Answered(Success {
        answer: ReplyAnswer::Performed(operation),
        consequence: Consequence::Nothing,
    }))
}
