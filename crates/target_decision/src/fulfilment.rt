//! What follows from a decision on its own connection: room is made and its transfer carried on; then its
//! operation is performed on its disk, its PDUs are sent, and the session moves.
ghost use Rattle.std.specs.Prelude.{◌≡◌, ◌+◌, ◌<◌, ◌≤◌, ◌^◌, IfOk, OnErr, OnOk, length};
ghost use Rattle.data_transfer.specs.Parts.{Stand, part_at};
ghost use Rattle.io_queue.specs.Execution.{sizes};
ghost use Rattle.pdu_cut.specs.Cut.{front_shown};
ghost use Rattle.pdu_cut.specs.Front.{whole};
ghost use Rattle.fabrics_connect.specs.Row.{row_begun};
ghost use Rattle.pdu_cut.specs.Pdu.{data_part};
ghost use Rattle.target_decision.specs.Begin.{NamesIn, NamesWell, row_decided};
ghost use Rattle.target_decision.specs.Fulfilment.{Does, HasExtentIn, room_for, room_of};
ghost use Rattle.target_decision.specs.Carry.{CanCarry, brought_by, brought_in, tags_after, with_own};
ghost use Rattle.target_decision.specs.Decision.{CanPerform, consumed_of, data_of, entry_of, head_of, operation_of};
ghost use Rattle.target_decision.specs.Session.{turned};
ghost use Rattle.target_decision.specs.World.{world_in};

use crate::carry::{Carried, carry};
use crate::consequence::Consequence;
use crate::data::{Data, len_in};
use crate::decision::{Decision, ReplyAnswer};
use crate::session::ConnectionState;
use crate::tell::TOLD_ROOM;
use crate::transfer::WaitingCommand;
use crate::wire::{self, WIRE_MAX, data_room, head_of};
use crate::world::World;
use block_store::{Disk, Store};
use bytes::BytesMut;
use data_transfer::Transfers;
use fabrics_connect::{Connect, NewController, Row};
use io_queue::make_room;
use pdu_codec::Sqe;
use pdu_cut::{Cut, PduView};
use std::alloc::{AllocError, Global};

/// Makes room in the output for all that a decision on this front sends, and for the completions of as
/// many event requests as may wait, and carries on the transfer that it is about. It alone takes memory.
/// A refusal changes nothing.
pub fn prepare(
    world: &World<'_>,
    transfers: &mut Transfers<WaitingCommand>,
    connection: usize,
    state: &ConnectionState,
    output: &mut BytesMut,
    decision: &Decision,
    front: &Cut<'_>,
) -> Result<Carried, AllocError>
    requires carries { CanCarry connection transfers.old decision.now (front_shown front.now) }
    requires head { length (head_of (front_shown front.now)) ≤ 128 }
    requires small { room_of decision.now < 2 ^ 18 }
    ensures room { let room = room_for (world_in world.now) state.now decision.now (front_shown front.now) in
        OnOk result (room + TOLD_ROOM ≤ output.new.spare) }
    ensures output { output.new.items ≡ output.old.items }
    ensures kept { output.old.spare ≤ output.new.spare }
    ensures after { let tags = tags_after decision.now (front_shown front.now) (part_at transfers.old connection) in
        IfOk result (λ carried. Stand transfers.new (with_own (part_at transfers.old) connection tags)) }
    ensures carried { let brought = brought_by (part_at transfers.old connection) decision.now (front_shown front.now) in
        IfOk result (λ carried. brought_in carried (front_shown front.now) ≡ brought) }
    ensures err { OnErr result (transfers.new ≡ transfers.old) }
{
    let data = Data::of(world, state, decision);
    let returned = data_room(len_in(&data));
    let sent = WIRE_MAX + head_of(front).len() + returned + room_of(decision);
    output.reserve(sent + TOLD_ROOM)?;
    carry(transfers, connection, decision, front)
}

/// Makes the room that the operation of a decision wants on its disk. What the disks have stays, also where memory runs out.
pub fn make_disk_room<D: Disk>(
    stores: &mut [Store<D>],
    decision: &Decision,
) -> Result<(), AllocError>
    requires { HasExtentIn (sizes stores.old) (operation_of decision.now) }
    ensures { stores.new ≡ stores.old }
{
    let Decision::Reply(reply) = decision else {
        return Ok(());
    };
    match &reply.answer {
        ReplyAnswer::Given(_) => Ok(()),
        ReplyAnswer::Performed(operation) => make_room(stores, operation),
    }
}

/// Does what the decision on this front owes in the session: performs its operation, sends what it owes,
/// into room that is there, and moves the session.
pub fn fulfil<D: Disk>(
    world: &World<'_>,
    stores: &mut [Store<D>],
    state: &mut ConnectionState,
    output: &mut BytesMut,
    decision: &Decision,
    front: &Cut<'_>,
    carried: &Carried,
)
    requires performs { let brought = brought_in carried.now (front_shown front.now) in
        CanPerform (sizes stores.old) decision.now brought (front_shown front.now) }
    requires room { let room = room_for (world_in world.now) state.old decision.now (front_shown front.now) in
        room ≤ output.old.spare }
    ensures state { state.new ≡ turned state.old decision.now }
    ensures does { let payload = data_of (world_in world.now) state.old decision.now in
        let brought = brought_in carried.now (front_shown front.now) in
        Does state.old.alignment decision.now (front_shown front.now) brought payload
        stores.old stores.new output.old.items output.new.items }
    ensures spare { let room = room_for (world_in world.now) state.old decision.now (front_shown front.now) in
        output.old.spare ≤ output.new.spare + room }
{
    // Looked up as in `prepare` was, for its length: `Carried` owns what it has, and the world lends this.
    let data = Data::of(world, state, decision);
    wire::write(
        output,
        stores,
        state.alignment,
        decision,
        front,
        carried,
        &data,
    );
    state.turn(decision);
}

// How many bytes a decision may send of what it reads.
fn room_of(decision: &Decision) -> usize
    requires { room_of decision.now < 2 ^ 18 }
    ensures { result ≡ room_of decision.now }
{
    match decision {
        Decision::Reply(reply) => match &reply.answer {
            ReplyAnswer::Given(_) => 0,
            ReplyAnswer::Performed(operation) => operation.room(),
        },
        Decision::Initialize(_)
        | Decision::Request(_)
        | Decision::Wait { .. }
        | Decision::Receive { .. }
        | Decision::Terminate(_)
        | Decision::Close => 0,
    }
}

/// The row of the controller that a decision on this front, on this port, begins, where it begins
/// one.
pub fn new_row(
    alloc: Global,
    port: u16,
    decision: &Decision,
    front: &Cut<'_>,
) -> Result<Option<Row>, AllocError>
    requires { NamesWell decision.now (front_shown front.now) }
    ensures { IfOk result (λ row. row ≡ row_decided decision.now port (front_shown front.now)) }
{
    let Decision::Reply(reply) = decision else {
        return Ok(None);
    };
    match (&reply.consequence, front) {
        (Consequence::Begin(beginning), Cut::Pdu(pdu)) => {
            let row = row_in(alloc, port, &beginning.controller, pdu)?;
            Ok(Some(row))
        }
        _ => Ok(None),
    }
}

fn row_in(
    alloc: Global,
    port: u16,
    controller: &NewController,
    pdu: &PduView<'_>,
) -> Result<Row, AllocError>
    requires { NamesIn (whole pdu.now) }
    ensures { IfOk result (λ row.
        row ≡ row_begun controller.now port (entry_of pdu.now) (data_part pdu.now)) }
{
    let header = <&[u8; 72]>::try_from(pdu.header()).unwrap();
    let sqe = Sqe::read(header);
    Row::new(alloc, port, &Connect::new(&sqe, pdu.data()), *controller)
}

/// How many bytes a step consumes of this front: the whole PDU.
pub fn consumed_of(front: &Cut<'_>) -> usize
    ensures { result ≡ consumed_of (front_shown front.now) }
{
    match front {
        Cut::Pdu(pdu) => pdu.plen() as usize,
        Cut::More | Cut::Fault { .. } => 0,
    }
}
