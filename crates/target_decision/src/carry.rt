//! What a decision makes of the transfers of its connection.
ghost use Rattle.std.specs.Prelude.{◌≡◌, ◌<◌, ◌++◌, IfOk, None, Ok, OnErr, Some};
ghost use Rattle.data_transfer.specs.declared.transfer.Progress.TheVariants as progress;
ghost use Rattle.data_transfer.specs.Part.{begun, data_after, data_answer};
ghost use Rattle.data_transfer.specs.Parts.{Stand, count_of, free_tag, part_at, with_part};
ghost use Rattle.pdu_cut.specs.Cut.{front_shown};
ghost use Rattle.pdu_cut.specs.Front.{whole};
ghost use Rattle.pdu_cut.specs.Pdu.{data_part};
ghost use Rattle.target_decision.specs.Carry.{CanCarry, brought_by, brought_in, bytes_in};
ghost use Rattle.target_decision.specs.Carry.{tags_after, with_own};
ghost use Rattle.target_decision.specs.Decision.{waiting_in};
ghost use Rattle.target_decision.specs.Transfer.{came_of, h2c_of};

use crate::decision::{DataRequest, Decision, Reply};
use crate::transfer::WaitingCommand;
use crate::wire::bytes_at;
use data_transfer::{Transfers, Whole};
use nvt_fields::PduType;
use pdu_codec::{DataHead, Sqe};
use pdu_cut::{Cut, PduView};
use std::alloc::AllocError;

/// What the transfers of its connection give to a decision.
#[derive(Drop)]
pub struct Carried {
    /// The tag (TTAG) of the transfer that it begins, and else 0.
    pub ttag: u16,
    /// The transfer that it ends, with all its data.
    pub whole: Option<Whole<WaitingCommand>>,
}

impl Carried {
    // Of a decision that begins no transfer and ends none.
    fn nothing() -> Carried
        ensures ttag { result.ttag ≡ 0 }
        ensures whole { result.whole ≡ None }
    {
        Carried {
            ttag: 0,
            whole: None,
        }
    }

    /// The bytes for the operation of the decision: all data of the transfer that it ends, or the data in
    /// the capsule at the front.
    pub(crate) fn bytes<'a>(&'a self, front: &Cut<'a>) -> &'a [u8]
        ensures { result.now ≡ bytes_in self.now.whole (front_shown front.now) }
    {
        match &self.whole {
            Some(whole) => &whole.data,
            None => bytes_at(front),
        }
    }
}

/// Begins, continues or ends the transfer that a decision on this front is about, or drops all of the
/// connection with it. It takes memory for a transfer that begins, and for nothing else; a refusal leaves
/// all as it was.
pub(crate) fn carry(
    transfers: &mut Transfers<WaitingCommand>,
    connection: usize,
    decision: &Decision,
    front: &Cut<'_>,
) -> Result<Carried, AllocError>
    requires { CanCarry connection transfers.old decision.now (front_shown front.now) }
    ensures after { let tags = tags_after decision.now (front_shown front.now) (part_at transfers.old connection) in
        IfOk result (λ carried. Stand transfers.new (with_own (part_at transfers.old) connection tags)) }
    ensures carried { let given = brought_by (part_at transfers.old connection) decision.now (front_shown front.now) in
        IfOk result (λ carried. brought_in carried (front_shown front.now) ≡ given) }
    ensures err { OnErr result (transfers.new ≡ transfers.old) }
{
    match (decision, front) {
        (Decision::Request(request), Cut::Pdu(pdu)) => begin(transfers, connection, request, pdu),
        (Decision::Receive { ttag }, Cut::Pdu(pdu)) => {
            receive(transfers, connection, *ttag, pdu);
            Ok(Carried::nothing())
        }
        (
            Decision::Reply(
                Reply {
                    transfer: Some(ttag),
                    ..
                },
            ),
            Cut::Pdu(pdu),
        ) => Ok(end(transfers, connection, *ttag, pdu)),
        (Decision::Terminate(_) | Decision::Close, _) => {
            transfers.drop_queue(connection);
            Ok(Carried::nothing())
        }
        _ => Ok(Carried::nothing()),
    }
}

// Begins a transfer of all data of the command of this capsule.
fn begin(
    transfers: &mut Transfers<WaitingCommand>,
    connection: usize,
    request: &DataRequest,
    pdu: &PduView<'_>,
) -> Result<Carried, AllocError>
    requires known { connection < 64 }
    requires kind { pdu.now.kind ≡ PduType.CapsuleCmd }
    requires room { count_of (part_at transfers.old connection) < 63 }
    ensures tag { IfOk result (λ carried. carried.ttag ≡ free_tag (part_at transfers.old connection)) }
    ensures whole { IfOk result (λ carried. carried.whole ≡ None) }
    ensures begun { let part = begun request.now.cid (waiting_in pdu.now) request.now.len in
        let ttag = free_tag (part_at transfers.old connection) in
        IfOk result (λ carried. Stand transfers.new
        (with_part (part_at transfers.old) connection ttag (Some part))) }
    ensures err { OnErr result (transfers.new ≡ transfers.old) }
{
    let header = <&[u8; 72]>::try_from(pdu.header()).unwrap();
    let command = WaitingCommand {
        entry: *Sqe::read(header).entry,
    };
    let ttag = transfers.begin(connection, request.cid, command, request.len)?;
    Ok(Carried { ttag, whole: None })
}

// Takes the data of an H2CData, which has no fault.
fn receive(
    transfers: &mut Transfers<WaitingCommand>,
    connection: usize,
    ttag: u16,
    pdu: &PduView<'_>,
)
    requires kind { pdu.now.kind ≡ PduType.H2cData }
    ensures { let part = data_after (part_at transfers.old connection ttag) (h2c_of pdu.now) in
        Stand transfers.new (with_part (part_at transfers.old) connection ttag part) }
{
    let head = DataHead::read(pdu.header());
    // What it answers is known: it was asked when this was decided.
    let _ = transfers.data(
        connection,
        ttag,
        head.cccid,
        head.datao,
        head.datal,
        pdu.data(),
    );
}

// Takes the last data of a transfer, and ends it.
fn end(
    transfers: &mut Transfers<WaitingCommand>,
    connection: usize,
    ttag: u16,
    pdu: &PduView<'_>,
) -> Carried
    requires kind { pdu.now.kind ≡ PduType.H2cData }
    requires last { data_answer (part_at transfers.old connection ttag) (h2c_of pdu.now) ≡ Ok progress.Whole }
    ensures tag { result.ttag ≡ 0 }
    ensures bytes { let came = came_of (part_at transfers.old connection ttag) in
        bytes_in result.whole (whole pdu.now) ≡ came ++ data_part pdu.now }
    ensures ended { Stand transfers.new (with_part (part_at transfers.old) connection ttag None) }
{
    receive(transfers, connection, ttag, pdu);
    Carried {
        ttag: 0,
        whole: transfers.finish(connection, ttag),
    }
}
