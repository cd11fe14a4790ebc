//! The PDUs of a decision, written into room that is there.
ghost use Rattle.std.specs.Prelude.{◌≡◌, ◌+◌, ◌≤◌, ◌<◌, ◌^◌, ◌++◌, length};
ghost use Rattle.admin_queue.specs.Payload.{IsPart, payload_len};
ghost use Rattle.target_decision.specs.Data.{bytes_in, bytes_of, len_in};
ghost use Rattle.io_queue.specs.Execution.{sizes};
ghost use Rattle.io_queue.specs.Reply.{data_pdus, data_room, piece_pdu, returned_pdus};
ghost use Rattle.pdu_cut.specs.Cut.{front_shown};
ghost use Rattle.target_decision.specs.Fulfilment.{Does, room_in, room_of};
ghost use Rattle.target_decision.specs.Carry.{brought_in};
ghost use Rattle.target_decision.specs.Decision.{CanPerform, WithinIn, bytes_at, format_of, head_of, operation_in, response_of};
ghost use Rattle.nvt_fields.specs.FatalErrorStatus.{fatal_code_of};
ghost use Rattle.pdu_codec.specs.Initialize.{ic_resp};
ghost use Rattle.pdu_codec.specs.R2t.{r2t};
ghost use Rattle.pdu_codec.specs.TermReq.{c2h_term_req};

use crate::alignment::Alignment;
use crate::carry::Carried;
use crate::data::Data;
use crate::decision::{DataRequest, Decision, Reply, ReplyAnswer, Termination};
use block_store::{Disk, Store};
use bytes::BytesMut;
use data_transfer::{MAX_H2C_DATA, PIECE_LEN, Piece, pieces};
use io_queue::{DataFormat, perform};
use nvt_fields::Status;
use pdu_codec::{C2hHead, CapsuleResp, IcResp, R2t, TermReq};
use pdu_cut::Cut;

/// The most bytes that a decision sends beside its data and the header in error: an ICResp and a
/// response are within it.
pub(crate) const WIRE_MAX: usize = 128 + 24;

/// Performs the operation of a decision on this front, with what was carried for it, and appends its PDUs,
/// with the data that it returns of its controller.
pub(crate) fn write<D: Disk>(
    output: &mut BytesMut,
    stores: &mut [Store<D>],
    alignment: Alignment,
    decision: &Decision,
    front: &Cut<'_>,
    carried: &Carried,
    returned: &Option<Data<'_>>,
)
    requires room { let head = head_of (front_shown front.now) in
        WIRE_MAX + length head + data_room (len_in returned.now) + room_of decision.now ≤ output.old.spare }
    requires performs { let brought = brought_in carried.now (front_shown front.now) in
        CanPerform (sizes stores.old) decision.now brought (front_shown front.now) }
    ensures does { let brought = brought_in carried.now (front_shown front.now) in
        Does alignment decision.now (front_shown front.now) brought (bytes_in returned.now)
        stores.old stores.new output.old.items output.new.items }
    ensures spare { let head = head_of (front_shown front.now) in
        let room = WIRE_MAX + length head + data_room (len_in returned.now) + room_of decision.now in
        output.old.spare ≤ output.new.spare + room }
{
    match decision {
        Decision::Initialize(_) => write_initialized(output),
        Decision::Reply(reply) => {
            write_reply(output, stores, alignment, reply, front, carried, returned);
        }
        Decision::Request(request) => write_request(output, request, carried.ttag),
        Decision::Receive { .. } | Decision::Wait { .. } => {}
        Decision::Terminate(termination) => {
            write_termination(output, termination, head_of(front));
        }
        Decision::Close => {}
    }
}

fn write_reply<D: Disk>(
    output: &mut BytesMut,
    stores: &mut [Store<D>],
    alignment: Alignment,
    reply: &Reply,
    front: &Cut<'_>,
    carried: &Carried,
    returned: &Option<Data<'_>>,
)
    requires room { 152 + data_room (len_in returned.now) + room_in (operation_in reply.now.answer) ≤ output.old.spare }
    requires within { let brought = brought_in carried.now (front_shown front.now) in
        WithinIn (sizes stores.old) (operation_in reply.now.answer) brought.bytes }
    ensures does { let brought = brought_in carried.now (front_shown front.now) in
        Does alignment (Decision.Reply reply.now) (front_shown front.now) brought (bytes_in returned.now)
        stores.old stores.new output.old.items output.new.items }
    ensures spare { let room = 152 + data_room (len_in returned.now) + room_in (operation_in reply.now.answer) in
        output.old.spare ≤ output.new.spare + room }
{
    match &reply.answer {
        ReplyAnswer::Given(given) => {
            write_data(output, format_of(reply, alignment), returned);
            write_response(output, reply, given.status, given.result);
        }
        ReplyAnswer::Performed(operation) => {
            let status = perform(
                stores,
                operation,
                carried.bytes(front),
                format_of(reply, alignment),
                output,
            );
            write_response(output, reply, status, 0);
        }
    }
}

// The C2HData of a reply.
fn format_of(reply: &Reply, alignment: Alignment) -> DataFormat
    ensures value { result ≡ format_of reply.now alignment }
    ensures bound { result.hpda ≤ 31 }
{
    DataFormat {
        cid: reply.cid,
        hpda: alignment.hpda(),
    }
}

fn write_initialized(output: &mut BytesMut)
    requires { 128 ≤ output.old.spare }
    ensures items { output.new.items ≡ output.old.items
        ++ ic_resp (record { pfv = 0; cpda = 0; dgst = 0; maxh2cdata = MAX_H2C_DATA }) }
    ensures spare { output.old.spare ≤ output.new.spare + 128 }
{
    let response = IcResp {
        pfv: 0,
        cpda: 0,
        dgst: 0,
        maxh2cdata: MAX_H2C_DATA,
    };
    response.write(output).unwrap();
}

// The data of a reply, if there are any, in pieces.
fn write_data(output: &mut BytesMut, format: DataFormat, returned: &Option<Data<'_>>)
    requires room { data_room (len_in returned.now) ≤ output.old.spare }
    requires alignment { format.hpda ≤ 31 }
    ensures items { output.new.items ≡ output.old.items ++ returned_pdus format (bytes_in returned.now) }
    ensures spare { output.old.spare ≤ output.new.spare + data_room (len_in returned.now) }
{
    if let Some(payload) = returned {
        write_pieces(output, format, payload);
    }
}

fn write_pieces(output: &mut BytesMut, format: DataFormat, payload: &Data<'_>)
    requires room { data_room (payload_len payload.now.payload) ≤ output.old.spare }
    requires alignment { format.hpda ≤ 31 }
    ensures items { output.new.items ≡ output.old.items ++ data_pdus format (bytes_of payload.now) }
    ensures spare { output.old.spare ≤ output.new.spare + data_room (payload_len payload.now.payload) }
{
    for piece in pieces(payload.len() as u32) {
        write_piece(output, format, payload, &piece);
    }
}

// A piece, written straight into its place in the output.
fn write_piece(output: &mut BytesMut, format: DataFormat, payload: &Data<'_>, piece: &Piece)
    requires part { IsPart payload.now.payload piece.now.offset piece.now.len }
    requires room { 128 + piece.now.len ≤ output.old.spare }
    requires bound { piece.now.len ≤ 32768 }
    requires alignment { format.hpda ≤ 31 }
    ensures items { output.new.items ≡ output.old.items ++ piece_pdu format (bytes_of payload.now) piece.now }
    ensures spare { output.old.spare ≤ output.new.spare + 128 + piece.now.len }
    ensures len { length (bytes_of payload.now) ≡ payload_len payload.now.payload }
{
    let head = C2hHead {
        cid: format.cid,
        offset: piece.offset,
        last: piece.last,
        hpda: format.hpda,
        len: piece.len,
    };
    head.write(output).unwrap();
    let start = output.len() - piece.len as usize;
    payload.write_part(piece.offset, &mut output.as_mut_slice()[start..]);
}

/// The room that so many bytes of data take in pieces, with a head of at most 128 bytes before each.
pub(crate) fn data_room(len: usize) -> usize
    requires { len < 2 ^ 18 }
    ensures { result ≡ data_room len }
{
    let piece = PIECE_LEN as usize;
    128 * ((len + piece - 1) / piece) + len
}

fn write_response(output: &mut BytesMut, reply: &Reply, status: Status, value: u64)
    requires { 24 ≤ output.old.spare }
    ensures items { output.new.items ≡ output.old.items ++ response_of reply.now status value }
    ensures spare { output.old.spare ≤ output.new.spare + 24 }
{
    let response = CapsuleResp {
        result: value,
        sqhd: reply.sqhd,
        cid: reply.cid,
        status,
    };
    response.write(output).unwrap();
}

fn write_request(output: &mut BytesMut, request: &DataRequest, ttag: u16)
    requires { 24 ≤ output.old.spare }
    ensures items { output.new.items ≡ output.old.items
        ++ r2t (record { cccid = request.now.cid; ttag = ttag; r2to = 0; r2tl = request.now.len }) }
    ensures spare { output.old.spare ≤ output.new.spare + 24 }
{
    let asked = R2t {
        cccid: request.cid,
        ttag,
        r2to: 0,
        r2tl: request.len,
    };
    asked.write(output).unwrap();
}

fn write_termination(output: &mut BytesMut, termination: &Termination, head: &[u8])
    requires room { 24 + length head.now ≤ output.old.spare }
    requires head { length head.now ≤ 128 }
    ensures items { output.new.items ≡ output.old.items
        ++ c2h_term_req (fatal_code_of termination.now.fes) termination.now.fei head.now }
    ensures spare { output.old.spare ≤ output.new.spare + 24 + length head.now }
{
    TermReq::write_c2h(output, termination.fes, termination.fei, head).unwrap();
}

// What a termination returns of the PDU in error: its header, or the bytes that are faulty.
pub(crate) fn head_of<'a>(front: &Cut<'a>) -> &'a [u8]
    ensures { result.now ≡ head_of (front_shown front.now) }
{
    match front {
        Cut::More => &[],
        Cut::Pdu(pdu) => pdu.header(),
        Cut::Fault { head, .. } => head,
    }
}

// The data of the PDU at a front.
pub(crate) fn bytes_at<'a>(front: &Cut<'a>) -> &'a [u8]
    ensures { result.now ≡ bytes_at (front_shown front.now) }
{
    match front {
        Cut::Pdu(pdu) => pdu.data(),
        Cut::More | Cut::Fault { .. } => &[],
    }
}
