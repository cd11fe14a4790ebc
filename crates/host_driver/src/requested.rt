//! The data of a command, as the controller asks for them.
ghost use Rattle.std.specs.Prelude.{◌≡◌, ◌≤◌, ◌<◌, ◌+◌, ◌*◌, ◌/◌, ◌++◌, ◌^◌, length};
ghost use Rattle.host_driver.specs.Within.{AreLimits};
ghost use Rattle.host_driver.specs.Requested.{piece, piece_pdu, requested_of, requested_room};

use crate::TransportLimits;
use bytes::BytesMut;
use pdu_codec::{H2cData, R2t};

/// The room that so many bytes take at most when they are asked for, in bytes.
pub fn requested_room(len: u32) -> usize
    ensures { result ≡ requested_room len }
{
    len as usize + 152 * (len as usize / 4096 + 1)
}

/// Appends the H2CData that carry what an R2T asks for of a command's data: each of at most MAXH2CDATA
/// bytes, LAST_PDU in the last.
pub fn write_requested(limits: TransportLimits, request: R2t, bytes: &[u8], out: &mut BytesMut)
    requires limits { AreLimits limits }
    requires within { request.r2to + request.r2tl ≤ length bytes.now }
    requires length { length bytes.now ≤ 131072 }
    requires room { requested_room request.r2tl ≤ out.old.spare }
    ensures items { out.new.items ≡ out.old.items ++ requested_of limits request bytes.now }
    ensures spare { out.old.spare ≤ out.new.spare + requested_room request.r2tl }
{
    let start = request.r2to as usize;
    let mut left = &bytes[start..start + request.r2tl as usize];
    if left.is_empty() {
        return;
    }
    let most = limits.maxh2cdata as usize;
    let mut offset = request.r2to;
    while left.len() > most {
        let (piece, rest) = left.split_at(most);
        write_piece(limits.cpda, request, offset, false, piece, out);
        offset += limits.maxh2cdata;
        left = rest;
    }
    write_piece(limits.cpda, request, offset, true, left, out);
}

fn write_piece(cpda: u8, request: R2t, offset: u32, last: bool, payload: &[u8], out: &mut BytesMut)
    requires alignment { cpda ≤ 31 }
    requires length { length payload.now ≤ 131072 }
    requires room { 152 + length payload.now ≤ out.old.spare }
    ensures items { out.new.items ≡ out.old.items ++ piece_pdu cpda request (piece offset last payload.now) }
    ensures spare { out.old.spare ≤ out.new.spare + (152 + length payload.now) }
{
    let pdu = H2cData {
        cccid: request.cccid,
        ttag: request.ttag,
        offset,
        last,
        cpda,
        payload,
    };
    pdu.write(out).unwrap();
}
