//! A Read's data, straight from the disk into the output, in the pieces in which they go to the host.
ghost use Rattle.std.specs.Prelude.{◌≡◌, ◌+◌, ◌*◌, ◌/◌, ◌^◌, ◌<◌, ◌≤◌, OnOk, length, take};
ghost use Rattle.block_store.specs.Faults.{Counts};
ghost use Rattle.io_queue.specs.Reply.{AppendsFound, AppendsRead, data_pdus, part_of, pdu_with};

use crate::operation::Extent;
use block_store::{Disk, DiskFault, Store, UNIT_LEN};
use bytes::BytesMut;
use data_transfer::{Piece, pieces};
use nvt_fields::Status;
use pdu_codec::C2hHead;

/// What all C2HData of one reply have in common (TCP Transport 1.0, section 3.6.2.6).
#[derive(Clone, Copy, Debug, PartialEq, Eq)]
pub struct DataFormat {
    /// CCCID: the command that they are of.
    pub cid: u16,
    /// The host's PDU data alignment, in units of 4 bytes, 0's based: 0 to 31.
    pub hpda: u8,
}

/// Appends the data of a Read, as they are found on the disk, read into their place; where the disk fails
/// to read them, nothing. Answers the command's status.
#[tactic(auto, using(crate::proofs::Readings::read_appended))]
pub(crate) fn append_read<D: Disk>(
    output: &mut BytesMut,
    format: DataFormat,
    store: &mut Store<D>,
    extent: &Extent,
) -> Status
    requires within { extent.now.first + extent.now.units ≤ length store.old.contents }
    requires bound { extent.now.units ≤ 256 }
    requires alignment { format.hpda ≤ 31 }
    requires room { 512 + 512 * extent.now.units ≤ output.old.spare }
    ensures appends { AppendsRead format extent.now store.old store.new output.old.items
        output.new.items result }
    ensures spare { output.old.spare ≤ output.new.spare + 512 + 512 * extent.now.units }
{
    let before = output.len();
    match read_pieces(output, format, store, extent) {
        Ok(()) => Status::SUCCESS,
        Err(DiskFault) => {
            output.truncate(before);
            Status::UNRECOVERED_READ_ERROR
        }
    }
}

// Appends the pieces, up to the first that the disk fails to read.
#[tactic(auto, using(crate::proofs::Readings::begins_reading))]
fn read_pieces<D: Disk>(
    output: &mut BytesMut,
    format: DataFormat,
    store: &mut Store<D>,
    extent: &Extent,
) -> Result<(), DiskFault>
    requires within { extent.now.first + extent.now.units ≤ length store.old.contents }
    requires bound { extent.now.units ≤ 256 }
    requires alignment { format.hpda ≤ 31 }
    requires room { 512 + 512 * extent.now.units ≤ output.old.spare }
    ensures placed { let form = data_pdus format in
        OnOk result (AppendsFound form extent.now store.old store.new output.old.items output.new.items) }
    ensures front { take (length output.old.items) output.new.items ≡ output.old.items }
    ensures spare { output.old.spare ≤ output.new.spare + 512 + 512 * extent.now.units }
    ensures contents { store.new.contents ≡ store.old.contents }
    ensures faults { Counts result store.old.faults store.new.faults }
{
    // prover: each unit of a disk has 512 bytes
    store.blocks();
    for piece in pieces((extent.units * UNIT_LEN as u64) as u32) {
        let part = part_of(extent, &piece);
        read_piece(output, format, store, &part, &piece)?;
    }
    Ok(())
}

// The units of an extent that a piece of its bytes has.
fn part_of(extent: &Extent, piece: &Piece) -> Extent
    requires within { extent.now.first + piece.now.offset / 512 < 2 ^ 64 }
    ensures { result ≡ part_of extent.now piece.now }
{
    Extent {
        disk: extent.disk,
        first: extent.first + u64::from(piece.offset) / UNIT_LEN as u64,
        units: u64::from(piece.len) / UNIT_LEN as u64,
    }
}

// Appends a piece, with the bytes that are found in its units unless the disk fails to read them.
fn read_piece<D: Disk>(
    output: &mut BytesMut,
    format: DataFormat,
    store: &mut Store<D>,
    part: &Extent,
    piece: &Piece,
) -> Result<(), DiskFault>
    requires within { part.now.first + part.now.units ≤ length store.old.contents }
    requires bound { part.now.units ≤ 256 }
    requires alignment { format.hpda ≤ 31 }
    requires room { 128 + 512 * part.now.units ≤ output.old.spare }
    ensures placed { let form = pdu_with format piece.now in
        OnOk result (AppendsFound form part.now store.old store.new output.old.items output.new.items) }
    ensures front { take (length output.old.items) output.new.items ≡ output.old.items }
    ensures spare { output.old.spare ≤ output.new.spare + 128 + 512 * part.now.units }
    ensures contents { store.new.contents ≡ store.old.contents }
    ensures faults { Counts result store.old.faults store.new.faults }
{
    // prover: each unit of a disk has 512 bytes
    store.blocks();
    let len = part.units as usize * UNIT_LEN;
    let head = C2hHead {
        cid: format.cid,
        offset: piece.offset,
        last: piece.last,
        hpda: format.hpda,
        len: len as u32,
    };
    head.write(output).unwrap();
    let start = output.len() - len;
    store.read(part.first, &mut output.as_mut_slice()[start..])
}
