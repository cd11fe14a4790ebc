//! An operation, performed on its disk and answered.
ghost use Rattle.std.specs.Prelude.{◌≡◌, ◌+◌, ◌*◌, ◌≤◌, length};
ghost use Rattle.io_queue.specs.Operation.{HasExtent, IsOnDisk, IsWithin, brought, room_by, room_for};
ghost use Rattle.io_queue.specs.Execution.{Performs, PerformsOn, Syncs, SyncsIn, sizes};

use crate::act::{compare, flush, write, write_zeroes};
use crate::operation::{Action, Extent, Operation};
use crate::reply::{DataFormat, append_read};
use block_store::{Disk, Store, UNIT_LEN};
use bytes::BytesMut;
use nvt_fields::Status;
use std::alloc::AllocError;

/// Makes the room on its disk, one of these by its number, that an operation writes to. Nothing of any
/// disk is changed by it, whatever it answers.
#[tactic(auto, using(crate::proofs::Executions::extent_there, crate::proofs::Executions::extent_on, crate::proofs::Executions::put_back))]
pub fn make_room<D: Disk>(stores: &mut [Store<D>], operation: &Operation) -> Result<(), AllocError>
    requires { HasExtent (sizes stores.old) operation.now.extent }
    ensures { stores.new ≡ stores.old }
{
    match operation.action {
        Action::Write { .. } => {
            let extent = &operation.extent;
            stores[usize::from(extent.disk)].make_room(extent.first, extent.units)
        }
        // These write nothing.
        Action::Flush | Action::Read | Action::Compare { .. } => Ok(()),
        // Zeros take no room.
        Action::WriteZeroes { .. } => Ok(()),
    }
}

/// Performs an operation on its disk, one of these by its number, and answers its status. Of `bytes`,
/// which came for the command, it takes what it writes or compares; what it reads it appends to
/// `output` in C2HData of this format, straight from the disk. None of this takes memory.
#[tactic(auto, using(crate::proofs::Executions::disk_there, crate::proofs::Executions::within_on, crate::proofs::Executions::synced_at))]
pub fn perform<D: Disk>(
    stores: &mut [Store<D>],
    operation: &Operation,
    bytes: &[u8],
    format: DataFormat,
    output: &mut BytesMut,
) -> Status
    requires within { IsWithin (sizes stores.old) (length bytes.now) operation.now }
    requires alignment { format.hpda ≤ 31 }
    requires room { room_for operation.now ≤ output.old.spare }
    ensures performs { Performs operation.now bytes.now format stores.old stores.new
        output.old.items output.new.items result }
    ensures spare { output.old.spare ≤ output.new.spare + room_for operation.now }
    ensures synced { SyncsIn operation.now stores.new result }
{
    let extent = &operation.extent;
    let store = &mut stores[usize::from(extent.disk)];
    perform_on(store, extent, operation.action, bytes, format, output)
}

#[tactic(auto, using(crate::proofs::Executions::write_performed, crate::proofs::Executions::zeroes_performed))]
fn perform_on<D: Disk>(
    store: &mut Store<D>,
    extent: &Extent,
    action: Action,
    bytes: &[u8],
    format: DataFormat,
    output: &mut BytesMut,
) -> Status
    requires within { IsOnDisk (length store.old.contents) (length bytes.now) extent.now action }
    requires alignment { format.hpda ≤ 31 }
    requires room { room_by action extent.now.units ≤ output.old.spare }
    ensures performs { PerformsOn extent.now action bytes.now format store.old store.new
        output.old.items output.new.items result }
    ensures units { length store.new.contents ≡ length store.old.contents }
    ensures spare { output.old.spare ≤ output.new.spare + room_by action extent.now.units }
    ensures synced { Syncs action store.new result }
{
    match action {
        Action::Flush => flush(store),
        Action::Read => append_read(output, format, store, extent),
        Action::Write { at, fua } => write(store, extent, brought(extent, at, bytes), fua),
        Action::Compare { at } => compare(store, extent, brought(extent, at, bytes)),
        Action::WriteZeroes { fua } => write_zeroes(store, extent, fua),
    }
}

// The data for an extent, of those that came, from an offset on.
fn brought<'a>(extent: &Extent, at: u64, bytes: &'a [u8]) -> &'a [u8]
    requires { at + 512 * extent.now.units ≤ length bytes.now }
    ensures bytes { result.now ≡ brought extent.now at bytes.now }
    ensures len { length result.now ≡ 512 * extent.now.units }
{
    let at = at as usize;
    &bytes[at..at + extent.units as usize * UNIT_LEN]
}
