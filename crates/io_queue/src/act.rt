//! Operations, done to their disk.
ghost use Rattle.std.specs.Prelude.{◌≡◌, ◌+◌, ◌*◌, ◌≤◌, length, replicate, true};
ghost use Rattle.block_store.specs.Range.{units_of};
ghost use Rattle.block_store.specs.Unit.{zero_unit};
ghost use Rattle.io_queue.specs.Act.{Compares, Flushes, IsSynced, Writes};

use crate::operation::Extent;
use block_store::{Disk, DiskFault, Store};
use nvt_fields::Status;

/// Writes the bytes to the extent, and with `fua` makes them last.
#[tactic(auto, using(crate::proofs::Acts::front_new, crate::proofs::Acts::then_flushed))]
pub fn write<D: Disk>(store: &mut Store<D>, extent: &Extent, bytes: &[u8], fua: bool) -> Status
    requires within { extent.now.first + extent.now.units ≤ length store.old.contents }
    requires len { length bytes.now ≡ 512 * extent.now.units }
    ensures written { Writes extent.now.first (units_of bytes.now) store.old store.new result }
    ensures units { length store.new.contents ≡ length store.old.contents }
    ensures synced { fua ≡ true → IsSynced store.new result }
{
    match store.write(extent.first, bytes) {
        Ok(()) if fua => flush(store),
        Ok(()) => Status::SUCCESS,
        Err(DiskFault) => Status::WRITE_FAULT,
    }
}

/// Writes zeros to the extent, and with `fua` makes them last.
#[tactic(auto, using(crate::proofs::Acts::front_new, crate::proofs::Acts::then_flushed))]
pub fn write_zeroes<D: Disk>(store: &mut Store<D>, extent: &Extent, fua: bool) -> Status
    requires { extent.now.first + extent.now.units ≤ length store.old.contents }
    ensures written { let zeros = replicate extent.now.units zero_unit in
        Writes extent.now.first zeros store.old store.new result }
    ensures units { length store.new.contents ≡ length store.old.contents }
    ensures synced { fua ≡ true → IsSynced store.new result }
{
    match store.zero(extent.first, extent.units) {
        Ok(()) if fua => flush(store),
        Ok(()) => Status::SUCCESS,
        Err(DiskFault) => Status::WRITE_FAULT,
    }
}

/// Whether the extent is found to have these bytes.
#[tactic(auto, using(crate::proofs::Acts::found_same, crate::proofs::Acts::found_different))]
pub fn compare<D: Disk>(store: &mut Store<D>, extent: &Extent, bytes: &[u8]) -> Status
    requires within { extent.now.first + extent.now.units ≤ length store.old.contents }
    requires len { length bytes.now ≡ 512 * extent.now.units }
    ensures { Compares extent.now bytes.now store.old store.new result }
{
    match store.compare(extent.first, bytes) {
        Ok(true) => Status::SUCCESS,
        Ok(false) => Status::COMPARE_FAILURE,
        Err(DiskFault) => Status::UNRECOVERED_READ_ERROR,
    }
}

/// Makes what was written last.
#[tactic(auto, using(crate::proofs::Acts::none_new))]
pub fn flush<D: Disk>(store: &mut Store<D>) -> Status
    ensures flushed { Flushes store.old store.new result }
    ensures synced { IsSynced store.new result }
{
    match store.sync() {
        Ok(()) => Status::SUCCESS,
        Err(DiskFault) => Status::WRITE_FAULT,
    }
}
