//! The calls of a store, where the range is within the disk.
ghost use Rattle.std.specs.Prelude.{◌≡◌, ◌+◌, ◌%◌, ◌/◌, ◌≤◌, length, IsTrue};

use block_store::{Disk, DiskFault, Store, UNIT_LEN};

/// Why a call was not made, or failed.
#[derive(Clone, Copy, PartialEq, Eq)]
pub enum Fault {
    Disk,
    Memory,
    Outside,
}

impl From<DiskFault> for Fault {
    fn from(_: DiskFault) -> Fault {
        Fault::Disk
    }
}

fn is_within<D: Disk>(store: &Store<D>, first: u64, len: usize) -> bool
    ensures { IsTrue result → (first + len / 512 ≤ length store.now.contents) × (len % 512 ≡ 0) }
{
    let blocks = store.blocks();
    let count = (len / UNIT_LEN) as u64;
    len % UNIT_LEN == 0 && first <= blocks && count <= blocks - first
}

pub fn read<D: Disk>(store: &mut Store<D>, first: u64, out: &mut [u8]) -> Result<(), Fault> {
    if !is_within(store, first, out.len()) {
        return Err(Fault::Outside);
    }
    Ok(store.read(first, out)?)
}

pub fn write<D: Disk>(store: &mut Store<D>, first: u64, bytes: &[u8]) -> Result<(), Fault> {
    if !is_within(store, first, bytes.len()) {
        return Err(Fault::Outside);
    }
    Ok(store.write(first, bytes)?)
}

pub fn zero<D: Disk>(store: &mut Store<D>, first: u64, count: u64) -> Result<(), Fault> {
    let blocks = store.blocks();
    if first > blocks || count > blocks - first {
        return Err(Fault::Outside);
    }
    Ok(store.zero(first, count)?)
}

pub fn compare<D: Disk>(store: &mut Store<D>, first: u64, bytes: &[u8]) -> Result<bool, Fault> {
    if !is_within(store, first, bytes.len()) {
        return Err(Fault::Outside);
    }
    Ok(store.compare(first, bytes)?)
}

pub fn make_room<D: Disk>(store: &mut Store<D>, first: u64, count: u64) -> Result<(), Fault> {
    let blocks = store.blocks();
    if first > blocks || count > blocks - first {
        return Err(Fault::Outside);
    }
    store.make_room(first, count).map_err(|_| Fault::Memory)
}
