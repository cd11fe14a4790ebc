//! A disk of which one read finds other bytes than were written, and disks of which none does.
ghost use Rattle.std.specs.Prelude.{◌≡◌, ◌+◌, ◌%◌, ◌/◌, ◌≤◌, length, OnOk};
ghost use Rattle.block_store.specs.Range.{bytes_of, units_at};

use super::checked::{compare, read, write};
use block_store::{DiskFault, FailingDisk, Faithful, MemoryDisk, Store, StrayingDisk, UNIT_LEN};
use std::alloc::{AllocError, Global};

const LEN: usize = 3 * UNIT_LEN;

const WRITTEN: [u8; LEN] = [7; LEN];

// Of units with these bytes the read of so many strays.
fn start(
    alloc: Global,
    strays: u64,
) -> Result<Store<StrayingDisk<FailingDisk<MemoryDisk>>>, AllocError> {
    let disk = FailingDisk::new(MemoryDisk::new(alloc, 4)?, 1_000);
    let mut store = Store::new(StrayingDisk::new(disk, strays));
    let _ = write(&mut store, 1, &WRITTEN);
    Ok(store)
}

// The bytes with one bit of this one turned.
fn turned(place: usize) -> [u8; LEN] {
    let mut bytes = WRITTEN;
    if place < LEN {
        bytes[place] ^= 1;
    }
    bytes
}

#[test]
fn a_read_gives_what_it_finds(rt: HostRuntime) -> Result<(), AllocError> {
    let mut store = start(rt.alloc(), 1)?;
    let mut out = [0; LEN];
    assert!(rt; read(&mut store, 1, &mut out).is_ok());
    assert!(rt; out == turned(UNIT_LEN));
    assert!(rt; read(&mut store, 1, &mut out).is_ok());
    assert!(rt; out == WRITTEN);
    Ok(())
}

#[test]
fn bytes_are_compared_with_those_found(rt: HostRuntime) -> Result<(), AllocError> {
    let mut found = start(rt.alloc(), 2)?;
    let is_found = compare(&mut found, 1, &turned(2 * UNIT_LEN)) == Ok(true);
    assert!(rt; is_found);
    let mut other = start(rt.alloc(), 2)?;
    let is_other = compare(&mut other, 1, &WRITTEN) == Ok(false);
    assert!(rt; is_other);
    let later = compare(&mut other, 1, &WRITTEN) == Ok(true);
    assert!(rt; later);
    Ok(())
}

// Over any faithful disk a read gives what was written.
fn read_written<D: Faithful>(
    store: &mut Store<D>,
    first: u64,
    out: &mut [u8],
) -> Result<(), DiskFault>
    requires whole { length out.old % 512 ≡ 0 }
    requires within { first + length out.old / 512 ≤ length store.old.contents }
    ensures bytes { OnOk result (out.new ≡ bytes_of (units_at store.old.contents first (length out.old / 512))) }
    ensures strays { store.new.strays ≡ store.old.strays }
{
    store.read(first, out)
}

#[test]
fn faithful_disks_are_read_as_written(rt: HostRuntime) -> Result<(), AllocError> {
    let disk = FailingDisk::new(MemoryDisk::new(rt.alloc(), 4)?, 1_000);
    let mut store = Store::new(disk);
    let mut out = [0xA5; UNIT_LEN];
    assert!(rt; store.blocks() == 4);
    assert!(rt; write(&mut store, 1, &[7; UNIT_LEN]).is_ok());
    assert!(rt; store.blocks() == 4);
    assert!(rt; read_written(&mut store, 1, &mut out).is_ok());
    assert!(rt; out == [7; UNIT_LEN]);
    Ok(())
}
