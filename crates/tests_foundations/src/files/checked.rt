//! Disks in memory, and the calls of a disk where the range is within it.
ghost use Rattle.std.specs.Prelude.{◌≡◌, ◌+◌, ◌%◌, ◌/◌, ◌^◌, ◌<◌, ◌≤◌, [], length, map, IsTrue};
ghost use Rattle.file_disk.specs.Note.{call_of};

use block_store::{Disk, DiskFault, UNIT_LEN};
use file_disk::{Answer, FileDisk, MemoryFile, Unknown};
use std::alloc::Global;
use std::test::Fail;

pub const UNITS: usize = 4;

pub const LEN: usize = UNITS * UNIT_LEN;

pub type TestDisk = FileDisk<MemoryFile, Unknown>;

/// A disk in this file.
pub fn in_file(file: MemoryFile) -> Result<TestDisk, Fail>
    requires { map call_of file.log.notes ≡ [] }
{
    match FileDisk::new(file, 0, UNITS as u64) {
        Ok(disk) => Ok(disk),
        Err((error, _)) => Err(error.into()),
    }
}

/// A disk of four units of zeros, in a file that answers its calls so. The first is the sync that opens
/// it.
pub fn start(alloc: Global, answers: &[Answer]) -> Result<TestDisk, Fail> {
    let mut planned = Vec::new(alloc);
    planned.extend_from_slice(answers)?;
    in_file(MemoryFile::new(alloc, LEN, planned)?)
}

fn is_within<D: Disk>(disk: &D, first: u64, len: usize) -> bool
    ensures { IsTrue result → (first + len / 512 ≤ length (D.contents disk.now)) × (len % 512 ≡ 0) × (first + len / 512 < 2 ^ 64) }
{
    let blocks = disk.blocks();
    let count = (len / UNIT_LEN) as u64;
    len % UNIT_LEN == 0 && first <= blocks && count <= blocks - first
}

pub fn read<D: Disk>(disk: &mut D, first: u64, out: &mut [u8]) -> Result<(), DiskFault> {
    if !is_within(disk, first, out.len()) {
        return Err(DiskFault);
    }
    disk.read_range(first, out)
}

pub fn write<D: Disk>(disk: &mut D, first: u64, units: &[[u8; UNIT_LEN]]) -> Result<(), DiskFault> {
    let blocks = disk.blocks();
    if first > blocks || units.len() as u64 > blocks - first {
        return Err(DiskFault);
    }
    disk.write_range(first, units)
}

pub fn zero<D: Disk>(disk: &mut D, first: u64, count: u64) -> Result<(), DiskFault> {
    let blocks = disk.blocks();
    if first > blocks || count > blocks - first {
        return Err(DiskFault);
    }
    disk.zero_range(first, count)
}

/// Whether each of the four units has this byte throughout.
pub fn has<D: Disk>(disk: &mut D, values: [u8; UNITS]) -> bool {
    let mut out = [0; LEN];
    let mut wanted = [0; LEN];
    for (unit, value) in wanted.chunks_exact_mut(UNIT_LEN).zip(&values) {
        unit.fill(*value);
    }
    read(disk, 0, &mut out) == Ok(()) && out == wanted
}
