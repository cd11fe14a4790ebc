//! A disk of a target that is served: in memory, or in a file.

use block_store::{Disk, DiskFault};
use std::alloc::AllocError;

/// A disk of one of two kinds: in memory, or in a file or block device. Each call is one of the disk that it is.
#[derive(Drop)]
pub enum ServedDisk<M: Disk, F: Disk> {
    Memory(M),
    File(F),
}

impl<M: Disk, F: Disk> Disk for ServedDisk<M, F> {
    ghost use Rattle.target_programs.specs.ServedDisk.{by_kind, whole_by_kind};

    ghost contents = { by_kind M.contents F.contents };

    ghost synced = { by_kind M.synced F.synced };

    ghost faults = { by_kind M.faults F.faults };

    ghost strays = { by_kind M.strays F.strays };

    ghost whole = { whole_by_kind M.contents F.contents M.whole F.whole };

    fn blocks(&self) -> u64 {
        match self {
            ServedDisk::Memory(disk) => disk.blocks(),
            ServedDisk::File(disk) => disk.blocks(),
        }
    }

    fn read(&mut self, unit: u64, out: &mut [u8; 512]) -> Result<(), DiskFault> {
        match self {
            ServedDisk::Memory(disk) => disk.read(unit, out),
            ServedDisk::File(disk) => disk.read(unit, out),
        }
    }

    fn write(&mut self, unit: u64, bytes: &[u8; 512]) -> Result<(), DiskFault> {
        match self {
            ServedDisk::Memory(disk) => disk.write(unit, bytes),
            ServedDisk::File(disk) => disk.write(unit, bytes),
        }
    }

    fn sync(&mut self) -> Result<(), DiskFault> {
        match self {
            ServedDisk::Memory(disk) => disk.sync(),
            ServedDisk::File(disk) => disk.sync(),
        }
    }

    fn make_room(&mut self, first: u64, count: u64) -> Result<(), AllocError> {
        match self {
            ServedDisk::Memory(disk) => disk.make_room(first, count),
            ServedDisk::File(disk) => disk.make_room(first, count),
        }
    }

    fn read_range(&mut self, first: u64, out: &mut [u8]) -> Result<(), DiskFault> {
        match self {
            ServedDisk::Memory(disk) => disk.read_range(first, out),
            ServedDisk::File(disk) => disk.read_range(first, out),
        }
    }

    fn write_range(&mut self, first: u64, units: &[[u8; 512]]) -> Result<(), DiskFault> {
        match self {
            ServedDisk::Memory(disk) => disk.write_range(first, units),
            ServedDisk::File(disk) => disk.write_range(first, units),
        }
    }

    fn zero_range(&mut self, first: u64, count: u64) -> Result<(), DiskFault> {
        match self {
            ServedDisk::Memory(disk) => disk.zero_range(first, count),
            ServedDisk::File(disk) => disk.zero_range(first, count),
        }
    }
}
