//! A disk: units of 512 bytes, read and written one at a time or in ranges.
use std::alloc::AllocError;
use thiserror::Error;

/// The length of a unit in bytes.
pub const UNIT_LEN: usize = 512;

/// A call of a disk failed.
#[derive(Clone, Copy, Debug, PartialEq, Eq, Error)]
#[error("disk fault")]
pub struct DiskFault;

/// Units of 512 bytes, numbered from 0. The calls for ranges read and write a unit at a time, for a disk
/// that has no better way.
pub trait Disk {
    ghost use Rattle.std.specs.Prelude.{◌≡◌, ◌+◌, ◌%◌, ◌/◌, ◌<◌, ◌≤◌, ◌^◌, ◌⊎◌, ℕ, List, length, replicate, slice_index_or, slice_set, [], OnOk, OnErr};
    ghost use Rattle.std.specs.List.{All};
    ghost use Rattle.block_store.specs.Unit.{IsUnit, zero_unit};
    ghost use Rattle.block_store.specs.Faults.{Counts, Strays};
    ghost use Rattle.block_store.specs.Range.{bytes_of, units_at, overwritten, FrontWritten};

    /// The bytes of each unit as they were written, in the order of their numbers.
    ghost contents: { Self → List (List ℕ) };

    /// The bytes of each unit that the latest `sync` found, as far as no write came after it.
    ghost synced: { Self → List (List ℕ) };

    /// A count of the calls that failed: each of them changes it, and no other call does.
    ghost faults: { Self → ℕ };

    /// A count of the reads that found other bytes than were written: each of them raises it. A read
    /// that failed may raise it too, and no other call changes it.
    ghost strays: { Self → ℕ };

    /// The number of units: always the same.
    fn blocks(&self) -> u64
        ensures { result ≡ length (contents self.now) };

    /// Reads the unit into `out`. What it finds there may be other bytes than were written, as a
    /// file may have been changed by others; it counts as a stray then. After a fault `out` may have
    /// any bytes.
    fn read(&mut self, unit: u64, out: &mut [u8; 512]) -> Result<(), DiskFault>
        requires { unit < length (contents self.old) }
        ensures found { OnOk result (Strays out.new (slice_index_or (contents self.old) unit []) (strays self.old) (strays self.new)) }
        ensures rises { strays self.old ≤ strays self.new }
        ensures contents { contents self.new ≡ contents self.old }
        ensures synced { synced self.new ≡ synced self.old }
        ensures faults { Counts result (faults self.old) (faults self.new) };

    /// Gives the unit these bytes. After a fault it has them or its old ones. What is synced then
    /// is not said until the next `sync`.
    fn write(&mut self, unit: u64, bytes: &[u8; 512]) -> Result<(), DiskFault>
        requires { unit < length (contents self.old) }
        ensures written { OnOk result (contents self.new ≡ slice_set (contents self.old) unit bytes.now) }
        ensures torn { OnErr result ((contents self.new ≡ contents self.old) ⊎ (contents self.new ≡ slice_set (contents self.old) unit bytes.now)) }
        ensures strays { strays self.new ≡ strays self.old }
        ensures faults { Counts result (faults self.old) (faults self.new) };

    /// Makes what was written last.
    fn sync(&mut self) -> Result<(), DiskFault>
        ensures synced { OnOk result (synced self.new ≡ contents self.old) }
        ensures contents { contents self.new ≡ contents self.old }
        ensures strays { strays self.new ≡ strays self.old }
        ensures faults { Counts result (faults self.old) (faults self.new) };

    /// Makes room for a write of `count` units from `first` on, where the disk takes memory as it is
    /// written. Whoever writes calls it before, where all other room is made: a write that finds no
    /// room may fail. What the disk has stays, whatever is answered.
    fn make_room(&mut self, first: u64, count: u64) -> Result<(), AllocError>
        requires { first + count ≤ length (contents self.old) }
        ensures contents { contents self.new ≡ contents self.old }
        ensures synced { synced self.new ≡ synced self.old }
        ensures strays { strays self.new ≡ strays self.old }
        ensures faults { faults self.new ≡ faults self.old }
    {
        Ok(())
    }

    /// Reads the units from `first` on into `out`, a whole number of units, in their order and up to
    /// the first fault. After a fault `out` may have any bytes.
    fn read_range(&mut self, first: u64, out: &mut [u8]) -> Result<(), DiskFault>
        requires whole { length out.old % 512 ≡ 0 }
        requires within { first + length out.old / 512 ≤ length (contents self.old) }
        requires fits { first + length out.old / 512 < 2 ^ 64 }
        ensures found { OnOk result (Strays out.new (bytes_of (units_at (contents self.old) first (length out.old / 512))) (strays self.old) (strays self.new)) }
        ensures rises { strays self.old ≤ strays self.new }
        ensures contents { contents self.new ≡ contents self.old }
        ensures synced { synced self.new ≡ synced self.old }
        ensures faults { Counts result (faults self.old) (faults self.new) }
    {
        let mut found = [0; UNIT_LEN];
        for i in 0..out.len() / UNIT_LEN {
            let at = i * UNIT_LEN;
            self.read(first + i as u64, &mut found)?;
            out[at..at + UNIT_LEN].copy_from_slice(&found);
        }
        Ok(())
    }

    /// Writes these units from `first` on, in their order and up to the first fault. After it a front
    /// of them is written, and all else is as before.
    fn write_range(&mut self, first: u64, units: &[[u8; 512]]) -> Result<(), DiskFault>
        requires within { first + length units.now ≤ length (contents self.old) }
        requires fits { first + length units.now < 2 ^ 64 }
        ensures written { OnOk result (contents self.new ≡ overwritten (contents self.old) first units.now) }
        ensures torn { OnErr result (FrontWritten (contents self.old) first units.now (contents self.new)) }
        ensures strays { strays self.new ≡ strays self.old }
        ensures faults { Counts result (faults self.old) (faults self.new) }
    {
        let mut unit = first;
        for bytes in units {
            self.write(unit, bytes)?;
            unit += 1;
        }
        Ok(())
    }

    /// Writes zeros to `count` units from `first` on, in their order and up to the first fault. After
    /// it a front of them is zeroed, and all else is as before.
    fn zero_range(&mut self, first: u64, count: u64) -> Result<(), DiskFault>
        requires within { first + count ≤ length (contents self.old) }
        requires fits { first + count < 2 ^ 64 }
        ensures written { OnOk result (contents self.new ≡ overwritten (contents self.old) first (replicate count zero_unit)) }
        ensures torn { OnErr result (FrontWritten (contents self.old) first (replicate count zero_unit) (contents self.new)) }
        ensures strays { strays self.new ≡ strays self.old }
        ensures faults { Counts result (faults self.old) (faults self.new) }
    {
        let zeros = [0; UNIT_LEN];
        for unit in first..first + count {
            self.write(unit, &zeros)?;
        }
        Ok(())
    }

    /// Each unit has 512 bytes.
    ghost whole: { (disk : Self) → All IsUnit (contents disk) };
}

/// A disk whose reads find what was written.
pub trait Faithful: Disk {
    ghost use Rattle.std.specs.Prelude.{◌≡◌};

    /// No stray is ever counted.
    ghost faithful: { (disk : Self) → Self.strays disk ≡ 0 };
}
