//! A disk as ranges of units.
ghost use Rattle.std.specs.Prelude.{◌≡◌, ◌+◌, ◌%◌, ◌/◌, ◌≤◌, length, replicate, IfOk, OnOk, OnErr};
ghost use Rattle.std.specs.List.{All};
ghost use Rattle.block_store.specs.Compare.{Compared};
ghost use Rattle.block_store.specs.Faults.{Counts, Strays};
ghost use Rattle.block_store.specs.Range.{bytes_of, units_of, units_at, overwritten, FrontWritten};
ghost use Rattle.block_store.specs.Unit.{IsUnit, zero_unit};

use crate::compare::compare_units;
use crate::disk::{Disk, DiskFault, Faithful, UNIT_LEN};
use std::alloc::AllocError;
use std::marker::Model;

/// A disk, whose units are read, written, zeroed and compared in ranges: the first unit, and as many
/// as the bytes make or as are counted. A call acts on the units in their order and stops at the
/// first fault. A read may find other bytes than were written: it is told by the count of strays.
#[derive(Drop)]
pub struct Store<D: Disk> {
    disk: D,
    // Asked once, since a disk always answers the same.
    blocks: u64,
}

impl<D: Disk> Model for Store<D> {
    ghost use Rattle.std.specs.Prelude.{◌≡◌, length};
    ghost use Rattle.block_store.specs.Stored.{Stored};

    ghost Value = { Stored };

    ghost view = { λ store. record { contents = D.contents store.disk; synced = D.synced store.disk; faults = D.faults store.disk; strays = D.strays store.disk } };

    ghost invariant = { λ store. store.blocks ≡ length (D.contents store.disk) };
}

impl<D: Disk> Store<D> {
    /// The ranges of this disk.
    pub fn new(disk: D) -> Store<D>
        ensures { result ≡ record { contents = D.contents disk; synced = D.synced disk; faults = D.faults disk; strays = D.strays disk } }
    {
        let blocks = disk.blocks();
        Store { disk, blocks }
    }

    /// The number of units, each of 512 bytes.
    pub fn blocks(&self) -> u64
        ensures units { All IsUnit self.now.contents }
        ensures blocks { result ≡ length self.now.contents }
    {
        self.blocks
    }

    /// The disk.
    pub fn disk(&self) -> &D
        ensures contents { D.contents result.now ≡ self.now.contents }
        ensures synced { D.synced result.now ≡ self.now.synced }
        ensures faults { D.faults result.now ≡ self.now.faults }
        ensures strays { D.strays result.now ≡ self.now.strays }
    {
        &self.disk
    }

    /// Reads the units from `first` on into `out`, a whole number of units. After a fault `out` may
    /// have any bytes.
    pub fn read(&mut self, first: u64, out: &mut [u8]) -> Result<(), DiskFault>
        requires whole { length out.old % 512 ≡ 0 }
        requires within { first + length out.old / 512 ≤ length self.old.contents }
        ensures found { OnOk result (Strays out.new (bytes_of (units_at self.old.contents first (length out.old / 512))) self.old.strays self.new.strays) }
        ensures rises { self.old.strays ≤ self.new.strays }
        ensures faithful { ((disk : D) → D.strays disk ≡ 0) → self.new.strays ≡ self.old.strays }
        ensures contents { self.new.contents ≡ self.old.contents }
        ensures synced { self.new.synced ≡ self.old.synced }
        ensures faults { Counts result self.old.faults self.new.faults }
    {
        self.disk.read_range(first, out)
    }

    /// Writes the bytes, a whole number of units, to the units from `first` on. After a fault a
    /// front of them is written, and all else is as before.
    pub fn write(&mut self, first: u64, bytes: &[u8]) -> Result<(), DiskFault>
        requires whole { length bytes.now % 512 ≡ 0 }
        requires within { first + length bytes.now / 512 ≤ length self.old.contents }
        ensures written { OnOk result (self.new.contents ≡ overwritten self.old.contents first (units_of bytes.now)) }
        ensures torn { OnErr result (FrontWritten self.old.contents first (units_of bytes.now) self.new.contents) }
        ensures blocks { length self.new.contents ≡ length self.old.contents }
        ensures strays { self.new.strays ≡ self.old.strays }
        ensures faults { Counts result self.old.faults self.new.faults }
    {
        let (units, _) = bytes.as_chunks::<UNIT_LEN>();
        self.disk.write_range(first, units)
    }

    /// Writes zeros to `count` units from `first` on. After a fault a front of them is zeroed, and
    /// all else is as before.
    pub fn zero(&mut self, first: u64, count: u64) -> Result<(), DiskFault>
        requires within { first + count ≤ length self.old.contents }
        ensures written { OnOk result (self.new.contents ≡ overwritten self.old.contents first (replicate count zero_unit)) }
        ensures torn { OnErr result (FrontWritten self.old.contents first (replicate count zero_unit) self.new.contents) }
        ensures blocks { length self.new.contents ≡ length self.old.contents }
        ensures strays { self.new.strays ≡ self.old.strays }
        ensures faults { Counts result self.old.faults self.new.faults }
    {
        self.disk.zero_range(first, count)
    }

    /// Whether the units from `first` on are found to have these bytes, a whole number of units. All of
    /// them are read, so a fault of the last one is answered where the first one differs.
    pub fn compare(&mut self, first: u64, bytes: &[u8]) -> Result<bool, DiskFault>
        requires whole { length bytes.now % 512 ≡ 0 }
        requires within { first + length bytes.now / 512 ≤ length self.old.contents }
        ensures compared { IfOk result (λ same. Compared bytes.now (bytes_of (units_at self.old.contents first (length bytes.now / 512))) same self.old.strays self.new.strays) }
        ensures rises { self.old.strays ≤ self.new.strays }
        ensures faithful { ((disk : D) → D.strays disk ≡ 0) → self.new.strays ≡ self.old.strays }
        ensures contents { self.new.contents ≡ self.old.contents }
        ensures synced { self.new.synced ≡ self.old.synced }
        ensures faults { Counts result self.old.faults self.new.faults }
    {
        compare_units(&mut self.disk, first, bytes)
    }

    /// Makes what was written last.
    pub fn sync(&mut self) -> Result<(), DiskFault>
        ensures contents { self.new.contents ≡ self.old.contents }
        ensures synced { OnOk result (self.new.synced ≡ self.new.contents) }
        ensures strays { self.new.strays ≡ self.old.strays }
        ensures faults { Counts result self.old.faults self.new.faults }
    {
        self.disk.sync()
    }

    /// Makes room for a write of `count` units from `first` on, where the disk takes memory as it is
    /// written. A write that it was made for does not fail for want of memory.
    pub fn make_room(&mut self, first: u64, count: u64) -> Result<(), AllocError>
        requires { first + count ≤ length self.old.contents }
        ensures { self.new ≡ self.old }
    {
        self.disk.make_room(first, count)
    }
}

impl<D: Faithful> Store<D> {
    /// What such a disk promises: no read of it found other bytes than were written. It does nothing: its contract is for
    /// who calls it.
    pub fn promise(&self)
        ensures { self.now.strays ≡ 0 }
    {
        let _ = &self.disk;
    }
}
