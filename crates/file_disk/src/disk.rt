//! A disk in a file.
ghost use Rattle.std.specs.Prelude.{◌≡◌, ◌≤◌, ◌^◌, ℕ, [], ◌∷◌, IfOk, IfErr};
ghost use Rattle.block_store.specs.Faults.{Counts};
ghost use Rattle.block_store.specs.Pieces.{AreUnits};
ghost use Rattle.file_disk.specs.Call.{synced, unsynced};
ghost use Rattle.file_disk.specs.Held.{units_held};
ghost use Rattle.file_disk.specs.Replay.{replay};

use crate::calls::FileCalls;
use crate::ranges::{read_units, write_units, zero_units};
use crate::replayed::ReplayedFile;
use crate::start::Start;
use block_store::{Disk, DiskFault};
use std::{io, slice};

/// A disk in an open file, from its first byte on. Where the file answers otherwise than it was
/// written, the read is a stray. Once a sync has failed, or a write within a unit, each call is a
/// fault, and none is made of the system.
#[derive(Drop)]
pub struct FileDisk<C: FileCalls, S: Start> {
    file: ReplayedFile<C, S>,
    // As many as the disk has.
    units: u64,
    // The calls that failed.
    faults: u64,
    ghost are: { AreUnits units file.contents },
    ghost size: { units ≤ 2 ^ 40 },
}

impl<C: FileCalls, S: Start> FileDisk<C, S> {
    /// The disk of so many units in this file, the one of that number. It makes last what an earlier
    /// process wrote. Where that fails it hands the file back with the error.
    pub fn new(file: C, number: u64, units: u64) -> Result<FileDisk<C, S>, (io::Error, C)>
        requires fresh { C.history file ≡ [] }
        requires size { units ≤ 2 ^ 40 }
        ensures units { IfOk result (λ disk. disk.units ≡ units) }
        ensures opened { IfOk result (λ disk. disk.file ≡ replay (units_held (S.held number) units) (synced ∷ [])) }
        ensures faults { IfOk result (λ disk. disk.faults ≡ 0) }
        ensures refused { IfErr result (λ refusal. C.history refusal.1 ≡ unsynced ∷ []) }
    {
        let mut file = file;
        match file.sync() {
            Ok(()) => Ok(FileDisk {
                file: ReplayedFile::new(file, number, units),
                units,
                faults: 0,
            }),
            Err(error) => Err((error, file)),
        }
    }

    /// The file that the disk is in.
    pub fn file(&self) -> &C
        ensures { (number : ℕ) × (units : ℕ) × (self.now.file ≡ replay (units_held (S.held number) units) (C.history result.now)) }
    {
        self.file.calls()
    }

    /// The file that the disk is in, handed back.
    pub fn into_file(self) -> C
        ensures { (number : ℕ) × (units : ℕ) × (self.file ≡ replay (units_held (S.held number) units) (C.history result)) }
    {
        self.file.into_calls()
    }

    // Counts the fault, where the answer is one.
    fn counted(&mut self, answer: Result<(), DiskFault>) -> Result<(), DiskFault>
        ensures same { result ≡ answer }
        ensures file { self.new.file ≡ self.old.file }
        ensures faults { Counts answer self.old.faults self.new.faults }
    {
        if answer.is_err() {
            self.faults = self.faults.wrapping_add(1);
        }
        answer
    }
}

// Each clause of the trait stands here again, beside what each fault comes from.
impl<C: FileCalls, S: Start> Disk for FileDisk<C, S> {
    ghost use Rattle.std.specs.Prelude.{◌≡◌, ◌⊎◌, ◌+◌, ◌%◌, ◌/◌, ◌<◌, ◌≤◌, ◌^◌, length, replicate, slice_index_or, slice_set, [], OnOk, OnErr};
    ghost use Rattle.block_store.specs.Faults.{Counts, Strays};
    ghost use Rattle.block_store.specs.Range.{bytes_of, units_at, overwritten, FrontWritten};
    ghost use Rattle.block_store.specs.Unit.{zero_unit};
    ghost use Rattle.file_disk.specs.Replay.{Told};

    ghost contents = { λ disk. disk.file.contents };

    ghost synced = { λ disk. disk.file.synced };

    ghost faults = { λ disk. disk.faults };

    ghost strays = { λ disk. disk.file.strays };

    ghost whole = { λ disk. disk.are.each };

    fn blocks(&self) -> u64 {
        self.units
    }

    fn read(&mut self, unit: u64, out: &mut [u8; 512]) -> Result<(), DiskFault>
        requires { unit < length self.old.file.contents }
        ensures found { OnOk result (Strays out.new (slice_index_or self.old.file.contents unit []) self.old.file.strays self.new.file.strays) }
        ensures rises { self.old.file.strays ≤ self.new.file.strays }
        ensures contents { self.new.file.contents ≡ self.old.file.contents }
        ensures synced { self.new.file.synced ≡ self.old.file.synced }
        ensures faults { Counts result self.old.faults self.new.faults }
        ensures told { Told result self.old.file self.new.file }
    {
        self.read_range(unit, out)
    }

    fn write(&mut self, unit: u64, bytes: &[u8; 512]) -> Result<(), DiskFault>
        requires { unit < length self.old.file.contents }
        ensures written { OnOk result (self.new.file.contents ≡ slice_set self.old.file.contents unit bytes.now) }
        ensures torn { OnErr result ((self.new.file.contents ≡ self.old.file.contents) ⊎ (self.new.file.contents ≡ slice_set self.old.file.contents unit bytes.now)) }
        ensures strays { self.new.file.strays ≡ self.old.file.strays }
        ensures faults { Counts result self.old.faults self.new.faults }
        ensures told { Told result self.old.file self.new.file }
    {
        self.write_range(unit, slice::from_ref(bytes))
    }

    fn sync(&mut self) -> Result<(), DiskFault>
        ensures synced { OnOk result (self.new.file.synced ≡ self.old.file.contents) }
        ensures contents { self.new.file.contents ≡ self.old.file.contents }
        ensures strays { self.new.file.strays ≡ self.old.file.strays }
        ensures faults { Counts result self.old.faults self.new.faults }
        ensures told { Told result self.old.file self.new.file }
    {
        if self.file.is_dead() {
            return self.counted(Err(DiskFault));
        }
        match self.file.sync() {
            Ok(()) => Ok(()),
            Err(_) => self.counted(Err(DiskFault)),
        }
    }

    fn read_range(&mut self, first: u64, out: &mut [u8]) -> Result<(), DiskFault>
        requires whole { length out.old % 512 ≡ 0 }
        requires within { first + length out.old / 512 ≤ length self.old.file.contents }
        requires fits { first + length out.old / 512 < 2 ^ 64 }
        ensures found { OnOk result (Strays out.new (bytes_of (units_at self.old.file.contents first (length out.old / 512))) self.old.file.strays self.new.file.strays) }
        ensures rises { self.old.file.strays ≤ self.new.file.strays }
        ensures contents { self.new.file.contents ≡ self.old.file.contents }
        ensures synced { self.new.file.synced ≡ self.old.file.synced }
        ensures faults { Counts result self.old.faults self.new.faults }
        ensures told { Told result self.old.file self.new.file }
    {
        if self.file.is_dead() {
            return self.counted(Err(DiskFault));
        }
        let answer = read_units(&mut self.file, first, out);
        self.counted(answer)
    }

    fn write_range(&mut self, first: u64, units: &[[u8; 512]]) -> Result<(), DiskFault>
        requires within { first + length units.now ≤ length self.old.file.contents }
        requires fits { first + length units.now < 2 ^ 64 }
        ensures written { OnOk result (self.new.file.contents ≡ overwritten self.old.file.contents first units.now) }
        ensures torn { OnErr result (FrontWritten self.old.file.contents first units.now self.new.file.contents) }
        ensures strays { self.new.file.strays ≡ self.old.file.strays }
        ensures faults { Counts result self.old.faults self.new.faults }
        ensures told { Told result self.old.file self.new.file }
    {
        if self.file.is_dead() {
            return self.counted(Err(DiskFault));
        }
        let answer = write_units(&mut self.file, first, units);
        self.counted(answer)
    }

    fn zero_range(&mut self, first: u64, count: u64) -> Result<(), DiskFault>
        requires within { first + count ≤ length self.old.file.contents }
        requires fits { first + count < 2 ^ 64 }
        ensures written { OnOk result (self.new.file.contents ≡ overwritten self.old.file.contents first (replicate count zero_unit)) }
        ensures torn { OnErr result (FrontWritten self.old.file.contents first (replicate count zero_unit) self.new.file.contents) }
        ensures strays { self.new.file.strays ≡ self.old.file.strays }
        ensures faults { Counts result self.old.faults self.new.faults }
        ensures told { Told result self.old.file self.new.file }
    {
        if self.file.is_dead() {
            return self.counted(Err(DiskFault));
        }
        let answer = zero_units(&mut self.file, first, count);
        self.counted(answer)
    }
}
