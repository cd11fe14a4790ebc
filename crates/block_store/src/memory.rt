//! A disk in memory.
ghost use Rattle.std.specs.Prelude.{◌≡◌, ◌+◌, ◌*◌, ◌%◌, ◌<◌, ◌≤◌, length, replicate, IfOk};
ghost use Rattle.block_store.specs.Pieces.{AreParts};
ghost use Rattle.block_store.specs.Unit.{zero_unit};

use crate::disk::{Disk, DiskFault, Faithful, UNIT_LEN};
use crate::pieces::{PIECE_UNITS, TABLE_UNITS, Table};
use std::alloc::{AllocError, Global};

/// A disk in memory. It takes its memory in pieces, as they are first written, and fails only where
/// there is none for a write that `make_room` was not asked for. Its reads find what was written.
#[derive(Drop)]
pub struct MemoryDisk {
    tables: Vec<Table>,
    // As many as the disk has; its tables have room for them and more.
    units: u64,
    // The writes that found no memory.
    faults: u64,
    ghost whole: { AreParts (length tables.items) 131072 tables.items },
    ghost room: { units ≤ length tables.items * 131072 },
}

impl MemoryDisk {
    ghost use Rattle.std.specs.Prelude.{◌≡◌, ◌+◌, ◌%◌, ◌/◌, ◌<◌, ◌≤◌, OnOk, OnErr};
    ghost use Rattle.block_store.specs.Faults.{Counts};
    ghost use Rattle.block_store.specs.Memory.{memory_contents};
    ghost use Rattle.block_store.specs.Range.{bytes_of, units_at, overwritten};

    /// A disk of so many units of zeros.
    pub fn new(alloc: Global, units: u64) -> Result<MemoryDisk, AllocError>
        ensures { IfOk result (λ disk. memory_contents disk ≡ replicate units zero_unit) }
    {
        // The last table may have no unit of the disk.
        let count = units as usize / TABLE_UNITS + 1;
        let mut tables = Vec::with_capacity(alloc, count)?;
        for _ in 0..count {
            tables.push(Table::new(alloc))?;
        }
        Ok(MemoryDisk {
            tables,
            units,
            faults: 0,
        })
    }

    // Reads the units from `first` on, all of one piece, into `out`.
    fn read_part(&self, first: u64, out: &mut [u8])
        requires whole { length out.old % 512 ≡ 0 }
        requires place { first < self.now.units }
        requires part { first % 128 + length out.old / 512 ≤ 128 }
        requires within { first + length out.old / 512 ≤ self.now.units }
        ensures { out.new ≡ bytes_of (units_at (memory_contents self.now) first (length out.old / 512)) }
    {
        let at = first as usize;
        self.tables[at / TABLE_UNITS].read(at % TABLE_UNITS, out);
    }

    // Writes these units, all of one piece, from `first` on.
    fn write_part(&mut self, first: u64, units: &[[u8; UNIT_LEN]]) -> Result<(), DiskFault>
        requires place { first < self.old.units }
        requires part { first % 128 + length units.now ≤ 128 }
        requires within { first + length units.now ≤ self.old.units }
        ensures written { OnOk result (memory_contents self.new ≡ overwritten (memory_contents self.old) first units.now) }
        ensures refused { OnErr result (memory_contents self.new ≡ memory_contents self.old) }
        ensures units { self.new.units ≡ self.old.units }
        ensures faults { Counts result self.old.faults self.new.faults }
    {
        let at = first as usize;
        match self.tables[at / TABLE_UNITS].write(at % TABLE_UNITS, units) {
            Ok(()) => Ok(()),
            Err(AllocError) => {
                self.faults = self.faults.wrapping_add(1);
                Err(DiskFault)
            }
        }
    }

    // Writes zeros to `count` units, all of one piece, from `first` on.
    fn zero_part(&mut self, first: u64, count: usize)
        requires place { first < self.old.units }
        requires part { first % 128 + count ≤ 128 }
        requires within { first + count ≤ self.old.units }
        ensures zeroed { memory_contents self.new ≡ overwritten (memory_contents self.old) first (replicate count zero_unit) }
        ensures units { self.new.units ≡ self.old.units }
        ensures faults { self.new.faults ≡ self.old.faults }
    {
        let at = first as usize;
        self.tables[at / TABLE_UNITS].zero(at % TABLE_UNITS, count);
    }

    // Takes the memory of the piece of this unit.
    fn room_part(&mut self, unit: u64) -> Result<(), AllocError>
        requires { unit < self.old.units }
        ensures contents { memory_contents self.new ≡ memory_contents self.old }
        ensures units { self.new.units ≡ self.old.units }
        ensures faults { self.new.faults ≡ self.old.faults }
    {
        let at = unit as usize;
        self.tables[at / TABLE_UNITS].make_room(at % TABLE_UNITS)
    }
}

// How many of the `left` units from `at` on are of its piece.
fn part_of(at: u64, left: u64) -> usize
    ensures part { at % 128 + result ≤ 128 }
    ensures most { result ≤ left }
    ensures some { 0 < left → 0 < result }
{
    let place = at as usize % PIECE_UNITS;
    (PIECE_UNITS - place).min(left as usize)
}

impl Disk for MemoryDisk {
    ghost use Rattle.std.specs.Prelude.{◌≡◌, ◌+◌, ◌%◌, ◌/◌, ◌<◌, ◌≤◌, ◌^◌, length, replicate, slice_index_or, []};
    ghost use Rattle.std.specs.Result.{IsOk};
    ghost use Rattle.block_store.specs.Memory.{memory_contents, memory_whole};
    ghost use Rattle.block_store.specs.Range.{bytes_of, units_at, overwritten};
    ghost use Rattle.block_store.specs.Unit.{zero_unit};

    ghost contents = { memory_contents };

    ghost synced = { memory_contents };

    ghost faults = { λ disk. disk.faults };

    ghost strays = { λ disk. 0 };

    ghost whole = { memory_whole };

    fn blocks(&self) -> u64 {
        self.units
    }

    fn read(&mut self, unit: u64, out: &mut [u8; 512]) -> Result<(), DiskFault>
        requires { unit < length (memory_contents self.old) }
        ensures works { IsOk result }
        ensures bytes { out.new ≡ slice_index_or (memory_contents self.old) unit [] }
        ensures disk { self.new ≡ self.old }
    {
        self.read_part(unit, out);
        Ok(())
    }

    fn write(&mut self, unit: u64, bytes: &[u8; 512]) -> Result<(), DiskFault> {
        // Zeros take no memory, also where a disk over this one writes them unit by unit.
        if *bytes == [0; UNIT_LEN] {
            self.zero_part(unit, 1);
            return Ok(());
        }
        self.write_part(unit, std::slice::from_ref(bytes))
    }

    fn sync(&mut self) -> Result<(), DiskFault>
        ensures works { IsOk result }
        ensures disk { self.new ≡ self.old }
    {
        Ok(())
    }

    fn make_room(&mut self, first: u64, count: u64) -> Result<(), AllocError> {
        let mut done = 0;
        while done < count {
            self.room_part(first + done)?;
            done += part_of(first + done, count - done) as u64;
        }
        Ok(())
    }

    fn read_range(&mut self, first: u64, out: &mut [u8]) -> Result<(), DiskFault>
        requires whole { length out.old % 512 ≡ 0 }
        requires within { first + length out.old / 512 ≤ length (memory_contents self.old) }
        requires fits { first + length out.old / 512 < 2 ^ 64 }
        ensures works { IsOk result }
        ensures bytes { out.new ≡ bytes_of (units_at (memory_contents self.old) first (length out.old / 512)) }
        ensures disk { self.new ≡ self.old }
    {
        let count = out.len() / UNIT_LEN;
        let mut done = 0;
        while done < count {
            let at = first + done as u64;
            let part = part_of(at, (count - done) as u64);
            self.read_part(at, &mut out[done * UNIT_LEN..(done + part) * UNIT_LEN]);
            done += part;
        }
        Ok(())
    }

    fn write_range(&mut self, first: u64, units: &[[u8; 512]]) -> Result<(), DiskFault> {
        let mut done = 0;
        while done < units.len() {
            let at = first + done as u64;
            let part = part_of(at, (units.len() - done) as u64);
            self.write_part(at, &units[done..done + part])?;
            done += part;
        }
        Ok(())
    }

    fn zero_range(&mut self, first: u64, count: u64) -> Result<(), DiskFault>
        requires within { first + count ≤ length (memory_contents self.old) }
        requires fits { first + count < 2 ^ 64 }
        ensures works { IsOk result }
        ensures zeroed { memory_contents self.new ≡ overwritten (memory_contents self.old) first (replicate count zero_unit) }
        ensures faults { self.new.faults ≡ self.old.faults }
    {
        let mut done = 0;
        while done < count {
            let part = part_of(first + done, count - done);
            self.zero_part(first + done, part);
            done += part as u64;
        }
        Ok(())
    }
}

impl Faithful for MemoryDisk {
    ghost use Rattle.std.specs.Prelude.{refl};

    ghost faithful = { λ disk. refl };
}
