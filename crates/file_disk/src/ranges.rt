//! Ranges of units of a file, read and written by as few calls as the system takes.
ghost use Rattle.std.specs.Prelude.{◌≡◌, ◌+◌, ◌%◌, ◌/◌, ◌≤◌, ◌^◌, false, length, replicate, OnOk, OnErr};
ghost use Rattle.std.specs.List.{All};
ghost use Rattle.block_store.specs.Faults.{Strays};
ghost use Rattle.block_store.specs.Range.{bytes_of, units_at, overwritten, FrontWritten};
ghost use Rattle.block_store.specs.Unit.{IsUnit, zero_unit};
ghost use Rattle.file_disk.specs.Replay.{Told};

use crate::calls::FileCalls;
use crate::replayed::ReplayedFile;
use crate::start::Start;
use block_store::{DiskFault, UNIT_LEN};

/// The units of zeros that one call writes: 64 KiB.
const ZERO_UNITS: usize = 128;

/// Reads the units from `first` on into `out`, a whole number of units. A short answer goes on at the
/// next byte.
pub(crate) fn read_units<C: FileCalls, S: Start>(
    file: &mut ReplayedFile<C, S>,
    first: u64,
    out: &mut [u8],
) -> Result<(), DiskFault>
    requires alive { file.old.is_dead ≡ false }
    requires units { All IsUnit file.old.contents }
    requires size { length file.old.contents ≤ 2 ^ 40 }
    requires whole { length out.old % 512 ≡ 0 }
    requires within { first + length out.old / 512 ≤ length file.old.contents }
    ensures found { OnOk result (Strays out.new (bytes_of (units_at file.old.contents first (length out.old / 512))) file.old.strays file.new.strays) }
    ensures rises { file.old.strays ≤ file.new.strays }
    ensures contents { file.new.contents ≡ file.old.contents }
    ensures synced { file.new.synced ≡ file.old.synced }
    ensures alive { file.new.is_dead ≡ false }
    ensures told { Told result file.old file.new }
{
    let start = first * UNIT_LEN as u64;
    let mut done = 0;
    while done < out.len() {
        match file.read_some(start + done as u64, &mut out[done..]) {
            Ok(count) => done += count,
            Err(_) => return Err(DiskFault),
        }
    }
    Ok(())
}

/// Writes these units from `first` on. A short answer goes on at the next byte. After a fault a front
/// of the units is written.
pub(crate) fn write_units<C: FileCalls, S: Start>(
    file: &mut ReplayedFile<C, S>,
    first: u64,
    units: &[[u8; UNIT_LEN]],
) -> Result<(), DiskFault>
    requires alive { file.old.is_dead ≡ false }
    requires size { length file.old.contents ≤ 2 ^ 40 }
    requires within { first + length units.now ≤ length file.old.contents }
    ensures written { OnOk result (file.new.contents ≡ overwritten file.old.contents first units.now) }
    ensures torn { OnErr result (FrontWritten file.old.contents first units.now file.new.contents) }
    ensures alive { OnOk result (file.new.is_dead ≡ false) }
    ensures told { Told result file.old file.new }
    ensures strays { file.new.strays ≡ file.old.strays }
{
    let bytes = units.as_flattened();
    let start = first * UNIT_LEN as u64;
    let mut done = 0;
    while done < bytes.len() {
        match file.write_some(start + done as u64, &bytes[done..]) {
            Ok(count) => done += count,
            Err(_) => return Err(DiskFault),
        }
    }
    Ok(())
}

/// Writes zeros to `count` units from `first` on, a part after another. After a fault a front of the
/// units has zeros.
pub(crate) fn zero_units<C: FileCalls, S: Start>(
    file: &mut ReplayedFile<C, S>,
    first: u64,
    count: u64,
) -> Result<(), DiskFault>
    requires alive { file.old.is_dead ≡ false }
    requires size { length file.old.contents ≤ 2 ^ 40 }
    requires within { first + count ≤ length file.old.contents }
    ensures written { OnOk result (file.new.contents ≡ overwritten file.old.contents first (replicate count zero_unit)) }
    ensures torn { OnErr result (FrontWritten file.old.contents first (replicate count zero_unit) file.new.contents) }
    ensures alive { OnOk result (file.new.is_dead ≡ false) }
    ensures told { Told result file.old file.new }
    ensures strays { file.new.strays ≡ file.old.strays }
{
    let zeros = [[0; UNIT_LEN]; ZERO_UNITS];
    let mut done = 0;
    while done < count {
        let part = (count - done).min(ZERO_UNITS as u64);
        write_units(file, first + done, &zeros[..part as usize])?;
        done += part;
    }
    Ok(())
}
