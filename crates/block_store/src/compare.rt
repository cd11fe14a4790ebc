//! Bytes beside those that a disk's units are found to have.
ghost use Rattle.std.specs.Prelude.{◌≡◌, ◌+◌, ◌%◌, ◌/◌, ◌<◌, ◌≤◌, ◌^◌, length, IfOk};
ghost use Rattle.block_store.specs.Faults.{Counts};
ghost use Rattle.block_store.specs.Compare.{Compared};
ghost use Rattle.block_store.specs.Range.{bytes_of, units_at};

use crate::disk::{Disk, DiskFault, UNIT_LEN};

/// Whether the units from `first` on are found to have these bytes. All of them are read.
pub(crate) fn compare_units<D: Disk>(
    disk: &mut D,
    first: u64,
    bytes: &[u8],
) -> Result<bool, DiskFault>
    requires whole { length bytes.now % 512 ≡ 0 }
    requires within { first + length bytes.now / 512 ≤ length (D.contents disk.old) }
    requires fits { first + length bytes.now / 512 < 2 ^ 64 }
    ensures compared { IfOk result (λ same. Compared bytes.now (bytes_of (units_at (D.contents disk.old) first (length bytes.now / 512))) same (D.strays disk.old) (D.strays disk.new)) }
    ensures rises { D.strays disk.old ≤ D.strays disk.new }
    ensures contents { D.contents disk.new ≡ D.contents disk.old }
    ensures synced { D.synced disk.new ≡ D.synced disk.old }
    ensures faults { Counts result (D.faults disk.old) (D.faults disk.new) }
{
    let mut held = [0; UNIT_LEN];
    let mut same = true;
    for i in 0..bytes.len() / UNIT_LEN {
        let at = i * UNIT_LEN;
        disk.read(first + i as u64, &mut held)?;
        same &= held[..] == bytes[at..at + UNIT_LEN];
    }
    Ok(same)
}
