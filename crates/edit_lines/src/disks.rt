//! Disks in memory.
ghost use Rattle.std.specs.Prelude.{◌≡◌, IfOk, map};
ghost use Rattle.block_store.specs.Memory.{memory_contents};
ghost use Rattle.edit_lines.specs.Configured.{zeroed};

use block_store::MemoryDisk;
use std::alloc::{AllocError, Global};

/// A disk of zeros of each of these sizes, in units of 512 bytes.
pub(crate) fn memory_disks(alloc: Global, units: &[u64]) -> Result<Vec<MemoryDisk>, AllocError>
    ensures { IfOk result (λ disks. map memory_contents disks.items ≡ zeroed units.now) }
{
    let mut disks = Vec::new(alloc);
    for n in units {
        disks.push(MemoryDisk::new(alloc, *n)?)?;
    }
    Ok(disks)
}
