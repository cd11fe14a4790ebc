use block_store::MemoryDisk;
use std::alloc::{AllocError, Global};

/// Disks in memory of so many units of zeros each.
pub fn memory_disks(alloc: Global, units: &[u64]) -> Result<Vec<MemoryDisk>, AllocError> {
    let mut disks = Vec::new(alloc);
    for count in units {
        disks.push(MemoryDisk::new(alloc, *count)?)?;
    }
    Ok(disks)
}
