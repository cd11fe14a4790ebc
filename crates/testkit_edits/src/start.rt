//! A configuration with nothing but disks, and the namespaces that tests add to it.
use crate::line::Blocks;
use nvt_config::{Config, NewFault};
use std::alloc::{AllocError, Global};

/// A configuration with disks of so many units of 512 bytes, and with nothing else.
pub fn config_over(alloc: Global, units: &[u64]) -> Result<Config, AllocError> {
    match Config::new(alloc, units) {
        Ok(config) => Ok(config),
        Err(NewFault::Disks | NewFault::Memory) => Err(AllocError),
    }
}

/// A namespace of one block on a disk, with a UUID of its own.
pub fn on_disk(nsid: u64, disk: u8, group: u64) -> Blocks {
    Blocks {
        nsid,
        disk: u64::from(disk),
        blocks: 1,
        block_size: 512,
        uuid: disk.saturating_add(1),
        group,
    }
}

/// Each byte of the UUID of a namespace of this identifier: of the first, the second or the third.
pub fn uuid_byte(nsid: usize) -> u8 {
    match nsid {
        1 => 0x11,
        2 => 0x22,
        _ => 0x33,
    }
}
