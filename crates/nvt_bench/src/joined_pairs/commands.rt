//! The commands of the host.
use host_driver::HostCommand;
use std::alloc::{AllocError, Global};

const FABRICS: u8 = 0x7F;

const PROPERTY_SET: u32 = 0x00;

/// The offset of the property CC, and its value that enables a controller (Base 2.0, section 3.1.3.5).
const CONTROLLER_CONFIGURATION: u32 = 0x14;

const ENABLED: u32 = 0x0046_0001;

const WRITE: u8 = 0x01;

const READ: u8 = 0x02;

// The first block of all that is read or written, and the namespace.
const FIRST: u32 = 4;

pub(crate) const NSID: u32 = 2;

pub(crate) const BLOCK_LEN: u32 = 4096;

/// Property Set, which makes a controller ready.
pub(crate) fn enable(alloc: Global) -> HostCommand {
    HostCommand {
        opcode: FABRICS,
        nsid: PROPERTY_SET,
        cdw: [0, CONTROLLER_CONFIGURATION, ENABLED, 0, 0, 0],
        out: Vec::new(alloc),
        into: 0,
    }
}

/// Read, of so many blocks.
pub(crate) fn read(alloc: Global, blocks: u8) -> HostCommand {
    HostCommand {
        opcode: READ,
        nsid: NSID,
        cdw: dwords_of(blocks),
        out: Vec::new(alloc),
        into: u32::from(blocks) * BLOCK_LEN,
    }
}

/// Write, of so many blocks.
pub(crate) fn write(alloc: Global, blocks: u8) -> Result<HostCommand, AllocError> {
    Ok(HostCommand {
        opcode: WRITE,
        nsid: NSID,
        cdw: dwords_of(blocks),
        out: vec![in alloc; 0x5A; usize::from(blocks) * BLOCK_LEN as usize]?,
        into: 0,
    })
}

// The first block, and how many there are, 0's based.
fn dwords_of(blocks: u8) -> [u32; 6] {
    [FIRST, 0, u32::from(blocks.saturating_sub(1)), 0, 0, 0]
}
