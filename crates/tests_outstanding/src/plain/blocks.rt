//! The rules of I/O commands (NVM Command Set 1.0, section 3), and disks as one plain list of bytes.
use crate::plain::bytes::{pad, part};
use crate::plain::changes::{Layout, Namespace, UNITS};
use crate::plain::pdus::{
    COMPARE, Command, FLUSH, IN_CAPSULE, READ, TRANSPORT, WRITE, WRITE_ZEROES,
};
use nvt_config::AnaState;
use std::alloc::AllocError;

/// Status words.
pub const SUCCESS: u16 = 0;

pub const INVALID_OPCODE: u16 = 0x8002;

pub const INVALID_FIELD: u16 = 0x8004;

pub const CID_CONFLICT: u16 = 0x8006;

pub const INVALID_NAMESPACE: u16 = 0x8016;

pub const SEQUENCE_ERROR: u16 = 0x8018;

pub const SGL_LENGTH_INVALID: u16 = 0x801E;

pub const SGL_TYPE_INVALID: u16 = 0x8022;

pub const SGL_OFFSET_INVALID: u16 = 0x802C;

pub const OUT_OF_RANGE: u16 = 0x8100;

pub const COMPARE_FAILURE: u16 = 0x850A;

pub const ANA_LOSS: u16 = 0x0602;

pub const ANA_INACCESSIBLE: u16 = 0x0604;

pub const ANA_CHANGE: u16 = 0x0606;

// No disk has more bytes.
const DISK_LEN: usize = 32_768;

/// Where a command's blocks are among all disks' bytes.
#[derive(Clone, Copy)]
pub struct Range {
    pub at: usize,
    pub len: usize,
}

/// What a command comes to at its capsule.
#[derive(Clone, Copy)]
pub enum Begun {
    /// It acts on these blocks. What it brings stands so far behind the beginning of its capsule's data.
    Acts(Range, usize),
    /// So many bytes are to come.
    Asks(u32),
}

/// Lays zeros for all disks' bytes.
pub fn lay_zeros(bytes: &mut Vec<u8>) -> Result<(), AllocError> {
    pad(bytes, 3 * DISK_LEN)
}

// How many bytes a command's blocks have in this namespace.
fn len_in(namespace: &Namespace, command: &Command) -> u32 {
    let blocks = u32::from(command.more).saturating_add(1);
    blocks.saturating_mul(namespace.block_size)
}

// The namespace of a command, if its blocks can be reached by this port.
fn reached(layout: &Layout, port: usize, command: &Command) -> Result<Namespace, u16> {
    let Some(namespace) = layout.namespace(command.nsid as usize) else {
        return Err(INVALID_NAMESPACE);
    };
    match layout.state(port, namespace.group) {
        AnaState::Inaccessible => Err(ANA_INACCESSIBLE),
        AnaState::PersistentLoss => Err(ANA_LOSS),
        AnaState::Change => Err(ANA_CHANGE),
        AnaState::Optimized | AnaState::NonOptimized => Ok(namespace),
    }
}

// Where its blocks are, if the namespace has them.
fn range_in(namespace: &Namespace, command: &Command) -> Result<Range, u16> {
    let end = u64::from(command.first).saturating_add(u64::from(command.more));
    if end >= u64::from(namespace.blocks) {
        return Err(OUT_OF_RANGE);
    }
    let before = command.first.saturating_mul(namespace.block_size) as usize;
    Ok(Range {
        at: (namespace.disk % 3 * DISK_LEN).saturating_add(before),
        len: len_in(namespace, command) as usize,
    })
}

// Where a command is that moves data, and whether its descriptor is of these types and of its length.
fn moved(namespace: &Namespace, command: &Command, has_type: bool) -> Result<Range, u16> {
    let len = len_in(namespace, command);
    if len > 131_072 {
        return Err(INVALID_FIELD);
    }
    let range = range_in(namespace, command)?;
    if !has_type {
        return Err(SGL_TYPE_INVALID);
    }
    if command.sgl_len != len {
        return Err(SGL_LENGTH_INVALID);
    }
    Ok(range)
}

// A Write or a Compare, whose capsule brings so many bytes.
fn brought(namespace: &Namespace, command: &Command, capsule: usize) -> Result<Begun, u16> {
    let has_type = command.sgl_type == IN_CAPSULE || command.sgl_type == TRANSPORT;
    let range = moved(namespace, command, has_type)?;
    if command.sgl_type == TRANSPORT {
        return Ok(Begun::Asks(command.sgl_len));
    }
    let at = command.address as usize;
    if at.saturating_add(range.len) > capsule {
        return Err(SGL_OFFSET_INVALID);
    }
    Ok(Begun::Acts(range, at))
}

const NO_BLOCKS: Range = Range { at: 0, len: 0 };

/// What a command comes to at its capsule, which brings so many bytes, on a controller of this port.
pub fn begin(
    layout: &Layout,
    port: usize,
    command: &Command,
    capsule: usize,
) -> Result<Begun, u16> {
    if ![FLUSH, WRITE, READ, COMPARE, WRITE_ZEROES].contains(&command.opcode) {
        return Err(INVALID_OPCODE);
    }
    let namespace = reached(layout, port, command)?;
    match command.opcode {
        FLUSH => Ok(Begun::Acts(NO_BLOCKS, 0)),
        WRITE_ZEROES => Ok(Begun::Acts(range_in(&namespace, command)?, 0)),
        READ => {
            let has_type = command.sgl_type == TRANSPORT;
            Ok(Begun::Acts(moved(&namespace, command, has_type)?, 0))
        }
        _ => brought(&namespace, command, capsule),
    }
}

/// Where a command acts whose data, so many bytes, have come, or why it does not.
pub fn finish(layout: &Layout, port: usize, command: &Command, came: usize) -> Result<Range, u16> {
    let namespace = reached(layout, port, command)?;
    let range = range_in(&namespace, command)?;
    if range.len != came {
        return Err(SGL_LENGTH_INVALID);
    }
    Ok(range)
}

/// How many bytes the blocks of a command have now; none where there is no such namespace.
pub fn len_now(layout: &Layout, command: &Command) -> usize {
    match layout.namespace(command.nsid as usize) {
        Some(namespace) => len_in(&namespace, command) as usize,
        None => 0,
    }
}

/// Does a command to its blocks, with the data that it brought: its status.
pub fn act(disks: &mut [u8], opcode: u8, range: Range, data: &[u8]) -> u16 {
    match opcode {
        WRITE => put(disks, range.at, data),
        WRITE_ZEROES => clear(disks, range),
        COMPARE => {
            if *part(disks, range.at, range.len) != *data {
                return COMPARE_FAILURE;
            }
        }
        _ => {}
    }
    SUCCESS
}

fn put(disks: &mut [u8], at: usize, data: &[u8]) {
    if let Some(places) = disks.get_mut(at..at.saturating_add(data.len()))
        && places.len() == data.len()
    {
        places.copy_from_slice(data);
    }
}

fn clear(disks: &mut [u8], range: Range) {
    if let Some(places) = disks.get_mut(range.at..range.at.saturating_add(range.len)) {
        places.fill(0);
    }
}

/// How many bytes a namespace can have at most: all of its disk.
pub fn disk_len(disk: usize) -> u32 {
    (UNITS[disk % 3] % 64) as u32 * 512
}
