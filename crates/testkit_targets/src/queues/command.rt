//! The capsules of a host, and what the target sends back.
use crate::queues::plain::put;
use std::alloc::{AllocError, Global};
use testkit_edits::capsule;

/// The name of the subsystem.
pub const A: &[u8] = b"nqn.2026-01.test:a";

/// The name of the host.
pub const H1: &[u8] = b"nqn.2026-01.test:h1";

/// Status bytes of a response.
pub const SUCCESS: [u8; 2] = [0x00, 0x00];

pub const WRITE_FAULT: [u8; 2] = [0x00, 0x85];

pub const READ_ERROR: [u8; 2] = [0x02, 0x85];

pub const COMPARE_FAILURE: [u8; 2] = [0x0A, 0x85];

// The type of the SGL descriptor of data that are not in the capsule.
const NOT_IN_CAPSULE: u8 = 0x5A;

/// The commands, by their opcodes.
#[derive(Clone, Copy, PartialEq, Eq)]
pub enum Opcode {
    Flush,
    Write,
    Read,
    Compare,
    WriteZeroes,
}

impl Opcode {
    fn code(self) -> u8 {
        match self {
            Opcode::Flush => 0x00,
            Opcode::Write => 0x01,
            Opcode::Read => 0x02,
            Opcode::Compare => 0x05,
            Opcode::WriteZeroes => 0x08,
        }
    }

    // The type of its SGL descriptor: data at an offset in the capsule, or none there.
    fn sgl_type(self) -> u8 {
        match self {
            Opcode::Write | Opcode::Compare => 0x01,
            Opcode::Read | Opcode::Flush | Opcode::WriteZeroes => NOT_IN_CAPSULE,
        }
    }
}

/// An I/O command, whose block count is at least 1.
#[derive(Clone, Copy)]
pub struct Command {
    pub opcode: Opcode,
    pub cid: u8,
    pub nsid: u8,
    pub first: u16,
    pub blocks: u16,
    pub fua: bool,
    /// Its data are asked for by an R2T.
    pub asked_for: bool,
}

impl Command {
    /// One of CID 7 and without FUA.
    pub fn of(opcode: Opcode, nsid: u8, first: u16, blocks: u16) -> Command {
        Command {
            opcode,
            cid: 7,
            nsid,
            first,
            blocks,
            fua: false,
            asked_for: false,
        }
    }

    pub fn with_fua(self, fua: bool) -> Command {
        Command { fua, ..self }
    }

    /// It with data that are asked for.
    pub fn with_data_asked_for(self) -> Command {
        Command {
            asked_for: true,
            ..self
        }
    }

    // Its submission queue entry.
    fn entry(&self) -> [u8; 64] {
        let mut entry = [0u8; 64];
        let opcode = self.opcode.code();
        entry[..5].copy_from_slice(&[opcode, 0x40, self.cid, 0, self.nsid]);
        entry[32..36].copy_from_slice(&self.len().to_le_bytes());
        entry[39] = if self.asked_for {
            NOT_IN_CAPSULE
        } else {
            self.opcode.sgl_type()
        };
        entry[40..42].copy_from_slice(&self.first.to_le_bytes());
        entry[48..50].copy_from_slice(&self.blocks.saturating_sub(1).to_le_bytes());
        entry[51] = if self.fua { 0x40 } else { 0 };
        entry
    }

    // How many bytes its blocks have.
    fn len(&self) -> u32 {
        u32::from(self.blocks).saturating_mul(block_len(self.nsid))
    }

    /// Its capsule.
    pub fn pdu(&self, alloc: Global, data: &[u8]) -> Result<Vec<u8>, AllocError> {
        capsule(alloc, &self.entry(), data)
    }
}

/// How long a block of a namespace is: of the first one 512 bytes.
pub fn block_len(nsid: u8) -> u32 {
    if nsid == 1 { 512 } else { 4096 }
}

/// A Connect of CID 1 with SQSIZE 31 to a queue of a controller.
pub fn connect(alloc: Global, queue: u8, controller: [u8; 2]) -> Result<Vec<u8>, AllocError> {
    connect_as(alloc, queue, &connect_data(controller, A, H1))
}

/// A Connect of CID 1 with SQSIZE 31 that asks a subsystem for a controller of a host.
pub fn connect_to(alloc: Global, subsystem: &[u8], host: &[u8]) -> Result<Vec<u8>, AllocError> {
    connect_as(alloc, 0, &connect_data([0xFF; 2], subsystem, host))
}

fn connect_as(alloc: Global, queue: u8, data: &[u8; 1024]) -> Result<Vec<u8>, AllocError> {
    let mut entry = [0u8; 64];
    entry[..5].copy_from_slice(&[0x7F, 0x40, 1, 0, 1]);
    entry[33] = 4;
    entry[39] = 1;
    entry[42] = queue;
    entry[44] = 31;
    capsule(alloc, &entry, data)
}

fn connect_data(controller: [u8; 2], subsystem: &[u8], host: &[u8]) -> [u8; 1024] {
    let mut data = [0u8; 1024];
    put(&mut data, 16, &controller);
    put(&mut data, 256, subsystem);
    put(&mut data, 512, host);
    data
}

/// A Property Set of CID 2: CC is 00460001h.
pub fn enable(alloc: Global) -> Result<Vec<u8>, AllocError> {
    let mut entry = [0u8; 64];
    entry[..3].copy_from_slice(&[0x7F, 0x40, 2]);
    entry[44] = 0x14;
    entry[48..51].copy_from_slice(&[1, 0, 0x46]);
    capsule(alloc, &entry, &[])
}

// A CapsuleResp with result 0.
fn response(cid: u8, head: u8, status: [u8; 2]) -> [u8; 24] {
    let mut pdu = [0u8; 24];
    pdu[..5].copy_from_slice(&[0x05, 0x00, 0x18, 0x00, 0x18]);
    pdu[16] = head;
    pdu[20] = cid;
    pdu[22..].copy_from_slice(&status);
    pdu
}

// The header of a C2HData that has all data of its command.
fn data_header(cid: u8, len: u32) -> [u8; 24] {
    let mut pdu = [0u8; 24];
    pdu[..4].copy_from_slice(&[0x07, 0x04, 0x18, 0x18]);
    pdu[4..8].copy_from_slice(&len.saturating_add(24).to_le_bytes());
    pdu[8] = cid;
    pdu[16..20].copy_from_slice(&len.to_le_bytes());
    pdu
}

/// Whether this is what a command is answered: the data that it reads, if any, and the response.
pub fn is_reply(sent: &[u8], cid: u8, head: u8, read: &[u8], status: [u8; 2]) -> bool {
    let response = response(cid, head, status);
    if read.is_empty() {
        return sent == response.as_slice();
    }
    let header = data_header(cid, read.len().min(1 << 20) as u32);
    match sent.split_at_checked(24) {
        Some((front, rest)) => {
            front == header.as_slice()
                && rest.starts_with(read)
                && rest.get(read.len()..) == Some(&response)
        }
        None => false,
    }
}
