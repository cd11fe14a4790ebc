//! PDUs that a host sends, in numbers of four bytes. Each is appended to an empty list.
use crate::plain::bytes::{byte_at, half_at, lay, pad, pair, word_at};
use crate::plain::places::{place_of, qid_of, sqsize_of};
use std::alloc::AllocError;
use testkit_edits::{A, host_name};

/// An I/O command, as its capsule says it.
#[derive(Clone, Copy)]
pub struct Command {
    pub opcode: u8,
    pub cid: u16,
    pub nsid: u32,
    pub first: u32,
    /// As many blocks and one more.
    pub more: u16,
    pub sgl_type: u8,
    pub sgl_len: u32,
    pub address: u32,
}

/// The opcodes, and the types of SGL descriptors.
pub const FLUSH: u8 = 0x00;

pub const WRITE: u8 = 0x01;

pub const READ: u8 = 0x02;

pub const COMPARE: u8 = 0x05;

pub const WRITE_ZEROES: u8 = 0x08;

pub const IN_CAPSULE: u8 = 0x01;

pub const TRANSPORT: u8 = 0x5A;

// The first word of a submission queue entry; PSDT says that data are found by an SGL.
fn first_word(opcode: u8, cid: u16) -> u32 {
    pair(u16::from_le_bytes([opcode, 0x40]), cid)
}

// The type of an SGL descriptor, in the last word of it.
fn sgl_word(sgl_type: u8) -> u32 {
    u32::from_le_bytes([0, 0, 0, sgl_type])
}

// A capsule with this entry, but for its data, of which so many bytes follow.
fn begin_capsule(out: &mut Vec<u8>, entry: &[u32; 16], len: u32) -> Result<(), AllocError> {
    let pdo = if len == 0 { 0 } else { 72 };
    lay(
        out,
        &[u32::from_le_bytes([4, 0, 72, pdo]), len.saturating_add(72)],
    )?;
    lay(out, entry)
}

/// An ICReq with PFV 0, HPDA 0, and digests that no target has to take up.
pub fn ic_req(out: &mut Vec<u8>) -> Result<(), AllocError> {
    lay(out, &[0x0080_0000, 128, 0x0300_0000])?;
    pad(out, 128)
}

/// The capsule of an I/O command, but for its data, of which so many bytes follow.
pub fn begin_io_capsule(
    out: &mut Vec<u8>,
    command: &Command,
    fua: bool,
    len: u32,
) -> Result<(), AllocError> {
    let mut entry = [0u32; 16];
    entry[0] = first_word(command.opcode, command.cid);
    entry[1] = command.nsid;
    entry[6] = command.address;
    entry[8] = command.sgl_len;
    entry[9] = sgl_word(command.sgl_type);
    entry[10] = command.first;
    entry[12] = pair(command.more, if fua { 0x4000 } else { 0 });
    begin_capsule(out, &entry, len)
}

/// The command that an entry says.
pub fn command_in(entry: &[u8]) -> Command {
    Command {
        opcode: byte_at(entry, 0),
        cid: half_at(entry, 2),
        nsid: word_at(entry, 4),
        first: word_at(entry, 40),
        more: half_at(entry, 48),
        sgl_type: byte_at(entry, 39),
        sgl_len: word_at(entry, 32),
        address: word_at(entry, 24),
    }
}

/// A Connect of CID 1 of this queue, to the controller of this identifier.
pub fn connect(out: &mut Vec<u8>, queue: usize, cntlid: u16) -> Result<(), AllocError> {
    let mut entry = [0u32; 16];
    entry[0] = first_word(0x7F, 1);
    entry[1] = 1;
    entry[8] = 1024;
    entry[9] = sgl_word(IN_CAPSULE);
    entry[10] = pair(0, qid_of(queue));
    entry[11] = u32::from(sqsize_of(queue));
    begin_capsule(out, &entry, 1024)?;
    connect_data(out, host_name(place_of(queue).host), cntlid)
}

// The data of a Connect, which begin at the 72nd byte of its capsule: CNTLID is their byte 16, SUBNQN 256 and
// HOSTNQN 512.
fn connect_data(out: &mut Vec<u8>, host: &[u8], cntlid: u16) -> Result<(), AllocError> {
    pad(out, 72 + 16)?;
    lay(out, &[u32::from(cntlid)])?;
    pad(out, 72 + 256)?;
    out.extend_from_slice(A)?;
    pad(out, 72 + 512)?;
    out.extend_from_slice(host)?;
    pad(out, 72 + 1024)
}

/// A Property Set of CC.
pub fn configure(out: &mut Vec<u8>, cid: u16, cc: u32) -> Result<(), AllocError> {
    let mut entry = [0u32; 16];
    entry[0] = first_word(0x7F, cid);
    entry[11] = 0x14;
    entry[12] = cc;
    begin_capsule(out, &entry, 0)
}

/// What an H2CData says of its data.
#[derive(Clone, Copy)]
pub struct Head {
    pub cid: u16,
    pub ttag: u16,
    pub offset: u32,
    pub datal: u32,
    /// Where its data begin: from 24 to 128, and a multiple of 4.
    pub pdo: u8,
}

/// An H2CData but for its data, of which so many bytes follow.
pub fn begin_h2c_data(out: &mut Vec<u8>, head: &Head, len: u32) -> Result<(), AllocError> {
    let common = u32::from_le_bytes([6, 0, 24, head.pdo]);
    let plen = u32::from(head.pdo).saturating_add(len);
    lay(
        out,
        &[
            common,
            plen,
            pair(head.cid, head.ttag),
            head.offset,
            head.datal,
            0,
        ],
    )?;
    pad(out, usize::from(head.pdo))
}

/// An H2CTermReq.
pub fn term_req(out: &mut Vec<u8>) -> Result<(), AllocError> {
    lay(out, &[0x0018_0002, 24, 1, 0, 0, 0])
}
