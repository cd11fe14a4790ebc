//! Commands and their data, drawn at random: mostly what goes well.
use crate::draws::draw::{below, bytes, rarely};
use crate::plain::{
    COMPARE, Command, FLUSH, Head, IN_CAPSULE, Namespace, Plain, READ, TRANSPORT, Transfer, WRITE,
    WRITE_ZEROES, begin_h2c_data, begin_io_capsule, finish, part, place_of,
};
use rand_core::utils::NextWord;
use rand_pcg::Pcg32;
use std::alloc::AllocError;

const NONE: Namespace = Namespace {
    disk: 0,
    blocks: 16,
    block_size: 512,
    group: 1,
};

fn opcode(random: &mut Pcg32) -> u8 {
    match below(random, 24) {
        0..=11 => WRITE,
        12..=17 => COMPARE,
        18 => FLUSH,
        19 | 20 => READ,
        21 | 22 => WRITE_ZEROES,
        _ => 0x04,
    }
}

fn sgl_type(random: &mut Pcg32, opcode: u8) -> u8 {
    let brings = opcode == WRITE || opcode == COMPARE;
    if rarely(random, 40) {
        0x40
    } else if brings && rarely(random, 8) {
        IN_CAPSULE
    } else {
        TRANSPORT
    }
}

// Some blocks of a namespace, rarely more than it has: the first one, and how many.
fn blocks_of(random: &mut Pcg32, namespace: &Namespace, most: u32) -> (u32, u32) {
    let some = if rarely(random, 2) {
        3
    } else {
        namespace.blocks
    };
    let first = below(random, some.min(namespace.blocks));
    let left = namespace.blocks.saturating_sub(first);
    let most = (most / namespace.block_size.max(1)).max(1);
    let count = below(random, left.min(most).min(some)).saturating_add(1);
    let too_many = if rarely(random, 30) {
        below(random, 300)
    } else {
        0
    };
    (first, count.saturating_add(too_many))
}

// A command of a queue.
fn command(random: &mut Pcg32, plain: &Plain, queue: usize) -> Command {
    let nsid = below(random, 3).saturating_add(1);
    let namespace = plain.layout.namespace(nsid as usize).unwrap_or(NONE);
    let opcode = opcode(random);
    let sgl_type = sgl_type(random, opcode);
    let most = if sgl_type == IN_CAPSULE { 4096 } else { 24_576 };
    let (first, count) = blocks_of(random, &namespace, most);
    let other_length = if rarely(random, 40) { 4 } else { 0 };
    Command {
        opcode,
        cid: identifier(random, plain, queue),
        nsid: if rarely(random, 40) { 4 } else { nsid },
        first,
        more: (count.saturating_sub(1) % 0x1_0000) as u16,
        sgl_type,
        sgl_len: count
            .saturating_mul(namespace.block_size)
            .saturating_add(other_length),
        address: if rarely(random, 8) { 4 } else { 0 },
    }
}

// An identifier, rarely that of a command that waits.
fn identifier(random: &mut Pcg32, plain: &Plain, queue: usize) -> u16 {
    let place = random.next_word() as usize % plain.transfers.len().max(1);
    let other = (random.next_word() % 0x1_0000) as u16;
    match plain.transfers.get(place) {
        Some(transfer) if transfer.queue == queue && other % 4 == 0 => transfer.command.cid,
        _ => other,
    }
}

// The bytes that the blocks of a command have now, from one on.
fn held<'a>(plain: &'a Plain, queue: usize, command: &Command, at: usize, len: usize) -> &'a [u8] {
    let all = command.sgl_len as usize;
    match finish(&plain.layout, place_of(queue).port, command, all) {
        Ok(range) => part(&plain.disks, range.at.saturating_add(at), len),
        Err(_) => &[],
    }
}

// Data for a command, of which the blocks hold these: for a Compare mostly the same.
fn bring(
    out: &mut Vec<u8>,
    random: &mut Pcg32,
    opcode: u8,
    held: &[u8],
    len: usize,
) -> Result<(), AllocError> {
    if opcode == COMPARE && held.len() == len && !rarely(random, 8) {
        out.extend_from_slice(held)
    } else {
        bytes(out, random, len)
    }
}

/// The capsule of a command of a queue.
pub fn capsule(
    out: &mut Vec<u8>,
    random: &mut Pcg32,
    plain: &Plain,
    queue: usize,
) -> Result<(), AllocError> {
    let command = command(random, plain, queue);
    let fua = rarely(random, 4);
    if command.sgl_type != IN_CAPSULE {
        return begin_io_capsule(out, &command, fua, 0);
    }
    let address = command.address % 8;
    let len = command.sgl_len.min(8000);
    let all = if rarely(random, 8) {
        len.saturating_sub(4)
    } else {
        len.saturating_add(address)
    };
    let held = held(plain, queue, &command, 0, len as usize);
    begin_io_capsule(out, &command, fua, all)?;
    bytes(out, random, address as usize)?;
    bring(out, random, command.opcode, held, len as usize)?;
    out.truncate((all as usize).saturating_add(72));
    Ok(())
}

/// A Read of a whole namespace.
pub fn whole_read(out: &mut Vec<u8>, nsid: usize, namespace: &Namespace) -> Result<(), AllocError> {
    let command = Command {
        opcode: READ,
        cid: 7,
        nsid: (nsid % 4) as u32,
        first: 0,
        more: (namespace.blocks.saturating_sub(1) % 0x1_0000) as u16,
        sgl_type: TRANSPORT,
        sgl_len: namespace.blocks.saturating_mul(namespace.block_size),
        address: 0,
    };
    begin_io_capsule(out, &command, false, 0)
}

// How many of the bytes that are left come: often all, and rarely none.
fn piece_len(random: &mut Pcg32, left: usize) -> usize {
    let most = left.min(16_384);
    match below(random, 20) {
        0 => 0,
        1..=9 => most,
        10..=14 => most.min(512),
        _ => random.next_word() as usize % most.max(1),
    }
}

// How many come of a piece that is to be wrong: often too many.
fn wrong_len(random: &mut Pcg32, left: usize) -> usize {
    match below(random, 6) {
        0 => 16_388,
        1 => left.min(16_000).saturating_add(4),
        _ => piece_len(random, left),
    }
}

// One field of a head is mostly another.
fn spoil(random: &mut Pcg32, head: &mut Head) {
    match below(random, 5) {
        0 => head.ttag = (random.next_word() % 70) as u16,
        1 => head.cid = head.cid.wrapping_add(1),
        2 => head.datal = head.datal.wrapping_sub(4),
        3 => head.offset = head.offset.wrapping_add(below(random, 9)).wrapping_sub(4),
        _ => {}
    }
}

/// An H2CData for the command at this place of those that wait; where it is to be wrong, of too many bytes, or
/// with another field.
pub fn piece(
    out: &mut Vec<u8>,
    random: &mut Pcg32,
    plain: &Plain,
    place: usize,
    is_wrong: bool,
) -> Result<(), AllocError> {
    let Some(transfer) = plain.transfers.get(place) else {
        return Ok(());
    };
    let at = transfer.bytes.len();
    let command = &transfer.command;
    let left = (command.sgl_len as usize).saturating_sub(at);
    let len = if is_wrong {
        wrong_len(random, left)
    } else {
        piece_len(random, left)
    };
    let held = held(plain, transfer.queue, command, at, len);
    begin_piece(out, random, transfer, len, is_wrong)?;
    bring(out, random, command.opcode, held, len)
}

// All of it but so many bytes of data.
fn begin_piece(
    out: &mut Vec<u8>,
    random: &mut Pcg32,
    transfer: &Transfer,
    len: usize,
    is_wrong: bool,
) -> Result<(), AllocError> {
    let len = len.min(0x10_0000) as u32;
    let mut head = Head {
        cid: transfer.command.cid,
        ttag: transfer.ttag,
        offset: transfer.bytes.len().min(0x10_0000) as u32,
        datal: len,
        pdo: if rarely(random, 3) { 128 } else { 24 },
    };
    if is_wrong {
        spoil(random, &mut head);
    }
    begin_h2c_data(out, &head, len)
}
