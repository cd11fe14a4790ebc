//! Random PDUs and edits.
use nvt_config::{Access, AnaState, Family};
use rand_core::utils::NextWord;
use rand_pcg::Pcg32;
use std::alloc::{AllocError, Global};
use testkit_edits::{A, B, Blocks, H1, H2, Line, capsule};
use testkit_targets::queues::put;

const DISCOVERY: &[u8] = b"nqn.2014-08.org.nvmexpress.discovery";

// The data of a Connect to the discovery subsystem.
fn connect_data(host: &[u8]) -> [u8; 1024] {
    let mut data = [0u8; 1024];
    put(&mut data, 16, &[0xFF; 2]);
    put(&mut data, 256, DISCOVERY);
    put(&mut data, 512, host);
    data
}

// One of these.
fn pick<T: Copy>(random: &mut Pcg32, first: T, others: &[T]) -> T {
    let at = random.next_word() as usize % 9;
    match others.get(at) {
        Some(other) => *other,
        None => first,
    }
}

/// True once in `n` times.
pub fn rarely(random: &mut Pcg32, n: u32) -> bool {
    random.next_word() % n.max(1) == 0
}

fn ic_req(alloc: Global, random: &mut Pcg32) -> Result<Vec<u8>, AllocError> {
    let mut pdu = [0u8; 128];
    pdu[2] = 128;
    pdu[4] = 128;
    if rarely(random, 8) {
        pdu[8] = 1;
    }
    if rarely(random, 8) {
        pdu[10] = (random.next_word() % 40) as u8;
    }
    pdu[11] = (random.next_word() % 4) as u8;
    Vec::from_slice(alloc, &pdu)
}

fn entry_of(random: &mut Pcg32, opcode: u8, fctype: u8) -> [u8; 64] {
    let mut entry = [0u8; 64];
    let cid = random.next_word().to_le_bytes();
    let flags = if rarely(random, 20) { 0x41 } else { 0x40 };
    entry[..5].copy_from_slice(&[opcode, flags, cid[0], cid[1], fctype]);
    entry
}

fn connect(alloc: Global, random: &mut Pcg32) -> Result<Vec<u8>, AllocError> {
    let mut entry = entry_of(random, 0x7F, 1);
    entry[24] = pick(random, 0u8, &[4]);
    entry[33] = if rarely(random, 12) { 3 } else { 4 };
    entry[39] = if rarely(random, 12) { 0x5A } else { 1 };
    entry[40] = u8::from(rarely(random, 12));
    entry[42] = pick(random, 0u8, &[1, 9]);
    entry[44] = pick(random, 31u8, &[1, 2, 63, 64, 0]);
    let mut data = connect_data(pick(random, H1, &[H2]));
    if rarely(random, 12) {
        data[16] = 1;
    }
    if rarely(random, 12) {
        data[260] = b'3';
    }
    if rarely(random, 12) {
        data[520] = b' ';
    }
    capsule(alloc, &entry, &data)
}

fn property(alloc: Global, random: &mut Pcg32) -> Result<Vec<u8>, AllocError> {
    let fctype = pick(random, 4u8, &[0, 0, 0, 1, 7]);
    let mut entry = entry_of(random, 0x7F, fctype);
    entry[40] = u8::from(rarely(random, 4));
    entry[44] = pick(random, 0x14u8, &[0x1C, 0x1C, 0, 8, 0x68, 0x10]);
    let value = pick(random, 0x0046_0001u32, &[0, 0x4001, 0xC000, 1]);
    entry[48..52].copy_from_slice(&value.to_le_bytes());
    capsule(alloc, &entry, &[])
}

fn log_read(alloc: Global, random: &mut Pcg32) -> Result<Vec<u8>, AllocError> {
    let opcode = pick(random, 2u8, &[6]);
    let mut entry = entry_of(random, opcode, 0);
    let dwords = pick(random, 256u16, &[1, 2, 4, 257, 8192, 8193]);
    let wanted = u32::from(dwords) * 4;
    let len = pick(random, wanted, &[4]).to_le_bytes();
    entry[32] = len[0];
    entry[33] = len[1];
    entry[34] = len[2];
    entry[39] = pick(random, 0x5Au8, &[1]);
    entry[40] = pick(random, 0x70u8, &[2]);
    let numd = dwords.saturating_sub(1).to_le_bytes();
    entry[42] = numd[0];
    entry[43] = numd[1];
    let offset = pick(random, 0u16, &[4, 8, 1020, 1024, 1028, 2048, 3072, 2]).to_le_bytes();
    entry[48] = offset[0];
    entry[49] = offset[1];
    capsule(alloc, &entry, &[])
}

const H2C_TERM_REQ: &[u8; 24] = &[
    2, 0, 24, 0, 24, 0, 0, 0, 1, 0, 0, 0, 0, 0, 0, 0, 0, 0, 0, 0, 0, 0, 0, 0,
];

const H2C_DATA: &[u8; 24] = &[
    6, 0, 24, 24, 24, 0, 0, 0, 1, 0, 9, 0, 0, 0, 0, 0, 0, 0, 0, 0, 0, 0, 0, 0,
];

const HEADER_DIGEST: &[u8; 8] = &[4, 1, 72, 0, 72, 0, 0, 0];

/// A PDU of any kind, mostly one that lets the conversation go on.
pub fn pdu(alloc: Global, random: &mut Pcg32, position: u32) -> Result<Vec<u8>, AllocError> {
    if position == 0 && !rarely(random, 10) {
        return ic_req(alloc, random);
    }
    if position == 1 && !rarely(random, 10) {
        return connect(alloc, random);
    }
    match random.next_word() % 40 {
        0 => ic_req(alloc, random),
        1 | 2 => connect(alloc, random),
        3 => Vec::from_slice(alloc, H2C_TERM_REQ),
        4 => Vec::from_slice(alloc, H2C_DATA),
        5 => Vec::from_slice(alloc, HEADER_DIGEST),
        6..=19 => log_read(alloc, random),
        _ => property(alloc, random),
    }
}

/// An edit of one of three ports, two subsystems, two hosts, three referrals, or one namespace of
/// each subsystem.
pub fn line(random: &mut Pcg32) -> Line<'static> {
    let id = u64::from(random.next_word() % 3);
    let nqn = pick(random, A, &[B, B, B, B]);
    let host = pick(random, H1, &[H2, H2, H2, H2]);
    match random.next_word() % 22 {
        0 | 1 => Line::PortAdd(id, b"127.0.0.1", 4420),
        2 => Line::PortSet(id, Family::Ipv4, b"127.0.0.1", service(random)),
        3 => Line::PortDel(id),
        4 | 5 => Line::SubsystemAdd(nqn, b"SN", access(random)),
        6 => Line::SubsystemSet(nqn, access(random)),
        7 => Line::SubsystemDel(nqn),
        8..=11 => Line::LinkAdd(id, nqn),
        12 => Line::LinkDel(id, nqn),
        13 | 14 => Line::HostAdd(host),
        15 => Line::HostDel(host),
        16 | 17 => Line::AllowAdd(nqn, host),
        18 => Line::AllowDel(nqn, host),
        19 => Line::AnaSet(id, nqn, 1, state(random)),
        20 => referral_line(random, id),
        _ => namespace_line(random, nqn),
    }
}

fn access(random: &mut Pcg32) -> Access {
    pick(random, Access::Open, &[Access::Closed; 4])
}

fn state(random: &mut Pcg32) -> AnaState {
    pick(random, AnaState::Change, &[AnaState::Optimized; 4])
}

fn service(random: &mut Pcg32) -> u64 {
    u64::from(random.next_word() % 3)
}

fn referral_line(random: &mut Pcg32, id: u64) -> Line<'static> {
    match random.next_word() % 4 {
        0 => Line::ReferralSet(id, Family::Ipv4, b"127.0.0.9", service(random)),
        1 => Line::ReferralDel(id),
        _ => Line::ReferralAdd(id, b"127.0.0.9", 8009),
    }
}

const NAMESPACE: Blocks = Blocks {
    nsid: 1,
    disk: 0,
    blocks: 8,
    block_size: 512,
    uuid: 1,
    group: 1,
};

fn namespace_line(random: &mut Pcg32, nqn: &'static [u8]) -> Line<'static> {
    match random.next_word() % 5 {
        0 => Line::NamespaceSize(nqn, 1, u64::from(random.next_word() % 128)),
        1 => Line::NamespaceGroup(nqn, 1, 2),
        2 => Line::NamespaceDel(nqn, 1),
        _ => Line::NamespaceAdd(nqn, NAMESPACE),
    }
}
