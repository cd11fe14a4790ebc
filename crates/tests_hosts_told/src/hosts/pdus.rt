//! PDUs that a host sends on an admin queue.
use super::bytes::put;
use super::layout::{DISCOVERY_NQN, QUEUES, place_of};
use std::alloc::{AllocError, Global};
use testkit_edits::{A, capsule, host_name};

/// SQSIZE of each queue.
const SQSIZES: [u8; QUEUES] = [31, 4, 7, 31, 6, 31, 3, 5];

/// SQSIZE of a queue.
pub fn sqsize_of(queue: usize) -> u8 {
    SQSIZES[queue % QUEUES]
}

/// A Get Log Page.
#[derive(Clone, Copy)]
pub struct Read {
    pub lid: u8,
    pub retains: bool,
    pub groups_only: bool,
    pub offset: u16,
    /// How many bytes it asks for, a multiple of 4.
    pub len: u32,
    /// The type of its SGL descriptor, and how many bytes that has beside those asked for.
    pub sgl_type: u8,
    pub more: u8,
}

/// What a host asks for.
#[derive(Clone, Copy)]
pub enum Command {
    /// Asynchronous Event Request.
    Request,
    Read(Read),
    /// Identify of this CNS and this NSID.
    Identify(u8, u32),
    /// Set Features of Asynchronous Event Configuration, and whether it is to be saved.
    SetEvents(u32, bool),
    GetEvents,
    KeepAlive,
    /// Property Set of CC.
    Configure(u32),
}

fn read_entry(entry: &mut [u8; 64], read: &Read) {
    entry[0] = 0x02;
    let len = read.len.saturating_add(u32::from(read.more));
    put(entry, 32, &len.to_le_bytes());
    entry[39] = read.sgl_type;
    entry[40] = read.lid;
    entry[41] = u8::from(read.groups_only) + if read.retains { 0x80 } else { 0 };
    put(entry, 42, &(read.len / 4).saturating_sub(1).to_le_bytes());
    put(entry, 48, &read.offset.to_le_bytes());
}

fn identify_entry(entry: &mut [u8; 64], cns: u8, nsid: u32) {
    entry[0] = 0x06;
    put(entry, 4, &nsid.to_le_bytes());
    put(entry, 32, &4_096u32.to_le_bytes());
    entry[39] = 0x5A;
    entry[40] = cns;
}

fn entry_of(cid: u16, command: &Command) -> [u8; 64] {
    let mut entry = [0u8; 64];
    match command {
        Command::Request => entry[0] = 0x0C,
        Command::Read(read) => read_entry(&mut entry, read),
        Command::Identify(cns, nsid) => identify_entry(&mut entry, *cns, *nsid),
        Command::SetEvents(mask, saves) => {
            entry[0] = 0x09;
            entry[40] = 0x0B;
            entry[43] = if *saves { 0x80 } else { 0 };
            put(&mut entry, 44, &mask.to_le_bytes());
        }
        Command::GetEvents => {
            entry[0] = 0x0A;
            entry[40] = 0x0B;
        }
        Command::KeepAlive => entry[0] = 0x18,
        Command::Configure(cc) => {
            entry[0] = 0x7F;
            entry[44] = 0x14;
            put(&mut entry, 48, &cc.to_le_bytes());
        }
    }
    entry[1] = 0x40;
    put(&mut entry, 2, &cid.to_le_bytes());
    entry
}

/// The capsule of a command.
pub fn capsule_of(alloc: Global, cid: u16, command: &Command) -> Result<Vec<u8>, AllocError> {
    capsule(alloc, &entry_of(cid, command), &[])
}

/// A Connect of CID 1 of this queue.
pub fn connect(alloc: Global, queue: usize) -> Result<Vec<u8>, AllocError> {
    let place = place_of(queue);
    let mut entry = [0u8; 64];
    put(&mut entry, 0, &[0x7F, 0x40, 1, 0, 1]);
    entry[33] = 4;
    entry[39] = 1;
    entry[44] = sqsize_of(queue);
    let mut data = [0u8; 1024];
    put(&mut data, 16, &[0xFF; 2]);
    put(
        &mut data,
        256,
        if place.is_discovery { DISCOVERY_NQN } else { A },
    );
    put(&mut data, 512, host_name(place.host));
    capsule(alloc, &entry, &data)
}
