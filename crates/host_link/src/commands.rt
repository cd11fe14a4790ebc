//! The commands of a host, each as its queue takes it (Base 2.0, section 3.3.3.1; NVM Command Set 1.0, section 3).
ghost use Rattle.std.specs.Prelude.{◌≡◌, ◌≢◌, ◌≤◌, ◌*◌, ◌/◌, ◌%◌, ◌^◌, ◌<◌, length};
ghost use Rattle.host_link.specs.Commands.{event_request, get_log_page, identify, offset_of, property_get, property_set};
ghost use Rattle.host_link.specs.Commands.{read, set_features, with_dwords, write, dwords_of};

use crate::blocks::Blocks;
use host_driver::HostCommand;
use std::alloc::Global;

const FABRICS: u8 = 0x7F;

const PROPERTY_SET: u32 = 0x00;

const PROPERTY_GET: u32 = 0x04;

const GET_LOG_PAGE: u8 = 0x02;

const IDENTIFY: u8 = 0x06;

const SET_FEATURES: u8 = 0x09;

const EVENT_REQUEST: u8 = 0x0C;

const WRITE: u8 = 0x01;

const READ: u8 = 0x02;

/// What Identify returns, in bytes.
pub const IDENTIFY_LEN: u32 = 4096;

/// CC with EN 1, IOSQES 6 and IOCQES 4 (Base 2.0, section 3.1.3.5).
pub const CONTROLLER_ENABLED: u32 = 0x0046_0001;

/// A property of a controller, of 4 bytes.
#[derive(Clone, Copy, Debug, PartialEq, Eq)]
pub enum ControllerProperty {
    /// CC.
    ControllerConfiguration,
    /// CSTS.
    ControllerStatus,
}

impl ControllerProperty {
    /// Its offset, in bytes.
    pub fn offset(self) -> u32
        ensures { result ≡ offset_of self }
    {
        match self {
            ControllerProperty::ControllerConfiguration => 0x14,
            ControllerProperty::ControllerStatus => 0x1C,
        }
    }
}

/// Property Set (NVMe over Fabrics 1.1, section 3.5).
pub fn property_set(alloc: Global, property: ControllerProperty, value: u32) -> HostCommand
    ensures { result ≡ property_set property value }
{
    plain(
        alloc,
        FABRICS,
        PROPERTY_SET,
        [0, property.offset(), value, 0, 0, 0],
        0,
    )
}

/// Property Get (NVMe over Fabrics 1.1, section 3.4). The value is the answer's result.
pub fn property_get(alloc: Global, property: ControllerProperty) -> HostCommand
    ensures { result ≡ property_get property }
{
    plain(
        alloc,
        FABRICS,
        PROPERTY_GET,
        [0, property.offset(), 0, 0, 0, 0],
        0,
    )
}

/// Identify, of a data structure (CNS) and a namespace (Base 2.0, section 5.17).
pub fn identify(alloc: Global, cns: u8, nsid: u32) -> HostCommand
    ensures { result ≡ identify cns nsid }
{
    plain(
        alloc,
        IDENTIFY,
        nsid,
        [u32::from(cns), 0, 0, 0, 0, 0],
        IDENTIFY_LEN,
    )
}

/// Get Log Page, of so many bytes from an offset, with RAE 0 (Base 2.0, section 5.16).
pub fn get_log_page(alloc: Global, lid: u8, offset: u64, len: u32) -> HostCommand
    requires least { 4 ≤ len }
    requires most { len ≤ 131072 }
    requires whole { len % 4 ≡ 0 }
    ensures { result ≡ get_log_page lid offset len }
{
    let dwords = u32::from(lid) + (len / 4 - 1) * 0x1_0000;
    plain(
        alloc,
        GET_LOG_PAGE,
        0,
        [dwords, 0, low(offset), high(offset), 0, 0],
        len,
    )
}

/// Set Features (Base 2.0, section 5.27).
pub fn set_features(alloc: Global, fid: u8, value: u32) -> HostCommand
    ensures { result ≡ set_features fid value }
{
    plain(
        alloc,
        SET_FEATURES,
        0,
        [u32::from(fid), value, 0, 0, 0, 0],
        0,
    )
}

/// Asynchronous Event Request (Base 2.0, section 5.2).
pub fn event_request(alloc: Global) -> HostCommand
    ensures { result ≡ event_request }
{
    plain(alloc, EVENT_REQUEST, 0, [0; 6], 0)
}

/// Read, of blocks of this many bytes.
pub fn read(alloc: Global, blocks: Blocks, block_len: u32) -> HostCommand
    requires { block_len ≤ 4096 }
    ensures { result ≡ read blocks block_len }
{
    let len = u32::from(blocks.count) * block_len;
    plain(alloc, READ, blocks.nsid, dwords_of(blocks), len)
}

/// Write, of these data, which are as long as the blocks.
pub fn write(blocks: Blocks, data: Vec<u8>) -> HostCommand
    ensures { result ≡ write blocks «data».items }
{
    HostCommand {
        opcode: WRITE,
        nsid: blocks.nsid,
        cdw: dwords_of(blocks),
        out: data,
        into: 0,
    }
}

fn plain(alloc: Global, opcode: u8, nsid: u32, cdw: [u32; 6], into: u32) -> HostCommand
    ensures { result ≡ with_dwords opcode nsid cdw into }
{
    HostCommand {
        opcode,
        nsid,
        cdw,
        out: Vec::new(alloc),
        into,
    }
}

// The first block, and how many there are, 0's based.
fn dwords_of(blocks: Blocks) -> [u32; 6]
    ensures { result ≡ dwords_of blocks }
{
    let count = u32::from(blocks.count) - 1;
    [low(blocks.lba), high(blocks.lba), count, 0, 0, 0]
}

fn low(number: u64) -> u32
    ensures { result ≡ number % 2 ^ 32 }
{
    (number % (1 << 32)) as u32
}

fn high(number: u64) -> u32
    ensures { result ≡ number / 2 ^ 32 }
{
    (number >> 32) as u32
}
