//! What a submission queue entry says in the words of one command.
ghost use Rattle.std.specs.Prelude.{◌≡◌};

use crate::sqe::Sqe;
use nvt_fields::{u16_at, u32_at, u64_at};

/// Connect (Base 2.0, section 6.3).
#[derive(Clone, Copy, Debug, PartialEq, Eq)]
pub struct Connect {
    /// Record format.
    pub recfmt: u16,
    /// Queue identifier, 0 for the admin queue.
    pub qid: u16,
    /// The size of the submission queue, 0's based.
    pub sqsize: u16,
    /// Connect attributes.
    pub cattr: u8,
    /// Keep alive timeout, in ms.
    pub kato: u32,
}

impl Connect {
    ghost use Rattle.pdu_codec.specs.Sqe.{connect_of};
    ghost use Rattle.pdu_codec.specs.SqeFields.{connect_dwords};

    // The offsets of the fields in the submission queue entry.

    pub const RECFMT_AT: usize = 40;

    pub const QID_AT: usize = 42;

    pub const SQSIZE_AT: usize = 44;

    pub const CATTR_AT: usize = 46;

    pub const KATO_AT: usize = 48;

    pub fn read(sqe: &Sqe<'_>) -> Connect
        ensures { result ≡ connect_of sqe.now.entry.now }
    {
        let entry = sqe.entry;
        Connect {
            recfmt: u16_at(entry, Connect::RECFMT_AT),
            qid: u16_at(entry, Connect::QID_AT),
            sqsize: u16_at(entry, Connect::SQSIZE_AT),
            cattr: entry[Connect::CATTR_AT],
            kato: u32_at(entry, Connect::KATO_AT),
        }
    }

    /// Command dwords 10 to 15, as a host writes them.
    pub fn dwords(&self) -> [u32; 6]
        ensures { result ≡ connect_dwords self.now }
    {
        let queue = u32::from(self.recfmt) + 0x1_0000 * u32::from(self.qid);
        let size = u32::from(self.sqsize) + 0x1_0000 * u32::from(self.cattr);
        [queue, size, self.kato, 0, 0, 0]
    }
}

/// Property Get or Property Set (Base 2.0, sections 6.5 and 6.6).
#[derive(Clone, Copy, Debug, PartialEq, Eq)]
pub struct Property {
    /// Attributes: bits 2:0 are 0 for 4 bytes, 1 for 8.
    pub attrib: u8,
    /// The property's offset, in bytes.
    pub ofst: u32,
    /// The value to set.
    pub value: u64,
}

impl Property {
    ghost use Rattle.pdu_codec.specs.Sqe.{property_of};

    pub fn read(sqe: &Sqe<'_>) -> Property
        ensures { result ≡ property_of sqe.now.entry.now }
    {
        let entry = sqe.entry;
        Property {
            attrib: entry[40],
            ofst: u32_at(entry, 44),
            value: u64_at(entry, 48),
        }
    }
}

/// Get Log Page (Base 2.0, section 5.16).
#[derive(Clone, Copy, Debug, PartialEq, Eq)]
pub struct GetLogPage {
    /// Log page identifier.
    pub lid: u8,
    /// Log specific field.
    pub lsp: u8,
    /// Retain asynchronous event.
    pub rae: bool,
    /// The number of dwords to return, 0's based.
    pub numd: u32,
    /// Where in the page to begin, in bytes.
    pub offset: u64,
}

impl GetLogPage {
    ghost use Rattle.pdu_codec.specs.Sqe.{get_log_page_of};

    pub fn read(sqe: &Sqe<'_>) -> GetLogPage
        ensures { result ≡ get_log_page_of sqe.now.entry.now }
    {
        let entry = sqe.entry;
        let low = u32::from(u16_at(entry, 42));
        let high = u32::from(u16_at(entry, 44));
        GetLogPage {
            lid: entry[40],
            lsp: entry[41] % 0x80,
            rae: entry[41] >= 0x80,
            numd: low + 0x1_0000 * high,
            offset: u64_at(entry, 48),
        }
    }
}

/// Identify (Base 2.0, section 5.17).
#[derive(Clone, Copy, Debug, PartialEq, Eq)]
pub struct Identify {
    /// Controller or namespace structure: which structure to return.
    pub cns: u8,
    /// The namespace that it is asked of, or the one above which a list begins.
    pub nsid: u32,
}

impl Identify {
    ghost use Rattle.pdu_codec.specs.Sqe.{identify_of};

    pub fn read(sqe: &Sqe<'_>) -> Identify
        ensures { result ≡ identify_of sqe.now.entry.now }
    {
        Identify {
            cns: sqe.entry[40],
            nsid: sqe.nsid(),
        }
    }
}

/// Get Features or Set Features (Base 2.0, sections 5.15 and 5.27).
#[derive(Clone, Copy, Debug, PartialEq, Eq)]
pub struct Feature {
    /// Feature identifier.
    pub fid: u8,
    /// Whether the value is to outlast resets.
    pub save: bool,
    /// The value to set.
    pub value: u32,
}

impl Feature {
    ghost use Rattle.pdu_codec.specs.Sqe.{feature_of};

    pub fn read(sqe: &Sqe<'_>) -> Feature
        ensures { result ≡ feature_of sqe.now.entry.now }
    {
        let entry = sqe.entry;
        Feature {
            fid: entry[40],
            save: entry[43] >= 0x80,
            value: u32_at(entry, 44),
        }
    }
}

/// Read, Write, Compare or Write Zeroes (NVM Command Set 1.0, section 3.2).
#[derive(Clone, Copy, Debug, PartialEq, Eq)]
pub struct BlockCommand {
    /// The first logical block (SLBA).
    pub first: u64,
    /// The number of logical blocks, 1 to 65,536.
    pub blocks: u32,
    /// Force unit access: what is written is to be on the medium.
    pub fua: bool,
}

impl BlockCommand {
    ghost use Rattle.pdu_codec.specs.Sqe.{block_command_of};

    pub fn read(sqe: &Sqe<'_>) -> BlockCommand
        ensures { result ≡ block_command_of sqe.now.entry.now }
    {
        let entry = sqe.entry;
        BlockCommand {
            first: u64_at(entry, 40),
            blocks: u32::from(u16_at(entry, 48)) + 1,
            fua: entry[51] % 0x80 >= 0x40,
        }
    }
}
