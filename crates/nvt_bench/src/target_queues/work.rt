//! The commands.
use block_store::MemoryDisk;
use std::alloc::{AllocError, Global};
use std::fmt;
use testkit_edits::{Blocks, memory_disks};
use testkit_tables::{Outcome, check};
use testkit_targets::queues::{
    Command, Driver, H2C_DATA_MAX, Opcode, Script, h2c_data, holds_over,
};

const BLOCK_LEN: usize = 4096;

const LONG_LEN: usize = 32_768;

const LONGEST_LEN: usize = 131_072;

// A header without data: of a response, of an R2T or of a C2HData.
const HEADER_LEN: usize = 24;

// The first block of all that is read or written.
const FIRST: u16 = 4;

const BLOCK_COUNT: u16 = 64;

const BLOCKS: Blocks = Blocks {
    nsid: 2,
    disk: 0,
    blocks: BLOCK_COUNT as u64,
    block_size: 4096,
    uuid: 0x22,
    group: 1,
};

/// A command that is done again and again.
#[derive(Clone, Copy, PartialEq, Eq)]
pub enum Work {
    /// A Read of 4 KiB.
    Read,
    /// A Write of 4 KiB in its capsule.
    Write,
    /// A Read of 32 KiB.
    LongRead,
    /// A Read of 128 KiB, in pieces.
    LongestRead,
    /// A Write of 128 KiB that are asked for.
    LongestWrite,
}

impl Work {
    /// How many bytes of data it has.
    pub(crate) fn len(self) -> usize {
        match self {
            Work::Read | Work::Write => BLOCK_LEN,
            Work::LongRead => LONG_LEN,
            Work::LongestRead | Work::LongestWrite => LONGEST_LEN,
        }
    }

    fn command(self) -> Command {
        match self {
            Work::Read => Command::of(Opcode::Read, 2, FIRST, 1),
            Work::Write => Command::of(Opcode::Write, 2, FIRST, 1),
            Work::LongRead => Command::of(Opcode::Read, 2, FIRST, 8),
            Work::LongestRead => Command::of(Opcode::Read, 2, FIRST, 32),
            Work::LongestWrite => Command::of(Opcode::Write, 2, FIRST, 32).with_data_asked_for(),
        }
    }

    // How many bytes its capsule is answered: a response, and behind headers what is read.
    fn answer_len(self) -> usize {
        match self {
            Work::Read => HEADER_LEN + BLOCK_LEN + HEADER_LEN,
            Work::LongRead => HEADER_LEN + LONG_LEN + HEADER_LEN,
            Work::LongestRead => 4 * HEADER_LEN + LONGEST_LEN + HEADER_LEN,
            Work::Write | Work::LongestWrite => HEADER_LEN,
        }
    }

    // What the host sends.
    fn exchanges(self, alloc: Global) -> Result<Vec<Exchange>, AllocError> {
        let mut exchanges = Vec::new(alloc);
        let pdu = match self {
            Work::Write => self.command().pdu(alloc, &[0x5A; BLOCK_LEN])?,
            Work::Read | Work::LongRead | Work::LongestRead | Work::LongestWrite => {
                self.command().pdu(alloc, &[])?
            }
        };
        let answer_len = self.answer_len();
        exchanges.push(Exchange { pdu, answer_len })?;
        if self == Work::LongestWrite {
            push_data(alloc, &mut exchanges, self.command().cid)?;
        }
        Ok(exchanges)
    }
}

// The data that are asked for: each piece is answered nothing, but the last one a response.
fn push_data(alloc: Global, exchanges: &mut Vec<Exchange>, cid: u8) -> Result<(), AllocError> {
    const PIECES: u32 = (LONGEST_LEN / H2C_DATA_MAX) as u32;
    for piece in 0..PIECES {
        let is_last = piece == PIECES - 1;
        let place = piece * H2C_DATA_MAX as u32;
        let pdu = h2c_data(alloc, cid, place, &[0x5A; H2C_DATA_MAX], is_last)?;
        let answer_len = if is_last { HEADER_LEN } else { 0 };
        exchanges.push(Exchange { pdu, answer_len })?;
    }
    Ok(())
}

impl fmt::Display for Work {
    fn fmt<W: fmt::Write>(&self, f: &mut fmt::Formatter<W>) -> fmt::Result {
        f.write_str(match self {
            Work::Read => "Reads of 4 KiB",
            Work::Write => "Writes of 4 KiB in the capsule",
            Work::LongRead => "Reads of 32 KiB",
            Work::LongestRead => "Reads of 128 KiB in pieces",
            Work::LongestWrite => "Writes of 128 KiB by R2T",
        })
    }
}

// A PDU, and how many bytes it is answered.
#[derive(Drop)]
struct Exchange {
    pdu: Vec<u8>,
    answer_len: usize,
}

// A command that is sent again and again.
#[derive(Drop)]
struct Times {
    exchanges: Vec<Exchange>,
    times: u32,
}

// Writes each block, since a disk in memory reads without a copy what was never written.
fn fills(driver: &mut Driver<MemoryDisk>) -> bool {
    let mut each = true;
    for block in 0..BLOCK_COUNT {
        let write = Command::of(Opcode::Write, 2, block, 1);
        each &= driver.writes(0, &write, &[0x5A; BLOCK_LEN]);
    }
    each
}

impl Script<MemoryDisk> for Times {
    fn holds(&self, driver: &mut Driver<MemoryDisk>) -> Outcome {
        let mut each = driver.begin(&[BLOCKS]) && fills(driver);
        for _ in 0..self.times {
            for exchange in &self.exchanges {
                each &= driver.exchanges(0, &exchange.pdu, exchange.answer_len);
            }
        }
        check(each, "an answer of as many bytes")
    }
}

/// Connects a host to a target over a disk in memory, and does a command so many times; whether each
/// time as many bytes were sent as are to be.
pub fn runs(alloc: Global, work: Work, times: u32) -> bool {
    match (memory_disks(alloc, &[512]), work.exchanges(alloc)) {
        (Ok(disks), Ok(exchanges)) => {
            let script = Times { exchanges, times };
            holds_over(alloc, disks, &script).is_ok()
        }
        _ => false,
    }
}
