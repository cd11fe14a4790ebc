//! What a command asks, in as far as the words for its response and its data need it.
ghost use Rattle.std.specs.Prelude.{◌≡◌};
ghost use Rattle.pdu_words.specs.Command.{command_of, fabrics_command, admin_command, io_command};
ghost use Rattle.pdu_words.specs.Command.{log_page_command, set_property_command, set_features_command};

use pdu_codec::{Connect, Feature, GetLogPage, Property, Sqe};

/// The two kinds of queues, on which opcodes mean different commands.
#[derive(Clone, Copy)]
pub enum QueueKind {
    Admin,
    Io,
}

/// A command (Base 2.0, sections 5 and 6; NVM Command Set 1.0, section 3.2).
#[derive(Clone, Copy)]
pub enum Command {
    /// QID 0 asks for the admin queue.
    Connect { qid: u16 },
    /// The property at this offset, in bytes.
    PropertyGet { offset: u32 },
    PropertySet { offset: u32, value: u64 },
    /// Another Fabrics command.
    Fabrics { fctype: u8 },
    /// The log page, from this offset in bytes.
    GetLogPage { lid: u8, offset: u64 },
    /// Controller or Namespace Structure.
    Identify { cns: u8 },
    Abort,
    SetFeatures { fid: u8, value: u32 },
    /// Which of the feature's values: 3 asks for what it can do in place of one.
    GetFeatures { fid: u8, select: u8 },
    AsynchronousEventRequest,
    KeepAlive,
    /// Another command of an admin queue.
    Admin { opcode: u8 },
    Flush,
    Write,
    Read,
    Compare,
    WriteZeroes,
    /// Another command of an I/O queue.
    Io { opcode: u8 },
}

impl Command {
    const FABRICS: u8 = 0x7F;

    /// The command that the entry is on a queue of this kind.
    pub fn read(queue: QueueKind, sqe: &Sqe<'_>) -> Command
        ensures { result ≡ command_of queue sqe.now.entry.now }
    {
        if sqe.opcode() == Command::FABRICS {
            return Command::fabrics(sqe);
        }
        match queue {
            QueueKind::Admin => Command::admin(sqe),
            QueueKind::Io => Command::io(sqe),
        }
    }

    fn fabrics(sqe: &Sqe<'_>) -> Command
        ensures { result ≡ fabrics_command sqe.now.entry.now }
    {
        match sqe.fctype() {
            0x00 => Command::set_property(sqe),
            0x01 => Command::Connect {
                qid: Connect::read(sqe).qid,
            },
            0x04 => Command::PropertyGet {
                offset: Property::read(sqe).ofst,
            },
            fctype => Command::Fabrics { fctype },
        }
    }

    fn admin(sqe: &Sqe<'_>) -> Command
        ensures { result ≡ admin_command sqe.now.entry.now }
    {
        let dword_10 = sqe.entry[40];
        match sqe.opcode() {
            0x02 => Command::log_page(sqe),
            0x06 => Command::Identify { cns: dword_10 },
            0x08 => Command::Abort,
            0x09 => Command::set_features(sqe),
            0x0A => Command::GetFeatures {
                fid: dword_10,
                select: sqe.entry[41] % 8,
            },
            0x0C => Command::AsynchronousEventRequest,
            0x18 => Command::KeepAlive,
            opcode => Command::Admin { opcode },
        }
    }

    fn set_property(sqe: &Sqe<'_>) -> Command
        ensures { result ≡ set_property_command sqe.now.entry.now }
    {
        let set = Property::read(sqe);
        Command::PropertySet {
            offset: set.ofst,
            value: set.value,
        }
    }

    fn set_features(sqe: &Sqe<'_>) -> Command
        ensures { result ≡ set_features_command sqe.now.entry.now }
    {
        let set = Feature::read(sqe);
        Command::SetFeatures {
            fid: set.fid,
            value: set.value,
        }
    }

    fn log_page(sqe: &Sqe<'_>) -> Command
        ensures { result ≡ log_page_command sqe.now.entry.now }
    {
        let read = GetLogPage::read(sqe);
        Command::GetLogPage {
            lid: read.lid,
            offset: read.offset,
        }
    }

    fn io(sqe: &Sqe<'_>) -> Command
        ensures { result ≡ io_command sqe.now.entry.now }
    {
        match sqe.opcode() {
            0x00 => Command::Flush,
            0x01 => Command::Write,
            0x02 => Command::Read,
            0x05 => Command::Compare,
            0x08 => Command::WriteZeroes,
            opcode => Command::Io { opcode },
        }
    }
}
