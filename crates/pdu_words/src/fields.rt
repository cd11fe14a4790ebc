//! What the fields of a command say that its name does not, of the entry that a capsule brings.
ghost use Rattle.std.specs.Prelude.{◌≡◌, ◌≤◌, length, slice_range};
ghost use Rattle.std.specs.Fmt.{WritesOnOk};
ghost use Rattle.nvt_fields.specs.Field.{field_at};
ghost use Rattle.pdu_words.specs.Fields.{aborted_words, access_words, blocks_words, capsule_words};
ghost use Rattle.pdu_words.specs.Fields.{field_words, namespace_words, queue_words, read_words};
ghost use Rattle.pdu_words.specs.Fields.{retain_words, set_words, value_words};

use crate::command::Command;
use crate::names::EVENT_CONFIGURATION;
use nvt_fields::u16_at;
use pdu_codec::{BlockCommand, Connect, GetLogPage, Sqe};
use std::fmt::{self, Formatter};

/// Of a capsule with its whole header, what its command asks.
pub(crate) fn write_fields<W: fmt::Write>(
    f: &mut Formatter<W>,
    command: Command,
    bytes: &[u8],
) -> fmt::Result
    ensures { WritesOnOk W.write_str_gives f.old result (capsule_words command bytes.now) f.new }
{
    if bytes.len() < 72 {
        return Ok(());
    }
    write_entry(f, command, &Sqe::read(capsule_header(bytes)))
}

fn capsule_header(bytes: &[u8]) -> &[u8; 72]
    requires { 72 ≤ length bytes.now }
    ensures { result.now ≡ slice_range bytes.now 0 72 }
{
    <&[u8; 72]>::try_from(&bytes[0..72]).unwrap()
}

fn write_entry<W: fmt::Write>(f: &mut Formatter<W>, command: Command, sqe: &Sqe<'_>) -> fmt::Result
    ensures { WritesOnOk W.write_str_gives f.old result (field_words command sqe.now.entry.now) f.new }
{
    let entry = sqe.entry;
    match command {
        Command::Connect { qid: _ } => write_queue(f, Connect::read(sqe)),
        Command::PropertySet { offset: _, value } => write_value(f, value),
        Command::GetLogPage { lid: _, offset: _ } => write_read(f, GetLogPage::read(sqe)),
        Command::Identify { cns: _ } | Command::Flush => write_namespace(f, sqe.nsid()),
        Command::Abort => write_aborted(f, u16_at(entry, 40), u16_at(entry, 42)),
        Command::SetFeatures { fid, value } => write_set(f, fid, value),
        Command::Write | Command::Read | Command::Compare | Command::WriteZeroes => {
            write_blocks(f, sqe.nsid(), BlockCommand::read(sqe))
        }
        Command::PropertyGet { offset: _ }
        | Command::Fabrics { fctype: _ }
        | Command::GetFeatures { fid: _, select: _ }
        | Command::AsynchronousEventRequest
        | Command::KeepAlive
        | Command::Admin { opcode: _ }
        | Command::Io { opcode: _ } => Ok(()),
    }
}

fn write_queue<W: fmt::Write>(f: &mut Formatter<W>, connect: Connect) -> fmt::Result
    ensures { WritesOnOk W.write_str_gives f.old result (queue_words connect) f.new }
{
    let (sqsize, kato) = (connect.sqsize, connect.kato);
    write!(f, ": SQSIZE {sqsize}, KATO {kato}")
}

fn write_value<W: fmt::Write>(f: &mut Formatter<W>, value: u64) -> fmt::Result
    ensures { WritesOnOk W.write_str_gives f.old result (value_words value) f.new }
{
    write!(f, ": value {value:X}h")
}

fn write_set<W: fmt::Write>(f: &mut Formatter<W>, fid: u8, value: u32) -> fmt::Result
    ensures { WritesOnOk W.write_str_gives f.old result (set_words fid value) f.new }
{
    if fid == EVENT_CONFIGURATION {
        return Ok(());
    }
    write_value(f, u64::from(value))
}

fn write_read<W: fmt::Write>(f: &mut Formatter<W>, read: GetLogPage) -> fmt::Result
    ensures { WritesOnOk W.write_str_gives f.old result (read_words read) f.new }
{
    let (offset, len) = (read.offset, 4 * (u64::from(read.numd) + 1));
    let retained = retain_words(read);
    write!(f, ": offset {offset}, length {len}{retained}")
}

fn retain_words(read: GetLogPage) -> &'static str
    ensures { result.now ≡ retain_words read }
{
    if read.rae {
        return ", RAE";
    }
    ""
}

fn write_namespace<W: fmt::Write>(f: &mut Formatter<W>, nsid: u32) -> fmt::Result
    ensures { WritesOnOk W.write_str_gives f.old result (namespace_words nsid) f.new }
{
    write!(f, ": NSID {nsid}")
}

fn write_aborted<W: fmt::Write>(f: &mut Formatter<W>, sqid: u16, cid: u16) -> fmt::Result
    ensures { WritesOnOk W.write_str_gives f.old result (aborted_words sqid cid) f.new }
{
    write!(f, ": SQID {sqid}, CID {cid}")
}

fn write_blocks<W: fmt::Write>(f: &mut Formatter<W>, nsid: u32, asked: BlockCommand) -> fmt::Result
    ensures { WritesOnOk W.write_str_gives f.old result (blocks_words nsid asked) f.new }
{
    let (first, blocks) = (asked.first, asked.blocks);
    let access = access_words(asked);
    write!(f, ": NSID {nsid}, LBA {first}, blocks {blocks}{access}")
}

fn access_words(asked: BlockCommand) -> &'static str
    ensures { result.now ≡ access_words asked }
{
    if asked.fua {
        return ", FUA";
    }
    ""
}
