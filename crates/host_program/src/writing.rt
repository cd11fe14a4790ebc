//! The command `write`.
ghost use Rattle.std.specs.Prelude.{◌≡◌, ◌≤◌, ◌*◌, ◌⊎◌, IfOk, replicate};
ghost use Rattle.host_link.specs.Commands.{write};
ghost use Rattle.host_program.specs.Blocks.{IsStarved, Writes, WritesBeside, WritesBlocks};
ghost use Rattle.host_program.specs.Holding.{Holds, HoldsBeside, HoldsBlocks, HoldsData, IsAnswered, IsRequested, WritesHeld};

use crate::asked::ask_result;
use crate::awaited_line::pass_line;
use crate::identified::ask_block_len;
use crate::links::HostLinks;
use crate::opened::{open_admin, open_io};
use crate::peers::{IN_CAPSULE, Peers};
use crate::printed::{print_text, written};
use host_driver::HostCommand;
use host_link::{Blocks, Link, LinkSession, SessionFault, commands};
use std::alloc::{AllocError, Global};
use std::io::{Read, Write};

/// Blocks, each byte of which is to be this one.
#[derive(Clone, Copy, Debug, PartialEq, Eq)]
pub struct Fill {
    pub blocks: Blocks,
    pub byte: u8,
}

/// Writes blocks, over two links to one controller, and prints `ok`.
pub fn write<A: Link + Drop, L: Link + Drop, W: Write>(
    alloc: Global,
    links: HostLinks<A, L>,
    peers: &Peers,
    fill: Fill,
    turns: u64,
    out: &mut W,
) -> Result<(), SessionFault>
    ensures { Writes peers.now fill turns (A.state links.admin) (L.state links.io) result
        (W.contents out.old) (W.contents out.new) }
{
    let mut admin = open_admin(alloc, links.admin, peers, turns)?;
    write_beside(alloc, &mut admin, links.io, peers, fill, out)
}

fn write_beside<A: Link + Drop, L: Link + Drop, W: Write>(
    alloc: Global,
    admin: &mut LinkSession<A>,
    link: L,
    peers: &Peers,
    fill: Fill,
    out: &mut W,
) -> Result<(), SessionFault>
    ensures { WritesBeside peers.now fill (L.state link) admin.old result (W.contents out.old) (W.contents out.new) }
{
    let block_len = ask_block_len(alloc, admin, fill.blocks.nsid)?;
    let mut io = open_io(alloc, link, peers, admin, IN_CAPSULE)?;
    write_over(alloc, &mut io, fill, block_len, out)
}

fn write_over<L: Link + Drop, W: Write>(
    alloc: Global,
    io: &mut LinkSession<L>,
    fill: Fill,
    block_len: u32,
    out: &mut W,
) -> Result<(), SessionFault>
    requires { block_len ≤ 4096 }
    ensures { IsStarved result (W.contents out.old) (W.contents out.new)
        ⊎ WritesBlocks fill block_len io.old result (W.contents out.old) (W.contents out.new) }
{
    let command = filled(alloc, fill, block_len)?;
    ask_result(io, &command)?;
    print_text(out, b"ok\n")
}

/// Writes blocks as `write` does, none of their data in the capsule. Once the controller has asked for data, prints
/// `held`, and waits for a line before it sends any: up to its end, to the end of what is read, or to 1,024 bytes.
pub fn write_held<A: Link + Drop, L: Link + Drop, R: Read, W: Write>(
    alloc: Global,
    links: HostLinks<A, L>,
    peers: &Peers,
    fill: Fill,
    turns: u64,
    lines: &mut R,
    out: &mut W,
) -> Result<(), SessionFault>
    ensures { WritesHeld peers.now fill turns (A.state links.admin) (L.state links.io) result
        (R.remaining lines.old) (R.remaining lines.new) (W.contents out.old) (W.contents out.new) }
{
    let mut admin = open_admin(alloc, links.admin, peers, turns)?;
    hold_beside(alloc, &mut admin, links.io, peers, fill, lines, out)
}

fn hold_beside<A: Link + Drop, L: Link + Drop, R: Read, W: Write>(
    alloc: Global,
    admin: &mut LinkSession<A>,
    link: L,
    peers: &Peers,
    fill: Fill,
    lines: &mut R,
    out: &mut W,
) -> Result<(), SessionFault>
    ensures { HoldsBeside peers.now fill (L.state link) admin.old result
        (R.remaining lines.old) (R.remaining lines.new) (W.contents out.old) (W.contents out.new) }
{
    let block_len = ask_block_len(alloc, admin, fill.blocks.nsid)?;
    let mut io = open_io(alloc, link, peers, admin, 0)?;
    hold_over(alloc, &mut io, fill, block_len, lines, out)
}

fn hold_over<L: Link + Drop, R: Read, W: Write>(
    alloc: Global,
    io: &mut LinkSession<L>,
    fill: Fill,
    block_len: u32,
    lines: &mut R,
    out: &mut W,
) -> Result<(), SessionFault>
    requires { block_len ≤ 4096 }
    ensures { IsStarved result (W.contents out.old) (W.contents out.new)
        ⊎ HoldsBlocks fill block_len io.old result (R.remaining lines.old) (R.remaining lines.new)
        (W.contents out.old) (W.contents out.new) }
{
    let command = filled(alloc, fill, block_len)?;
    io.submit(&command)?;
    hold(io, lines, out)
}

// Waits until data are asked for, then for a line, and then for the answer; where the answer comes first, for that.
fn hold<L: Link + Drop, R: Read, W: Write>(
    io: &mut LinkSession<L>,
    lines: &mut R,
    out: &mut W,
) -> Result<(), SessionFault>
    ensures { Holds io.old result (R.remaining lines.old) (R.remaining lines.new)
        (W.contents out.old) (W.contents out.new) }
{
    if is_requested(io)? {
        hold_data(io, lines, out)
    } else {
        print_text(out, b"ok\n")
    }
}

fn hold_data<L: Link + Drop, R: Read, W: Write>(
    io: &mut LinkSession<L>,
    lines: &mut R,
    out: &mut W,
) -> Result<(), SessionFault>
    ensures { HoldsData io.old result (R.remaining lines.old) (R.remaining lines.new)
        (W.contents out.old) (W.contents out.new) }
{
    print_text(out, b"held\n")?;
    written(out.flush())?;
    pass_line(lines)?;
    await_answer(io)?;
    print_text(out, b"ok\n")
}

// Whether data are asked for, and not the answer there.
fn is_requested<L: Link + Drop>(io: &mut LinkSession<L>) -> Result<bool, SessionFault>
    ensures { IsRequested result io.old io.new }
{
    match io.request() {
        Ok(answer) => Ok(answer.is_none()),
        Err(fault) => Err(fault),
    }
}

fn await_answer<L: Link + Drop>(io: &mut LinkSession<L>) -> Result<(), SessionFault>
    ensures { IsAnswered result io.old io.new }
{
    match io.answer() {
        Ok(_) => Ok(()),
        Err(fault) => Err(fault),
    }
}

// The Write that fills blocks.
fn filled(alloc: Global, fill: Fill, block_len: u32) -> Result<HostCommand, AllocError>
    requires { block_len ≤ 4096 }
    ensures { IfOk result (λ command.
        command ≡ write fill.blocks (replicate (fill.blocks.count * block_len) fill.byte)) }
{
    let bytes = vec![in alloc; fill.byte; len_of(fill.blocks, block_len)]?;
    Ok(commands::write(fill.blocks, bytes))
}

// How many bytes the blocks have.
fn len_of(blocks: Blocks, block_len: u32) -> usize
    requires { block_len ≤ 4096 }
    ensures { result ≡ blocks.count * block_len }
{
    usize::from(blocks.count) * block_len as usize
}
