//! The command `read`.
ghost use Rattle.std.specs.Prelude.{◌<◌, ◌≤◌};
ghost use Rattle.host_program.specs.Blocks.{Reads, ReadsBeside, TellsBlocks};
ghost use Rattle.host_program.specs.Lines.{hex_line};
ghost use Rattle.host_program.specs.Printed.{Prints, blocks_text};

use crate::asked::ask;
use crate::identified::ask_block_len;
use crate::lines::push_hex;
use crate::links::HostLinks;
use crate::opened::{open_admin, open_io};
use crate::peers::{IN_CAPSULE, Peers};
use crate::printed::print;
use host_link::{Blocks, Link, LinkSession, SessionFault, commands};
use std::alloc::Global;
use std::io::Write;

/// Reads blocks, over two links to one controller, and prints each in hex, one a line.
pub fn read<A: Link + Drop, L: Link + Drop, W: Write>(
    alloc: Global,
    links: HostLinks<A, L>,
    peers: &Peers,
    blocks: Blocks,
    turns: u64,
    out: &mut W,
) -> Result<(), SessionFault>
    ensures { Reads peers.now blocks turns (A.state links.admin) (L.state links.io) result
        (W.contents out.old) (W.contents out.new) }
{
    let mut admin = open_admin(alloc, links.admin, peers, turns)?;
    read_beside(alloc, &mut admin, links.io, peers, blocks, out)
}

fn read_beside<A: Link + Drop, L: Link + Drop, W: Write>(
    alloc: Global,
    admin: &mut LinkSession<A>,
    link: L,
    peers: &Peers,
    blocks: Blocks,
    out: &mut W,
) -> Result<(), SessionFault>
    ensures { ReadsBeside peers.now blocks (L.state link) admin.old result (W.contents out.old) (W.contents out.new) }
{
    let block_len = ask_block_len(alloc, admin, blocks.nsid)?;
    let mut io = open_io(alloc, link, peers, admin, IN_CAPSULE)?;
    tell_blocks(alloc, &mut io, blocks, block_len, out)
}

fn tell_blocks<L: Link + Drop, W: Write>(
    alloc: Global,
    io: &mut LinkSession<L>,
    blocks: Blocks,
    block_len: u32,
    out: &mut W,
) -> Result<(), SessionFault>
    requires some { 0 < block_len }
    requires most { block_len ≤ 4096 }
    ensures { TellsBlocks blocks block_len io.old result (W.contents out.old) (W.contents out.new) }
{
    let bytes = ask(io, &commands::read(alloc, blocks, block_len))?;
    print_blocks(alloc, &bytes, block_len as usize, out)
}

fn print_blocks<W: Write>(
    alloc: Global,
    bytes: &[u8],
    block_len: usize,
    out: &mut W,
) -> Result<(), SessionFault>
    requires { 0 < block_len }
    ensures { Prints (blocks_text block_len bytes.now) result (W.contents out.old) (W.contents out.new) }
{
    let mut rest = bytes;
    while !rest.is_empty() {
        let (block, after) = rest.split_at(block_len.min(rest.len()));
        print_block(alloc, block, out)?;
        rest = after;
    }
    Ok(())
}

fn print_block<W: Write>(alloc: Global, block: &[u8], out: &mut W) -> Result<(), SessionFault>
    ensures { Prints (hex_line block.now) result (W.contents out.old) (W.contents out.new) }
{
    let mut line = Vec::new(alloc);
    push_hex(alloc, &mut line, block)?;
    print(out, &mut line)
}
