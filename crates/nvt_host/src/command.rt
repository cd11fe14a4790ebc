//! The commands, over sockets.
use crate::arguments::{HostArguments, Verb};
use host_parts::TcpLink;
use host_program::{
    CommandFault, HostLinks, SessionFault, ana, changed, discover, list, read, write, write_held,
};
use std::io::{self, BufWriter, ErrorKind, Write};
use std::net::{Net, SocketAddr};
use std::rt::Clock;

const OUTPUT_BUFFER: usize = 1 << 16;

/// Prints a line.
pub fn tell<R: Print>(rt: &R, line: &str) -> Result<(), SessionFault> {
    written(println!(rt; "{line}"))
}

/// Runs the command that the arguments ask for. What was printed before a fault stays.
pub fn run<R: Net + Clock + Print + Input + AllocGlobal>(
    rt: &R,
    arguments: &HostArguments,
) -> Result<(), CommandFault> {
    match BufWriter::with_capacity(rt.alloc(), OUTPUT_BUFFER, io::writer(rt)) {
        Ok(mut out) => {
            let ran = talk(rt, arguments, &mut out);
            let flushed = written(out.flush());
            ran?;
            flushed?;
            Ok(())
        }
        Err(_) => Err(CommandFault::Session(SessionFault::Memory)),
    }
}

fn talk<R: Net + Clock + Input + AllocGlobal, W: Write>(
    rt: &R,
    arguments: &HostArguments,
    out: &mut W,
) -> Result<(), CommandFault> {
    let (alloc, turns) = (rt.alloc(), arguments.turns);
    let link = connect(rt, arguments.address)?;
    match &arguments.verb {
        Verb::Discover(host) => discover(alloc, link, host, turns, out)?,
        Verb::List(peers) => list(alloc, link, peers, turns, out)?,
        Verb::Ana(peers) => ana(alloc, link, peers, turns, out)?,
        Verb::Changed(peers) => changed(alloc, link, peers, turns, out)?,
        Verb::Read(peers, blocks) => {
            let links = both(rt, arguments.address, link)?;
            read(alloc, links, peers, *blocks, turns, out)?;
        }
        Verb::Write(peers, fill) => {
            let links = both(rt, arguments.address, link)?;
            write(alloc, links, peers, *fill, turns, out)?;
        }
        Verb::WriteHeld(peers, fill) => {
            let links = both(rt, arguments.address, link)?;
            let mut lines = rt.reader();
            write_held(alloc, links, peers, *fill, turns, &mut lines, out)?;
        }
    }
    Ok(())
}

// A link more, to the same address.
fn both<'a, R: Net + Clock>(
    rt: &'a R,
    address: SocketAddr,
    admin: TcpLink<&'a R>,
) -> Result<HostLinks<TcpLink<&'a R>, TcpLink<&'a R>>, SessionFault> {
    Ok(HostLinks {
        admin,
        io: connect(rt, address)?,
    })
}

fn connect<R: Net + Clock>(rt: &R, address: SocketAddr) -> Result<TcpLink<&R>, SessionFault> {
    match TcpLink::connect(rt, address) {
        Ok(link) => Ok(link),
        Err(error) if error.kind() == ErrorKind::OutOfMemory => Err(SessionFault::Memory),
        Err(_) => Err(SessionFault::Io),
    }
}

fn written(outcome: io::Result<()>) -> Result<(), SessionFault> {
    match outcome {
        Ok(()) => Ok(()),
        Err(error) if error.kind() == ErrorKind::OutOfMemory => Err(SessionFault::Memory),
        Err(_) => Err(SessionFault::Io),
    }
}
