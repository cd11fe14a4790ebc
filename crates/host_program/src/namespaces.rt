//! The command `list`.
ghost use Rattle.host_pages.specs.NsList.{nsids_listed};
ghost use Rattle.host_program.specs.Lines.{nsid_line};
ghost use Rattle.host_program.specs.Listing.{Lists, PrintsList, TellsAbove, TellsNamespaces};
ghost use Rattle.host_program.specs.Printed.{Prints};

use crate::asked::ask;
use crate::lines::push_nsid;
use crate::opened::open_admin;
use crate::peers::Peers;
use crate::printed::print;
use host_link::commands::identify;
use host_link::{Link, LinkSession, SessionFault};
use host_pages::{ListedNsids, NsList};
use std::alloc::Global;
use std::io::Write;

/// Identify: the active namespaces above one (Base 2.0, section 5.17.2.2).
const ACTIVE_NAMESPACES: u8 = 0x02;

/// The most identifiers that one answer lists.
const NSIDS_MAX: usize = 1024;

/// So many lists of that many are all identifiers.
const LISTS_MAX: u32 = 1 << 22;

/// Prints the active namespaces of a controller, one a line.
pub fn list<L: Link + Drop, W: Write>(
    alloc: Global,
    link: L,
    peers: &Peers,
    turns: u64,
    out: &mut W,
) -> Result<(), SessionFault>
    ensures { Lists peers.now turns (L.state link) result (W.contents out.old) (W.contents out.new) }
{
    let mut session = open_admin(alloc, link, peers, turns)?;
    tell_namespaces(alloc, &mut session, out)
}

fn tell_namespaces<L: Link + Drop, W: Write>(
    alloc: Global,
    session: &mut LinkSession<L>,
    out: &mut W,
) -> Result<(), SessionFault>
    ensures { TellsNamespaces session.old result (W.contents out.old) (W.contents out.new) }
{
    let mut above = 0;
    for _ in 0..LISTS_MAX {
        match tell_namespaces_above(alloc, session, above, out)? {
            Some(last) => above = last,
            None => return Ok(()),
        }
    }
    Ok(())
}

fn tell_namespaces_above<L: Link + Drop, W: Write>(
    alloc: Global,
    session: &mut LinkSession<L>,
    above: u32,
    out: &mut W,
) -> Result<Option<u32>, SessionFault>
    ensures { TellsAbove above result session.old session.new (W.contents out.old) (W.contents out.new) }
{
    let list = ask(session, &identify(alloc, ACTIVE_NAMESPACES, above))?;
    print_list(alloc, &list, out)
}

// Prints a list. Its last identifier, where others may follow.
fn print_list<W: Write>(
    alloc: Global,
    list: &[u8],
    out: &mut W,
) -> Result<Option<u32>, SessionFault>
    ensures { PrintsList (nsids_listed list.now) result (W.contents out.old) (W.contents out.new) }
{
    match NsList::read(list) {
        Ok(list) => print_nsids(alloc, list.nsids(), out),
        Err(_) => Err(SessionFault::BadPage),
    }
}

fn print_nsids<W: Write>(
    alloc: Global,
    nsids: ListedNsids<'_>,
    out: &mut W,
) -> Result<Option<u32>, SessionFault>
    ensures { PrintsList nsids.entry result (W.contents out.old) (W.contents out.new) }
{
    let (mut count, mut last) = (0usize, None);
    for nsid in nsids {
        print_nsid(alloc, nsid, out)?;
        count = count.saturating_add(1);
        last = Some(nsid);
    }
    if count == NSIDS_MAX {
        Ok(last)
    } else {
        Ok(None)
    }
}

fn print_nsid<W: Write>(alloc: Global, nsid: u32, out: &mut W) -> Result<(), SessionFault>
    ensures { Prints (nsid_line nsid) result (W.contents out.old) (W.contents out.new) }
{
    let mut line = Vec::new(alloc);
    match push_nsid(&mut line, nsid) {
        Ok(()) => print(out, &mut line),
        // To make a line wants memory alone.
        Err(_) => Err(SessionFault::Memory),
    }
}
