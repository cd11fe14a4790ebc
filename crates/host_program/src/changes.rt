//! The command `changed`.
ghost use Rattle.host_program.specs.Lines.{changed_line};
ghost use Rattle.host_program.specs.Pages.{AwaitsChange, ShowsChanged, TellsChange, TellsList};
ghost use Rattle.host_program.specs.Printed.{Prints};

use crate::asked::{ask, ask_result};
use crate::lines::push_changed;
use crate::opened::open_admin;
use crate::peers::Peers;
use crate::printed::print;
use host_link::commands::{event_request, get_log_page, set_features};
use host_link::{Link, LinkSession, SessionFault};
use host_pages::NsList;
use std::alloc::Global;
use std::io::Write;

/// The feature Asynchronous Event Configuration (Base 2.0, section 5.27.1.8).
const EVENT_CONFIGURATION: u8 = 0x0B;

/// Its bit for namespace attribute notices.
const NAMESPACE_NOTICES: u32 = 1 << 8;

/// The event: a notice, namespace attribute changed, log page 04h.
const NAMESPACE_CHANGED: u64 = 0x0004_0002;

/// The identifier of the Changed Namespace List (Base 2.0, section 5.16.1.5).
const CHANGED_NAMESPACES: u8 = 0x04;

/// Its length, in bytes.
const LIST_LEN: u32 = 4096;

/// Waits for the event of a changed namespace, and prints which changed, or `all` where more did than
/// the list has room for.
pub fn changed<L: Link + Drop, W: Write>(
    alloc: Global,
    link: L,
    peers: &Peers,
    turns: u64,
    out: &mut W,
) -> Result<(), SessionFault>
    ensures { ShowsChanged peers.now turns (L.state link) result (W.contents out.old) (W.contents out.new) }
{
    let mut session = open_admin(alloc, link, peers, turns)?;
    tell_change(alloc, &mut session, out)
}

fn tell_change<L: Link + Drop, W: Write>(
    alloc: Global,
    session: &mut LinkSession<L>,
    out: &mut W,
) -> Result<(), SessionFault>
    ensures { TellsChange session.old result (W.contents out.old) (W.contents out.new) }
{
    let enable = set_features(alloc, EVENT_CONFIGURATION, NAMESPACE_NOTICES);
    ask_result(session, &enable)?;
    await_change(alloc, session, out)
}

fn await_change<L: Link + Drop, W: Write>(
    alloc: Global,
    session: &mut LinkSession<L>,
    out: &mut W,
) -> Result<(), SessionFault>
    ensures { AwaitsChange session.old result (W.contents out.old) (W.contents out.new) }
{
    let event = ask_result(session, &event_request(alloc))?;
    if event != NAMESPACE_CHANGED {
        return Err(SessionFault::BadPage);
    }
    tell_list(alloc, session, out)
}

fn tell_list<L: Link + Drop, W: Write>(
    alloc: Global,
    session: &mut LinkSession<L>,
    out: &mut W,
) -> Result<(), SessionFault>
    ensures { TellsList session.old result (W.contents out.old) (W.contents out.new) }
{
    let list = ask(
        session,
        &get_log_page(alloc, CHANGED_NAMESPACES, 0, LIST_LEN),
    )?;
    print_changed(alloc, &list, out)
}

fn print_changed<W: Write>(alloc: Global, list: &[u8], out: &mut W) -> Result<(), SessionFault>
    ensures { Prints (changed_line list.now) result (W.contents out.old) (W.contents out.new) }
{
    let Ok(list) = NsList::read(list) else {
        return Err(SessionFault::BadPage);
    };
    let mut line = Vec::new(alloc);
    match push_changed(&mut line, &list) {
        Ok(()) => print(out, &mut line),
        // To make a line wants memory alone.
        Err(_) => Err(SessionFault::Memory),
    }
}
