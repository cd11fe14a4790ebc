//! The command `ana`.
ghost use Rattle.std.specs.Prelude.{flat_map};
ghost use Rattle.host_pages.specs.AnaLog.{fault_of};
ghost use Rattle.host_program.specs.Lines.{change_line, group_line};
ghost use Rattle.host_program.specs.Pages.{PrintsPage, ShowsAna, TellsGroups, log_text};
ghost use Rattle.host_program.specs.Printed.{Prints};

use crate::asked::ask;
use crate::lines::{push_change, push_group};
use crate::opened::open_admin;
use crate::peers::Peers;
use crate::printed::print;
use host_link::commands::get_log_page;
use host_link::{Link, LinkSession, SessionFault};
use host_pages::{AnaGroup, AnaLog, Groups};
use std::alloc::Global;
use std::io::Write;

/// The identifier of the log page (Base 2.0, section 5.16.1.13).
const ASYMMETRIC_NAMESPACE_ACCESS: u8 = 0x0C;

/// How much of it is read, in bytes.
const READ_LEN: u32 = 4096;

/// Reads the Asymmetric Namespace Access log page, and prints its groups.
pub fn ana<L: Link + Drop, W: Write>(
    alloc: Global,
    link: L,
    peers: &Peers,
    turns: u64,
    out: &mut W,
) -> Result<(), SessionFault>
    ensures { ShowsAna peers.now turns (L.state link) result (W.contents out.old) (W.contents out.new) }
{
    let mut session = open_admin(alloc, link, peers, turns)?;
    tell_groups(alloc, &mut session, out)
}

fn tell_groups<L: Link + Drop, W: Write>(
    alloc: Global,
    session: &mut LinkSession<L>,
    out: &mut W,
) -> Result<(), SessionFault>
    ensures { TellsGroups session.old result (W.contents out.old) (W.contents out.new) }
{
    let command = get_log_page(alloc, ASYMMETRIC_NAMESPACE_ACCESS, 0, READ_LEN);
    let page = ask(session, &command)?;
    print_page(alloc, &page, out)
}

fn print_page<W: Write>(alloc: Global, page: &[u8], out: &mut W) -> Result<(), SessionFault>
    ensures { PrintsPage (fault_of page.now) (log_text page.now) result (W.contents out.old) (W.contents out.new) }
{
    match AnaLog::read(page) {
        Ok(log) => print_log(alloc, &log, out),
        Err(_) => Err(SessionFault::BadPage),
    }
}

fn print_log<W: Write>(alloc: Global, log: &AnaLog<'_>, out: &mut W) -> Result<(), SessionFault>
    ensures { Prints (log_text log.now) result (W.contents out.old) (W.contents out.new) }
{
    print_change(alloc, log.change(), log.group_count(), out)?;
    print_groups(alloc, log.groups(), out)
}

fn print_change<W: Write>(
    alloc: Global,
    change: u64,
    groups: u16,
    out: &mut W,
) -> Result<(), SessionFault>
    ensures { Prints (change_line change groups) result (W.contents out.old) (W.contents out.new) }
{
    let mut line = Vec::new(alloc);
    match push_change(&mut line, change, groups) {
        Ok(()) => print(out, &mut line),
        // To make a line wants memory alone.
        Err(_) => Err(SessionFault::Memory),
    }
}

fn print_groups<W: Write>(
    alloc: Global,
    groups: Groups<'_>,
    out: &mut W,
) -> Result<(), SessionFault>
    ensures { Prints (flat_map group_line groups.entry) result (W.contents out.old) (W.contents out.new) }
{
    for group in groups {
        print_group(alloc, &group, out)?;
    }
    Ok(())
}

fn print_group<W: Write>(
    alloc: Global,
    group: &AnaGroup<'_>,
    out: &mut W,
) -> Result<(), SessionFault>
    ensures { Prints (group_line group.now) result (W.contents out.old) (W.contents out.new) }
{
    let mut line = Vec::new(alloc);
    match push_group(&mut line, group) {
        Ok(()) => print(out, &mut line),
        // To make a line wants memory alone.
        Err(_) => Err(SessionFault::Memory),
    }
}
