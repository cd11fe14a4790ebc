//! The command `discover`.
ghost use Rattle.std.specs.Prelude.{◌≡◌, ◌<◌, [], Ok, flat_map};
ghost use Rattle.host_pages.specs.declared.progress.Progress.TheVariants.{Asking};
ghost use Rattle.host_pages.specs.Discover.{answers_left, asks};
ghost use Rattle.host_program.specs.Discovering.{Discovers, PrintsAll, ReadsPage, ReadsPart, ShowsRecords, TellsRecords, page_text};
ghost use Rattle.host_program.specs.Lines.{genctr_line, record_line};
ghost use Rattle.host_program.specs.Printed.{Prints};

use crate::asked::ask;
use crate::fault::CommandFault;
use crate::lines::{push_genctr, push_record};
use crate::opened::open_admin;
use crate::peers::Peers;
use crate::printed::print;
use host_link::commands::get_log_page;
use host_link::{Link, LinkSession, SessionFault};
use host_pages::{Discover, DiscoveryPage, DiscoveryRecord, Progress, Records};
use nvt_fields::Nqn;
use std::alloc::Global;
use std::io::Write;

/// The identifier of the discovery log page (Base 2.0, section 5.16.1.23).
const DISCOVERY: u8 = 0x70;

/// Reads the discovery log page as it stood at one moment, and prints it.
pub fn discover<L: Link + Drop, W: Write>(
    alloc: Global,
    link: L,
    host: &Nqn,
    turns: u64,
    out: &mut W,
) -> Result<(), CommandFault>
    ensures { Discovers host.now turns (L.state link) result (W.contents out.old) (W.contents out.new) }
{
    let peers = Peers::of_discovery(alloc, host)?;
    discover_as(alloc, link, &peers, turns, out)
}

fn discover_as<L: Link + Drop, W: Write>(
    alloc: Global,
    link: L,
    peers: &Peers,
    turns: u64,
    out: &mut W,
) -> Result<(), CommandFault>
    ensures { ShowsRecords peers.now turns (L.state link) result (W.contents out.old) (W.contents out.new) }
{
    let mut session = open_admin(alloc, link, peers, turns)?;
    tell_records(alloc, &mut session, out)
}

fn tell_records<L: Link + Drop, W: Write>(
    alloc: Global,
    session: &mut LinkSession<L>,
    out: &mut W,
) -> Result<(), CommandFault>
    ensures { TellsRecords session.old result (W.contents out.old) (W.contents out.new) }
{
    let mut reading = Discover::new(alloc);
    read_page(alloc, session, &mut reading)?;
    match reading.page() {
        Some(page) => print_had(alloc, &page, out),
        // It was read to its end.
        None => Err(CommandFault::Session(SessionFault::BadPage)),
    }
}

fn read_page<L: Link + Drop>(
    alloc: Global,
    session: &mut LinkSession<L>,
    reading: &mut Discover,
) -> Result<(), CommandFault>
    requires { reading.old ≡ asks 0 [] }
    ensures { ReadsPage (asks 0 []) result reading.new session.old session.new }
{
    loop {
        match read_part(alloc, session, reading)? {
            Progress::Asking => {}
            Progress::Done => return Ok(()),
        }
    }
}

// Reads what is asked for next.
fn read_part<L: Link + Drop>(
    alloc: Global,
    session: &mut LinkSession<L>,
    reading: &mut Discover,
) -> Result<Progress, CommandFault>
    ensures reads { ReadsPart reading.old result reading.new session.old session.new }
    ensures fewer { result ≡ Ok Asking → answers_left reading.new < answers_left reading.old }
{
    let read = reading.ask();
    let command = get_log_page(alloc, DISCOVERY, read.offset, read.len);
    match ask(session, &command) {
        Ok(bytes) => Ok(reading.answer(Ok(&bytes))?),
        Err(SessionFault::Status(status)) => Ok(reading.answer(Err(status))?),
        Err(fault) => Err(CommandFault::Session(fault)),
    }
}

fn print_had<W: Write>(
    alloc: Global,
    page: &DiscoveryPage<'_>,
    out: &mut W,
) -> Result<(), CommandFault>
    ensures { PrintsAll (page_text page.now) result (W.contents out.old) (W.contents out.new) }
{
    print_page(alloc, page, out)?;
    Ok(())
}

fn print_page<W: Write>(
    alloc: Global,
    page: &DiscoveryPage<'_>,
    out: &mut W,
) -> Result<(), SessionFault>
    ensures { Prints (page_text page.now) result (W.contents out.old) (W.contents out.new) }
{
    print_genctr(alloc, page.genctr(), page.record_count(), out)?;
    print_records(alloc, page.records(), out)
}

fn print_genctr<W: Write>(
    alloc: Global,
    genctr: u64,
    records: u16,
    out: &mut W,
) -> Result<(), SessionFault>
    ensures { Prints (genctr_line genctr records) result (W.contents out.old) (W.contents out.new) }
{
    let mut line = Vec::new(alloc);
    match push_genctr(&mut line, genctr, records) {
        Ok(()) => print(out, &mut line),
        // To make a line wants memory alone.
        Err(_) => Err(SessionFault::Memory),
    }
}

fn print_records<W: Write>(
    alloc: Global,
    records: Records<'_>,
    out: &mut W,
) -> Result<(), SessionFault>
    ensures { Prints (flat_map record_line records.entry) result (W.contents out.old) (W.contents out.new) }
{
    for found in records {
        print_record(alloc, &found, out)?;
    }
    Ok(())
}

fn print_record<W: Write>(
    alloc: Global,
    found: &DiscoveryRecord<'_>,
    out: &mut W,
) -> Result<(), SessionFault>
    ensures { Prints (record_line found.now) result (W.contents out.old) (W.contents out.new) }
{
    let mut line = Vec::new(alloc);
    match push_record(&mut line, found) {
        Ok(()) => print(out, &mut line),
        // To make a line wants memory alone.
        Err(_) => Err(SessionFault::Memory),
    }
}
