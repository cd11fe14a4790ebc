//! What ports hand out goes to the target.
ghost use Rattle.std.specs.Prelude.{◌≡◌, ◌<◌, length};
ghost use Rattle.tables.specs.NumberTable.{place};
ghost use Rattle.nvt_serve.specs.Asking.{EditsBy, EndsSlot, HasRooms, OpensBy, ReceivesIn, numbers_by};
ghost use Rattle.nvt_serve.specs.Served.{AreTies, Goes, IsTiedWithin, serving};

use crate::reply::reply_to;
use crate::ties::Ties;
use block_store::Disk;
use edit_lines::make_line;
use nvt_ports::{PortEvent, Ports};
use target_core::Target;

/// What is counted of what ports hand out.
#[derive(Clone, Copy, PartialEq, Eq)]
pub enum Counted {
    Opened,
    Edited,
    /// A connection was not opened, or an edit not made.
    Refused,
    Nothing,
}

/// Asks the ports once what is next, and does it.
pub fn ask<P: Ports, D: Disk + Drop>(
    ports: &mut P,
    target: &mut Target<D>,
    ties: &mut Ties,
    buf: &mut [u8],
) -> Counted
    requires buf { length buf.old ≡ 32768 }
    requires ties { AreTies (P.state ports.old) target.old ties.old }
    requires rooms { HasRooms ties.old.rooms target.old ties.old }
    ensures len { length buf.new ≡ length buf.old }
    ensures ties { AreTies (P.state ports.new) target.new ties.new }
    ensures goes { Goes (numbers_by result) (serving (P.state ports.old) target.old ties.old)
        (serving (P.state ports.new) target.new ties.new) }
{
    match ports.next(ties.rooms(), buf) {
        PortEvent::Open { slot, port } => open(ports, target, ties, slot, port),
        PortEvent::Bytes { slot, n } => {
            receive(target, ties, slot, &buf[..n]);
            Counted::Nothing
        }
        PortEvent::End { slot } => {
            end(ports, target, ties, slot);
            Counted::Nothing
        }
        PortEvent::Line { n } => {
            ties.edited();
            edit(ports, target, &buf[..n])
        }
        PortEvent::Tick { ms } => {
            target.tick(ms);
            ties.ticked();
            Counted::Nothing
        }
        PortEvent::Nothing => Counted::Nothing,
    }
}

// Opens a connection in a slot, or closes the slot.
fn open<P: Ports, D: Disk + Drop>(
    ports: &mut P,
    target: &mut Target<D>,
    ties: &mut Ties,
    slot: usize,
    port: u16,
) -> Counted
    requires slot { slot < 64 }
    ensures { OpensBy slot port result (serving (P.state ports.old) target.old ties.old)
        (serving (P.state ports.new) target.new ties.new) ties.old ties.new }
{
    match target.open(port) {
        Ok(k) => {
            ties.tie(slot, k, target.room(k));
            Counted::Opened
        }
        Err(_) => {
            ports.close(slot);
            Counted::Refused
        }
    }
}

// The slot's connection receives bytes, for which it has room.
fn receive<D: Disk + Drop>(target: &mut Target<D>, ties: &mut Ties, slot: usize, bytes: &[u8])
    requires slot { slot < 64 }
    requires within { IsTiedWithin ties.old.connections }
    ensures { ReceivesIn slot (place ties.old.connections slot) bytes.now target.old target.new ties.old ties.new }
{
    if let Some(k) = ties.connection(slot) {
        let _ = target.receive(k, bytes);
        ties.came(slot, k, target.room(k));
    }
}

// A slot's host is gone: its connection is given up, and the slot closed.
fn end<P: Ports, D: Disk + Drop>(
    ports: &mut P,
    target: &mut Target<D>,
    ties: &mut Ties,
    slot: usize,
)
    requires slot { slot < 64 }
    requires ties { AreTies (P.state ports.old) target.old ties.old }
    ensures { EndsSlot slot (place ties.old.connections slot) (serving (P.state ports.old) target.old ties.old)
        (serving (P.state ports.new) target.new ties.new) ties.old ties.new }
{
    if let Some(k) = ties.connection(slot) {
        target.end(k);
        ties.untie(slot, k);
    }
    ports.close(slot);
}

// Makes the edit of a line, or not, and answers it; the ports learn the configuration that it made.
fn edit<P: Ports, D: Disk + Drop>(ports: &mut P, target: &mut Target<D>, line: &[u8]) -> Counted
    ensures { EditsBy line.now result (P.state ports.old) (P.state ports.new) target.old target.new }
{
    let made = make_line(target.allocator(), target, line);
    ports.reply(reply_to(made).as_bytes());
    match made {
        Ok(()) => {
            ports.refresh(target.config());
            Counted::Edited
        }
        Err(_) => Counted::Refused,
    }
}
