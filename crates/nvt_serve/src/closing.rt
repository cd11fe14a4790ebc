//! Connections that have ended are given up once all that they had to send is taken.
ghost use Rattle.std.specs.Prelude.{◌≡◌, ◌<◌, ℕ, [], false, true};
ghost use Rattle.tables.specs.NumberTable.{place};
ghost use Rattle.nvt_serve.specs.Asking.{HasRooms};
ghost use Rattle.nvt_serve.specs.Looks.{AreEnding};
ghost use Rattle.nvt_serve.specs.Served.{AreTies, Goes, no_numbers, serving};
ghost use Rattle.target_core.specs.Target.{is_ended_at, output_at};

use crate::ties::Ties;
use block_store::Disk;
use nvt_ports::{Ports, SLOTS};
use target_core::Target;

/// Gives up each connection that has ended and has nothing to send, and closes its slot. The rooms of the slots are those
/// that their connections have then.
pub fn close_ended<P: Ports, D: Disk + Drop>(ports: &mut P, target: &mut Target<D>, ties: &mut Ties)
    requires { AreTies (P.state ports.old) target.old ties.old }
    ensures ties { AreTies (P.state ports.new) target.new ties.new }
    ensures goes { Goes no_numbers (serving (P.state ports.old) target.old ties.old)
        (serving (P.state ports.new) target.new ties.new) }
    ensures rooms { HasRooms ties.new.rooms target.new ties.new }
{
    if some_ended(target, ties) {
        close_all(ports, target, ties);
        ties.set_rooms(rooms_of(target, ties));
    } else {
        ties.none_ended();
    }
}

// Whether a connection has ended.
fn some_ended<D: Disk + Drop>(target: &Target<D>, ties: &Ties) -> bool
    requires { AreEnding ties.now.ending.bits target.now }
    ensures { result ≡ false → (k : ℕ) → is_ended_at (place target.now.connections k) ≡ false }
{
    let mut least = 0;
    while let Some(k) = ties.ending_from(least) {
        if target.ended(k) {
            return true;
        }
        least = k + 1;
    }
    false
}

fn close_all<P: Ports, D: Disk + Drop>(ports: &mut P, target: &mut Target<D>, ties: &mut Ties)
    requires { AreTies (P.state ports.old) target.old ties.old }
    ensures ties { AreTies (P.state ports.new) target.new ties.new }
    ensures goes { Goes no_numbers (serving (P.state ports.old) target.old ties.old)
        (serving (P.state ports.new) target.new ties.new) }
{
    let mut least = 0;
    while let Some(k) = ties.known_from(least) {
        if target.ended(k) && target.output(k).is_empty() {
            close(ports, target, ties, k);
        }
        least = k + 1;
    }
}

fn close<P: Ports, D: Disk + Drop>(ports: &mut P, target: &mut Target<D>, ties: &mut Ties, k: usize)
    requires k { k < 64 }
    requires ended { is_ended_at (place target.old.connections k) ≡ true }
    requires output { output_at (place target.old.connections k) ≡ [] }
    requires ties { AreTies (P.state ports.old) target.old ties.old }
    ensures ties { AreTies (P.state ports.new) target.new ties.new }
    ensures goes { Goes no_numbers (serving (P.state ports.old) target.old ties.old)
        (serving (P.state ports.new) target.new ties.new) }
{
    target.end(k);
    match ties.slot_of(k) {
        Some(slot) => {
            ports.close(slot);
            ties.untie(slot, k);
        }
        None => ties.forget(k),
    }
}

// How many bytes the connection of each slot may receive; none where it has none.
fn rooms_of<D: Disk + Drop>(target: &Target<D>, ties: &Ties) -> [usize; SLOTS]
    ensures { HasRooms result target.now ties.now }
{
    let mut rooms = [0; SLOTS];
    for slot in 0..SLOTS {
        if let Some(k) = ties.connection(slot) {
            rooms[slot] = target.room(k);
        }
    }
    rooms
}
