//! What connections have to send goes to their slots.
ghost use Rattle.std.specs.Prelude.{◌≡◌, ◌<◌, Some};
ghost use Rattle.tables.specs.NumberTable.{place};
ghost use Rattle.nvt_serve.specs.Served.{AreTies, Goes, no_numbers, serving};

use crate::ties::Ties;
use block_store::Disk;
use nvt_ports::{PortFault, Ports};
use target_core::Target;

/// Gives what each connection has to send to its slot, once. A connection whose slot fails is given up.
pub fn give_all<P: Ports, D: Disk + Drop>(ports: &mut P, target: &mut Target<D>, ties: &mut Ties)
    requires { AreTies (P.state ports.old) target.old ties.old }
    ensures ties { AreTies (P.state ports.new) target.new ties.new }
    ensures goes { Goes no_numbers (serving (P.state ports.old) target.old ties.old)
        (serving (P.state ports.new) target.new ties.new) }
{
    let mut least = 0;
    while let Some(k) = ties.ready_from(least) {
        if let Some(slot) = ties.slot_of(k) {
            give(ports, target, ties, slot, k);
        }
        least = k + 1;
    }
}

fn give<P: Ports, D: Disk + Drop>(
    ports: &mut P,
    target: &mut Target<D>,
    ties: &mut Ties,
    slot: usize,
    k: usize,
)
    requires slot { slot < 64 }
    requires k { k < 64 }
    requires tied { place ties.old.connections slot ≡ Some k }
    requires ties { AreTies (P.state ports.old) target.old ties.old }
    ensures ties { AreTies (P.state ports.new) target.new ties.new }
    ensures goes { Goes no_numbers (serving (P.state ports.old) target.old ties.old)
        (serving (P.state ports.new) target.new ties.new) }
{
    let output = target.output(k);
    if output.is_empty() {
        return;
    }
    match ports.give(slot, output) {
        Ok(n) => target.taken(k, n),
        Err(PortFault) => {
            ports.close(slot);
            target.end(k);
            ties.untie(slot, k);
        }
    }
}
