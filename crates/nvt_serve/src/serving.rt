//! Turns of a target that is served.
ghost use Rattle.std.specs.Prelude.{◌≡◌, ◌<◌, ◌+◌, ◌-◌, ◌^◌, length};
ghost use Rattle.nvt_serve.specs.Asking.{numbers_by};
ghost use Rattle.nvt_serve.specs.Served.{AreTies, GoesOn, IsQuiet, IsWithin, Serves, numbers_of, serving, sum_of};

use crate::asking::{Counted, ask};
use crate::closing::close_ended;
use crate::giving::give_all;
use crate::served::Served;
use crate::stepping::step_all;
use crate::ties::Ties;
use block_store::Disk;
use nvt_ports::{PIECE_MAX, Ports};
use target_core::Target;

/// Serves a target for so many turns. In each of them what connections have to send is given to their slots, once
/// each; those that have ended and have nothing to send are given up; the ports are asked once what is next; and
/// each connection steps, in rising number, until it has something to send, has ended, or has nothing to do. A step
/// that lacks memory is made again in the next turn.
pub fn serve<P: Ports, D: Disk + Drop>(ports: &mut P, target: &mut Target<D>, turns: u64) -> Served
    ensures { Serves turns result (P.state ports.old) (P.state ports.new) target.old target.new }
{
    let mut ties = Ties::of(target);
    let mut served = Served {
        turns: 0,
        opened: 0,
        edits: 0,
        refused: 0,
        memory: 0,
    };
    let mut buf = [0; PIECE_MAX];
    for _ in 0..turns {
        turn(ports, target, &mut ties, &mut buf, &mut served);
    }
    served
}

fn turn<P: Ports, D: Disk + Drop>(
    ports: &mut P,
    target: &mut Target<D>,
    ties: &mut Ties,
    buf: &mut [u8],
    served: &mut Served,
)
    requires buf { length buf.old ≡ 32768 }
    requires ties { AreTies (P.state ports.old) target.old ties.old }
    requires turns { served.old.turns < 2 ^ 64 - 1 }
    requires within { IsWithin served.old }
    ensures within { IsWithin served.new }
    ensures turns { served.new.turns ≡ served.old.turns + 1 }
    ensures len { length buf.new ≡ length buf.old }
    ensures ties { AreTies (P.state ports.new) target.new ties.new }
    ensures goes { GoesOn served.old served.new (serving (P.state ports.old) target.old ties.old)
        (serving (P.state ports.new) target.new ties.new) }
    ensures quiet { served.new.memory ≡ 0 → IsQuiet target.new }
{
    give_all(ports, target, ties);
    close_ended(ports, target, ties);
    count(served, ask(ports, target, ties, buf));
    served.memory = step_all(target, ties);
}

fn count(served: &mut Served, counted: Counted)
    requires turns { served.old.turns < 2 ^ 64 - 1 }
    requires within { IsWithin served.old }
    ensures within { IsWithin served.new }
    ensures counted { numbers_of served.new ≡ sum_of (numbers_of served.old) (numbers_by counted) }
{
    served.turns += 1;
    match counted {
        Counted::Opened => served.opened += 1,
        Counted::Edited => served.edits += 1,
        Counted::Refused => served.refused += 1,
        Counted::Nothing => {}
    }
}
