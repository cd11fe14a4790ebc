//! What a Connect comes to (Base 2.0, section 6.3): the controllers decide whom they admit.
ghost use Rattle.std.specs.Prelude.{◌≡◌};
ghost use Rattle.target_decision.specs.Connect.{admitted, connect_on};
ghost use Rattle.target_decision.specs.World.{world_in};

use crate::capsule::{Outcome, Refusal, done};
use crate::consequence::{Beginning, Consequence, Joining};
use crate::world::World;
use fabrics_connect::{AdmitAs, Connect, decide};
use pdu_codec::Sqe;

/// Answers a Connect on this port.
pub(crate) fn command(world: &World<'_>, port: u16, sqe: &Sqe<'_>, payload: &[u8]) -> Outcome
    ensures { result ≡ connect_on (world_in world.now) port sqe.now.entry.now payload.now }
{
    let connect = Connect::new(sqe, payload);
    match decide(world.config, world.rows, port, &connect) {
        fabrics_connect::Decision::Admit(admission) => admitted(&admission, sqe),
        fabrics_connect::Decision::Deny { status, result } => Err(Refusal { status, result }),
    }
}

// A controller or a queue, with what the Connect says of it.
fn admitted(admission: &AdmitAs, sqe: &Sqe<'_>) -> Outcome
    ensures { result ≡ admitted admission.now sqe.now.entry.now }
{
    let pdu_codec::Connect { sqsize, kato, .. } = pdu_codec::Connect::read(sqe);
    match *admission {
        AdmitAs::Controller(controller) => done(
            u64::from(controller.cntlid),
            Consequence::Begin(Beginning {
                controller,
                sqsize,
                kato,
            }),
        ),
        AdmitAs::Queue { cntlid, qid } => done(
            u64::from(cntlid),
            Consequence::Join(Joining {
                cntlid,
                qid,
                sqsize,
            }),
        ),
    }
}
