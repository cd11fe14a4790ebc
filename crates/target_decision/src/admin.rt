//! Admin commands of a controller that is ready.
ghost use Rattle.std.specs.Prelude.{◌≡◌};
ghost use Rattle.target_decision.specs.Capsule.{admin_answered, admin_at};
ghost use Rattle.target_decision.specs.World.{world_in};

use crate::capsule::{Outcome, given, is_ready, refused, waits};
use crate::consequence::{Consequence, Update};
use crate::world::World;
use admin_queue::{Accepted, Notices, admin};
use nvt_fields::Status;
use pdu_codec::Sqe;

/// Answers an admin command of the controller of this identifier, which has to be ready.
pub(crate) fn command(world: &World<'_>, notices: &Notices, cntlid: u16, sqe: &Sqe<'_>) -> Outcome
    ensures { result ≡ admin_at (world_in world.now) notices.now cntlid sqe.now.entry.now }
{
    let row = world.rows.get(cntlid);
    match world.admin_controller_by(notices, cntlid, row) {
        Some(controller) if is_ready(row) => {
            answered(cntlid, admin(world.pages, world.config, &controller, sqe))
        }
        _ => refused(Status::COMMAND_SEQUENCE_ERROR),
    }
}

// The outcome of a command of this controller, with what it changes of it.
fn answered(cntlid: u16, outcome: admin_queue::Outcome) -> Outcome
    ensures { result ≡ admin_answered cntlid outcome }
{
    match outcome {
        Ok(Accepted::Answered(success)) => given(
            success.result,
            success.payload,
            Consequence::Update {
                cntlid,
                update: Update::Command(success.effect),
            },
        ),
        Ok(Accepted::Waits) => waits(),
        Err(status) => refused(status),
    }
}
