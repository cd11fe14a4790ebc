//! What a controller's own commands make of what its host is to be told.
ghost use Rattle.std.specs.Prelude.{◌≡◌};
ghost use Rattle.target_decision.specs.Notice.{notices_after, notices_by, notices_followed};

use crate::consequence::{Consequence, Update};
use crate::decision::Decision;
use admin_queue::{Effect, NoticeUpdate, Notices};
use property_regs::Change;

/// A request that waits, and what follows from a reply.
pub(crate) fn note(notices: &mut Notices, decision: &Decision)
    ensures { notices.new ≡ notices_after notices.old decision.now }
{
    match decision {
        Decision::Wait { cid } => notices.update(NoticeUpdate::Requested { cid: *cid }),
        Decision::Reply(reply) => follow(notices, &reply.consequence),
        Decision::Initialize(_)
        | Decision::Request(_)
        | Decision::Receive { .. }
        | Decision::Terminate(_)
        | Decision::Close => {}
    }
}

fn follow(notices: &mut Notices, consequence: &Consequence)
    ensures { notices.new ≡ notices_followed notices.old consequence.now }
{
    match consequence {
        Consequence::Update { update, .. } => follow_update(notices, update),
        Consequence::Nothing | Consequence::Begin(_) | Consequence::Join(_) => {}
    }
}

fn follow_update(notices: &mut Notices, update: &Update)
    ensures { notices.new ≡ notices_by update.now notices.old }
{
    match update {
        Update::Configuration(set) => match set.change {
            Change::Reset => notices.reset(),
            Change::Enable => notices.enable(),
            Change::Shutdown | Change::Stay => {}
        },
        Update::Command(Effect::Notices(update)) => notices.update(*update),
        Update::Command(Effect::Nothing | Effect::KeepAlive | Effect::KeepAliveTimeout(_)) => {}
    }
}
