//! An H2CData: more data of a transfer, its last data, or a fault.
ghost use Rattle.std.specs.Prelude.{◌≡◌};
ghost use Rattle.target_decision.specs.Capsule.{finished};
ghost use Rattle.target_decision.specs.Decision.{completed, received};
ghost use Rattle.target_decision.specs.Transfer.{tags_in};
ghost use Rattle.target_decision.specs.World.{world_in};

use crate::capsule::{Outcome, owed, refused};
use crate::decision::{Decision, terminate};
use crate::io;
use crate::session::{ConnectionState, Role, Session};
use crate::transfer::{OwnTransfers, WaitingCommand};
use crate::world::World;
use data_transfer::Progress;
use nvt_fields::{PduType, Status};
use pdu_codec::DataHead;
use pdu_cut::PduView;

/// What is owed to an H2CData.
pub(crate) fn decide(
    world: &World<'_>,
    v: &ConnectionState,
    own: &OwnTransfers<'_>,
    pdu: &PduView<'_>,
) -> Decision
    requires { pdu.now.kind ≡ PduType.H2cData }
    ensures { result ≡ received (world_in world.now) v.now (tags_in own.now) pdu.now }
{
    let head = DataHead::read(pdu.header());
    match own.check(&head, pdu.data()) {
        Ok(Progress::More) => Decision::Receive { ttag: head.ttag },
        Ok(Progress::Whole) => completed(world, v, own, &head),
        Err(fault) => terminate(fault.fes(), fault.fei()),
    }
}

// All data of a command have come, with those of this head.
fn completed(
    world: &World<'_>,
    v: &ConnectionState,
    own: &OwnTransfers<'_>,
    head: &DataHead,
) -> Decision
    ensures { let part = tags_in own.now head.now.ttag in
        result ≡ completed (world_in world.now) v.now head.now part }
{
    match own.command(head.ttag) {
        Some(command) => {
            let came = u64::from(head.datao) + u64::from(head.datal);
            let outcome = finished(world, &v.session, command, came);
            owed(&v.session, head.cccid, Some(head.ttag), outcome)
        }
        None => Decision::Close,
    }
}

fn finished(world: &World<'_>, session: &Session, command: &WaitingCommand, came: u64) -> Outcome
    ensures { result ≡ finished (world_in world.now) session.now command.now.entry came }
{
    match session {
        Session::Connected {
            role: Role::Io { cntlid, .. },
            ..
        } => io::finished(world, *cntlid, command, came),
        Session::Connected {
            role: Role::Admin { .. },
            ..
        }
        | Session::Opened
        | Session::Initialized
        | Session::Ended => refused(Status::COMMAND_SEQUENCE_ERROR),
    }
}
