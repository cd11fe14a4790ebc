//! I/O commands of a controller that is ready.
ghost use Rattle.std.specs.Prelude.{◌≡◌};
ghost use Rattle.std.specs.Option.{option_copied};
ghost use Rattle.target_decision.specs.Capsule.{finished_by, io_begun, io_at, io_by, io_finished};
ghost use Rattle.target_decision.specs.World.{world_in};

use crate::capsule::{Outcome, Served, performed, refused};
use crate::transfer::WaitingCommand;
use crate::world::World;
use fabrics_connect::Row;
use io_queue::{Begun, IoController, Operation, begin, finish};
use nvt_fields::Status;
use pdu_codec::Sqe;

/// Answers an I/O command of the controller of this identifier, which has to be ready, and has a
/// subsystem. Its capsule brings so many bytes of data.
pub(crate) fn command(world: &World<'_>, cntlid: u16, sqe: &Sqe<'_>, brings: u64) -> Outcome
    ensures { result ≡ io_at (world_in world.now) cntlid sqe.now.entry.now brings }
{
    command_by(world, world.rows.get(cntlid), sqe, brings)
}

fn command_by(world: &World<'_>, row: Option<&Row>, sqe: &Sqe<'_>, brings: u64) -> Outcome
    ensures { let row = option_copied row.entry in
        result ≡ io_by row (world_in world.now) sqe.now.entry.now brings }
{
    match row {
        Some(
            Row {
                ready: true,
                host,
                port,
                subsystem: Some(subsystem),
                ..
            },
        ) => {
            let controller = IoController {
                host,
                port: *port,
                subsystem,
            };
            begun(begin(world.config, &controller, sqe, brings))
        }
        _ => refused(Status::COMMAND_SEQUENCE_ERROR),
    }
}

// The outcome of a command that begins so, or is refused.
fn begun(begun: Result<Begun, Status>) -> Outcome
    ensures { result ≡ io_begun begun }
{
    match begun {
        Ok(Begun::Perform(operation)) => performed(operation),
        Ok(Begun::Receive(len)) => Ok(Served::Asked(len)),
        Err(status) => refused(status),
    }
}

/// Answers an I/O command of the controller of this identifier, for which so many bytes of data came.
/// Whether the controller is ready is not asked again.
pub(crate) fn finished(
    world: &World<'_>,
    cntlid: u16,
    command: &WaitingCommand,
    came: u64,
) -> Outcome
    ensures { let row = (world_in world.now).row cntlid in
        result ≡ finished_by row (world_in world.now) command.now.entry came }
{
    finished_by(world, world.rows.get(cntlid), command, came)
}

fn finished_by(world: &World<'_>, row: Option<&Row>, command: &WaitingCommand, came: u64) -> Outcome
    ensures { let row = option_copied row.entry in
        result ≡ finished_by row (world_in world.now) command.now.entry came }
{
    match row {
        Some(
            Row {
                host,
                port,
                subsystem: Some(subsystem),
                ..
            },
        ) => {
            let controller = IoController {
                host,
                port: *port,
                subsystem,
            };
            let sqe = Sqe {
                entry: &command.entry,
            };
            ended(finish(world.config, &controller, &sqe, came))
        }
        _ => refused(Status::COMMAND_SEQUENCE_ERROR),
    }
}

fn ended(finished: Result<Operation, Status>) -> Outcome
    ensures { result ≡ io_finished finished }
{
    match finished {
        Ok(operation) => performed(operation),
        Err(status) => refused(status),
    }
}
