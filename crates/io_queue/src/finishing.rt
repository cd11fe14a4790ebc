//! A command whose data has come: what it does then, by the configuration of then.
ghost use Rattle.std.specs.Prelude.{◌≡◌, IfOk};
ghost use Rattle.io_queue.specs.Finishing.{covered, finish, on_namespace_again};
ghost use Rattle.io_queue.specs.Operation.{IsWithin};
ghost use Rattle.io_queue.specs.Reach.{IsSmall};

use crate::blocks::{data_len, in_range};
use crate::opcode::IoOpcode;
use crate::operation::{Action, Extent, Operation};
use crate::queue::IoController;
use crate::reach::reached;
use config_lists::Namespace;
use nvt_config::Config;
use nvt_fields::Status;
use pdu_codec::{BlockCommand, Sqe};

/// What a Write or a Compare of this controller does, for which so many bytes came, or the status that it
/// is refused with: its namespace and whether the host sees it, its ANA state, its range and its length
/// are looked at again.
pub fn finish(
    config: &Config,
    controller: &IoController<'_>,
    sqe: &Sqe<'_>,
    came: u64,
) -> Result<Operation, Status>
    ensures finished { result ≡ finish config.now controller.now.host.now controller.now.port
        controller.now.subsystem.now sqe.now.entry.now came }
    ensures within { IfOk result (IsWithin config.now.units came) }
{
    let namespace = reached(config, controller, sqe)?;
    on_namespace_again(namespace, IoOpcode::from_code(sqe.opcode()), sqe, came)
}

fn on_namespace_again(
    namespace: &Namespace,
    opcode: Option<IoOpcode>,
    sqe: &Sqe<'_>,
    came: u64,
) -> Result<Operation, Status>
    requires { IsSmall namespace.now }
    ensures { result ≡ on_namespace_again namespace.now opcode sqe.now.entry.now came }
{
    let command = BlockCommand::read(sqe);
    match opcode {
        Some(IoOpcode::Write) => Ok(Operation {
            extent: covered(namespace, &command, came)?,
            action: Action::Write {
                at: 0,
                fua: command.fua,
            },
        }),
        Some(IoOpcode::Compare) => Ok(Operation {
            extent: covered(namespace, &command, came)?,
            action: Action::Compare { at: 0 },
        }),
        Some(IoOpcode::Flush | IoOpcode::Read | IoOpcode::WriteZeroes) | None => {
            Err(Status::INVALID_OPCODE)
        }
    }
}

// The extent of a command, whose blocks have to have as many bytes as came.
fn covered(namespace: &Namespace, command: &BlockCommand, came: u64) -> Result<Extent, Status>
    requires { IsSmall namespace.now }
    ensures { result ≡ covered namespace.now command.now came }
{
    let extent = in_range(namespace, command)?;
    if data_len(namespace, command) != came {
        return Err(Status::DATA_SGL_LENGTH_INVALID);
    }
    Ok(extent)
}
