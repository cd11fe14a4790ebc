//! A command at its capsule: the checks of NVM Command Set 1.0, section 3, in their order.
ghost use Rattle.std.specs.Prelude.{◌≡◌, IfOk};
ghost use Rattle.io_queue.specs.Beginning.{IsBegunWithin, begin, compare_begun, on_namespace, locate, locate_at, read, write_begun};
ghost use Rattle.io_queue.specs.Reach.{IsSmall};

use crate::blocks::{data_len, in_range, limited};
use crate::opcode::IoOpcode;
use crate::operation::{Action, Extent, Operation};
use crate::queue::IoController;
use crate::reach::reached;
use config_lists::Namespace;
use nvt_config::Config;
use nvt_fields::Status;
use pdu_codec::{BlockCommand, Sgl, SglType, Sqe};

/// What a command begins.
#[derive(Clone, Copy, Debug, PartialEq, Eq)]
pub enum Begun {
    /// This is done to its disk.
    Perform(Operation),
    /// The host is to be asked for so many bytes of data, at most 131,072; `finish` says then what the
    /// command does.
    Receive(u32),
}

// Where the data of a Write or a Compare are.
#[derive(Clone, Copy)]
pub(crate) enum Placed {
    /// In its capsule, from this offset on; they are for this extent.
    InCapsule { extent: Extent, at: u64 },
    /// So many bytes are to come.
    ToCome(u32),
}

/// What a command of this controller, which has to be ready, begins, or the status that it is refused
/// with (NVM Command Set 1.0, section 3). Its capsule brings so many bytes of data.
pub fn begin(
    config: &Config,
    controller: &IoController<'_>,
    sqe: &Sqe<'_>,
    capsule_len: u64,
) -> Result<Begun, Status>
    ensures begun { result ≡ begin config.now controller.now.host.now controller.now.port
        controller.now.subsystem.now sqe.now.entry.now capsule_len }
    ensures within { IfOk result (IsBegunWithin config.now.units capsule_len) }
{
    let Some(opcode) = IoOpcode::from_code(sqe.opcode()) else {
        return Err(Status::INVALID_OPCODE);
    };
    let namespace = reached(config, controller, sqe)?;
    on_namespace(namespace, opcode, sqe, capsule_len)
}

fn on_namespace(
    namespace: &Namespace,
    opcode: IoOpcode,
    sqe: &Sqe<'_>,
    capsule_len: u64,
) -> Result<Begun, Status>
    requires { IsSmall namespace.now }
    ensures { result ≡ on_namespace namespace.now opcode sqe.now.entry.now capsule_len }
{
    let command = BlockCommand::read(sqe);
    let sgl = sqe.sgl1();
    match opcode {
        IoOpcode::Flush => Ok(Begun::Perform(Operation {
            extent: Extent::none(namespace.disk),
            action: Action::Flush,
        })),
        IoOpcode::Read => Ok(Begun::Perform(read(namespace, &command, &sgl)?)),
        IoOpcode::Write => {
            let placed = locate(namespace, &command, &sgl, capsule_len)?;
            Ok(write_begun(command.fua, placed))
        }
        IoOpcode::Compare => {
            let placed = locate(namespace, &command, &sgl, capsule_len)?;
            Ok(compare_begun(placed))
        }
        IoOpcode::WriteZeroes => Ok(Begun::Perform(Operation {
            extent: in_range(namespace, &command)?,
            action: Action::WriteZeroes { fua: command.fua },
        })),
    }
}

// A Read gives all its data to the host, in a transport data block.
fn read(namespace: &Namespace, command: &BlockCommand, sgl: &Sgl) -> Result<Operation, Status>
    requires { IsSmall namespace.now }
    ensures { result ≡ read namespace.now command.now sgl.now }
{
    let extent = limited(namespace, command)?;
    if sgl.sgl_type != SglType::Transport {
        return Err(Status::SGL_TYPE_INVALID);
    }
    if u64::from(sgl.len) != data_len(namespace, command) {
        return Err(Status::DATA_SGL_LENGTH_INVALID);
    }
    Ok(Operation {
        extent,
        action: Action::Read,
    })
}

// A Write or a Compare takes all its data from the capsule, which brings so many bytes, or in a
// transport data block.
fn locate(
    namespace: &Namespace,
    command: &BlockCommand,
    sgl: &Sgl,
    capsule_len: u64,
) -> Result<Placed, Status>
    requires { IsSmall namespace.now }
    ensures { result ≡ locate namespace.now command.now sgl.now capsule_len }
{
    let extent = limited(namespace, command)?;
    if sgl.sgl_type != SglType::CapsuleOffset && sgl.sgl_type != SglType::Transport {
        return Err(Status::SGL_TYPE_INVALID);
    }
    if u64::from(sgl.len) != data_len(namespace, command) {
        return Err(Status::DATA_SGL_LENGTH_INVALID);
    }
    locate_at(extent, sgl, capsule_len)
}

fn locate_at(extent: Extent, sgl: &Sgl, capsule_len: u64) -> Result<Placed, Status>
    ensures { result ≡ locate_at extent sgl.now capsule_len }
{
    if sgl.sgl_type == SglType::Transport {
        return Ok(Placed::ToCome(sgl.len));
    }
    if sgl.address > capsule_len || u64::from(sgl.len) > capsule_len - sgl.address {
        return Err(Status::SGL_OFFSET_INVALID);
    }
    Ok(Placed::InCapsule {
        extent,
        at: sgl.address,
    })
}

fn write_begun(fua: bool, placed: Placed) -> Begun
    ensures { result ≡ write_begun fua placed }
{
    match placed {
        Placed::InCapsule { extent, at } => Begun::Perform(Operation {
            extent,
            action: Action::Write { at, fua },
        }),
        Placed::ToCome(len) => Begun::Receive(len),
    }
}

fn compare_begun(placed: Placed) -> Begun
    ensures { result ≡ compare_begun placed }
{
    match placed {
        Placed::InCapsule { extent, at } => Begun::Perform(Operation {
            extent,
            action: Action::Compare { at },
        }),
        Placed::ToCome(len) => Begun::Receive(len),
    }
}
