//! Identify (Base 2.0, section 5.17).
ghost use Rattle.std.specs.Prelude.{◌≡◌};
ghost use Rattle.nvt_config.specs.SeenBy.{seen_by};
ghost use Rattle.admin_queue.specs.Controller.{controller_in};
ghost use Rattle.admin_queue.specs.Identify.{identify, structure_asked, structure_of};

use crate::controller::AdminController;
use crate::outcome::{Effect, Outcome, returned};
use crate::payload::{Payload, Structure};
use config_lists::namespace::is_nsid;
use nvt_config::Config;
use nvt_fields::Status;
use pdu_codec::{Identify, Sqe};

// What to return: Controller or Namespace Structure (CNS).
const NAMESPACE: u8 = 0x00;

const CONTROLLER: u8 = 0x01;

const ACTIVE_LIST: u8 = 0x02;

const DESCRIPTORS: u8 = 0x03;

/// From here on identifiers name no namespace that a list could begin behind.
const LIST_END: u32 = 0xFFFF_FFFE;

pub(crate) fn command(config: &Config, controller: &AdminController<'_>, sqe: &Sqe<'_>) -> Outcome
    ensures { result ≡ identify config.now (controller_in controller.now) sqe.now.entry.now }
{
    let structure = structure_asked(config, controller, &Identify::read(sqe))?;
    returned(Payload::Identify(structure), Effect::Nothing, sqe)
}

fn structure_asked(
    config: &Config,
    controller: &AdminController<'_>,
    request: &Identify,
) -> Result<Structure, Status>
    ensures { result ≡ structure_asked config.now (controller_in controller.now) request.now }
{
    match (controller.subsystem, request.cns) {
        (_, CONTROLLER) => Ok(Structure::Controller),
        (Some(subsystem), cns) => {
            let (host, subsystem) = (controller.host.as_bytes(), subsystem.as_bytes());
            structure_of(config, host, subsystem, cns, request.nsid)
        }
        (None, _) => Err(Status::INVALID_FIELD),
    }
}

// What a controller of this subsystem tells its host of the namespaces.
fn structure_of(
    config: &Config,
    host: &[u8],
    subsystem: &[u8],
    cns: u8,
    nsid: u32,
) -> Result<Structure, Status>
    ensures { result ≡ structure_of (seen_by config.now host.now) subsystem.now cns nsid }
{
    match cns {
        NAMESPACE if is_nsid(u64::from(nsid)) => Ok(Structure::Namespace(nsid)),
        ACTIVE_LIST if nsid < LIST_END => Ok(Structure::ActiveList(nsid)),
        DESCRIPTORS if config.namespace(host, subsystem, nsid).is_some() => {
            Ok(Structure::Descriptors(nsid))
        }
        NAMESPACE | ACTIVE_LIST | DESCRIPTORS => Err(Status::INVALID_NAMESPACE_OR_FORMAT),
        _ => Err(Status::INVALID_FIELD),
    }
}
