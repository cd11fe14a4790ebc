//! The namespace of a command, and whether it is reached (Base 2.0, section 8.1).
ghost use Rattle.std.specs.Prelude.{◌≡◌, Ok, Err, IfOk, MatchResult};
ghost use Rattle.io_queue.specs.Reach.{FitsDisk, IsSmall, reached, state_verdict};

use crate::queue::IoController;
use config_lists::{AnaState, Namespace};
use nvt_config::Config;
use nvt_fields::Status;
use pdu_codec::Sqe;

/// The namespace that a command of this controller names, which has to be active for the controller's
/// host, and reached through the controller's port. One that the host does not see is inactive for it.
pub(crate) fn reached<'a>(
    config: &'a Config,
    controller: &IoController<'_>,
    sqe: &Sqe<'_>,
) -> Result<&'a Namespace, Status>
    ensures verdict { let verdict = reached config.now controller.now.host.now controller.now.port
        controller.now.subsystem.now sqe.now.entry.now in
        MatchResult result (λ namespace. verdict ≡ Ok namespace.now) (λ status. verdict ≡ Err status) }
    ensures small { IfOk result (λ namespace. IsSmall namespace.now) }
    ensures fits { IfOk result (λ namespace. FitsDisk config.now.units namespace.now) }
{
    let host = controller.host.as_bytes();
    let subsystem = controller.subsystem.as_bytes();
    let Some(namespace) = config.namespace(host, subsystem, sqe.nsid()) else {
        return Err(Status::INVALID_NAMESPACE_OR_FORMAT);
    };
    state_verdict(config.ana_state(controller.port, subsystem, namespace.group))?;
    Ok(namespace)
}

// Whether the namespace is reached in this state.
fn state_verdict(state: AnaState) -> Result<(), Status>
    ensures { result ≡ state_verdict state }
{
    match state {
        AnaState::Optimized | AnaState::NonOptimized => Ok(()),
        AnaState::Inaccessible => Err(Status::ANA_INACCESSIBLE),
        AnaState::PersistentLoss => Err(Status::ANA_PERSISTENT_LOSS),
        AnaState::Change => Err(Status::ANA_TRANSITION),
    }
}
