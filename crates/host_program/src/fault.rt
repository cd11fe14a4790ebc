//! Why a command ends before its end.
ghost use Rattle.std.specs.Prelude.{◌≡◌};

use host_link::SessionFault;
use host_pages::DiscoverFault;
use std::alloc::AllocError;
use thiserror::Error;

/// Why a command ends before its end.
#[derive(Clone, Copy, Debug, PartialEq, Eq, Error)]
pub enum CommandFault {
    /// The conversation with the controller ends.
    #[error("{0}")]
    Session(SessionFault),
    /// The discovery log page changed in each of eight tries to read it.
    #[error("unsettled")]
    Unsettled,
}

impl From<SessionFault> for CommandFault {
    ghost use Rattle.host_program.specs.declared.fault.CommandFault.TheVariants as fault;

    ghost from_gives = { λ f e. e ≡ fault.Session f };

    fn from(fault: SessionFault) -> CommandFault {
        CommandFault::Session(fault)
    }
}

impl From<AllocError> for CommandFault {
    ghost use Rattle.host_link.specs.declared.fault.SessionFault.TheVariants as session;
    ghost use Rattle.host_program.specs.declared.fault.CommandFault.TheVariants as fault;

    ghost from_gives = { λ _ e. e ≡ fault.Session session.Memory };

    fn from(_: AllocError) -> CommandFault {
        CommandFault::Session(SessionFault::Memory)
    }
}

impl From<DiscoverFault> for CommandFault {
    ghost use Rattle.host_program.specs.Fault.{of_discovery};

    ghost from_gives = { λ f e. e ≡ of_discovery f };

    fn from(fault: DiscoverFault) -> CommandFault {
        match fault {
            DiscoverFault::Refused(status) => CommandFault::Session(SessionFault::Status(status)),
            DiscoverFault::BadPage(_) => CommandFault::Session(SessionFault::BadPage),
            DiscoverFault::Unsettled => CommandFault::Unsettled,
            DiscoverFault::Memory => CommandFault::Session(SessionFault::Memory),
        }
    }
}
