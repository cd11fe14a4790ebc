//! Why a conversation ends before its end.
ghost use Rattle.std.specs.Prelude.{◌≡◌};

use crate::link::LinkFault;
use host_driver::HostFault;
use nvt_fields::Status;
use std::alloc::AllocError;
use thiserror::Error;

/// Why a conversation with a controller ends before its end.
#[derive(Clone, Copy, Debug, PartialEq, Eq, Error)]
pub enum SessionFault {
    /// The queue failed, or refused a command.
    #[error("{0}")]
    Queue(HostFault),
    /// A command was answered with this status.
    #[error("status {:02x} {:02x}", .0.sct, .0.sc)]
    Status(Status),
    /// An answer is none that the command may have.
    #[error("bad page")]
    BadPage,
    /// The link is at its end, or failed; or what is told of the answers could not be written.
    #[error("io")]
    Io,
    /// No turn is left.
    #[error("turns")]
    Turns,
    /// An allocation was refused.
    #[error("memory")]
    Memory,
}

impl From<HostFault> for SessionFault {
    ghost use Rattle.host_link.specs.Fault.{of_queue};

    ghost from_gives = { λ fault e. e ≡ of_queue fault };

    fn from(fault: HostFault) -> SessionFault {
        match fault {
            HostFault::Memory => SessionFault::Memory,
            fault => SessionFault::Queue(fault),
        }
    }
}

impl From<LinkFault> for SessionFault {
    ghost use Rattle.host_link.specs.declared.fault.SessionFault.TheVariants as fault;

    ghost from_gives = { λ _ e. e ≡ fault.Io };

    fn from(_: LinkFault) -> SessionFault {
        SessionFault::Io
    }
}

impl From<AllocError> for SessionFault {
    ghost use Rattle.host_link.specs.declared.fault.SessionFault.TheVariants as fault;

    ghost from_gives = { λ _ e. e ≡ fault.Memory };

    fn from(_: AllocError) -> SessionFault {
        SessionFault::Memory
    }
}
