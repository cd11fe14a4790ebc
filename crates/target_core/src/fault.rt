//! What the calls of a target answer.
ghost use Rattle.std.specs.Prelude.{Some};
ghost use Rattle.target_core.specs.Fault.{word_of_open_fault};

use std::alloc::AllocError;
use std::{error, fmt};
use thiserror::Error;

/// What a step did.
#[derive(Clone, Copy, Debug, PartialEq, Eq)]
pub enum Stepped {
    /// Nothing: no whole PDU and no fault is there, or the connection is ended.
    Idle,
    /// One PDU was consumed.
    One,
    /// One PDU was consumed, or a fault found in its place, and it ended the connection.
    Ended,
}

/// The number is not that of a known connection.
#[derive(Clone, Copy, Debug, PartialEq, Eq, Error)]
#[error("no such connection")]
pub struct NoConn;

/// Why a connection is not opened, in the order of the answers.
#[derive(Clone, Copy, Debug, PartialEq, Eq)]
pub enum OpenFault {
    NoSuchPort,
    /// As many connections are known as there may be.
    Full,
    Memory,
}

impl fmt::Display for OpenFault {
    ghost output = { λ fault. Some (word_of_open_fault fault) };

    fn fmt<W: fmt::Write>(&self, f: &mut fmt::Formatter<W>) -> fmt::Result {
        f.write_str(match self {
            OpenFault::NoSuchPort => "NoSuchPort",
            OpenFault::Full => "Full",
            OpenFault::Memory => "Memory",
        })
    }
}

impl error::Error for OpenFault {}

/// Why a step is not made, in the order of the answers. Nothing is consumed.
#[derive(Clone, Copy, Debug, PartialEq, Eq, Error)]
pub enum StepFault {
    #[error("no such connection")]
    NoConn,
    #[error("memory")]
    Memory,
}

impl From<AllocError> for StepFault {
    ghost use Rattle.std.specs.Prelude.{◌≡◌};
    ghost use Rattle.target_core.specs.declared.fault.StepFault.TheVariants as fault;

    ghost from_gives = { λ _ e. e ≡ fault.Memory };

    fn from(_: AllocError) -> StepFault {
        StepFault::Memory
    }
}
