//! Controller Status, CSTS (Base 2.0, section 3.1.3.6).
ghost use Rattle.std.specs.Prelude.{◌≡◌};
ghost use Rattle.property_regs.specs.Status.{bits_of_enabling, bits_of_shutdown};

/// How far a controller is enabled, CSTS.RDY and CSTS.CFS.
#[derive(Clone, Copy, Debug, PartialEq, Eq)]
pub enum Enabling {
    /// It is not enabled: RDY 0, CFS 0.
    Disabled,
    /// It processes commands, unless it was shut down: RDY 1, CFS 0.
    Ready,
    /// It was enabled with what it does not take, and waits for a reset: RDY 0, CFS 1.
    Failed,
}

impl Enabling {
    // RDY in bit 0, CFS in bit 1.
    pub(crate) fn bits(self) -> u64
        ensures { result ≡ bits_of_enabling self }
    {
        match self {
            Enabling::Disabled => 0,
            Enabling::Ready => 1,
            Enabling::Failed => 2,
        }
    }
}

/// How far a shutdown has come, CSTS.SHST. One is complete as soon as it is asked for.
#[derive(Clone, Copy, Debug, PartialEq, Eq)]
pub enum ShutdownStatus {
    /// None was asked for.
    Normal,
    Complete,
}

impl ShutdownStatus {
    // SHST in bits 3:2, where 2 says that the shutdown is complete.
    pub(crate) fn bits(self) -> u64
        ensures { result ≡ bits_of_shutdown self }
    {
        match self {
            ShutdownStatus::Normal => 0,
            ShutdownStatus::Complete => 2 * 4,
        }
    }
}
