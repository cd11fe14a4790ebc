ghost use Rattle.std.specs.Prelude.{◌≡◌};
ghost use Rattle.nvt_fields.specs.FatalErrorStatus.{fatal_code_of};

/// Why a connection is terminated: the fatal error status of a termination request (TCP Transport
/// 1.0, section 3.6).
#[derive(Clone, Copy, Debug, PartialEq, Eq)]
pub enum FatalErrorStatus {
    InvalidHeaderField,
    SequenceError,
    HeaderDigestError,
    DataOutOfRange,
    LimitExceeded,
    UnsupportedParameter,
}

impl FatalErrorStatus {
    /// The status's code, bytes 8 and 9 of a termination request.
    pub fn code(self) -> u16
        ensures { result ≡ fatal_code_of self }
    {
        match self {
            FatalErrorStatus::InvalidHeaderField => 1,
            FatalErrorStatus::SequenceError => 2,
            FatalErrorStatus::HeaderDigestError => 3,
            FatalErrorStatus::DataOutOfRange => 4,
            FatalErrorStatus::LimitExceeded => 5,
            FatalErrorStatus::UnsupportedParameter => 6,
        }
    }
}
