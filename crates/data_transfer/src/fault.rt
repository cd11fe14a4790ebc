//! Why an H2CData is refused.
ghost use Rattle.std.specs.Prelude.{◌≡◌};
ghost use Rattle.data_transfer.specs.DataFault.{fei_of, fes_of};

use nvt_fields::FatalErrorStatus;

/// What is wrong with an H2CData, in the order in which it is looked for (TCP Transport 1.0, section
/// 3.6).
#[derive(Clone, Copy, Debug, PartialEq, Eq)]
pub enum DataFault {
    /// The connection has no transfer of that tag.
    UnknownTag,
    /// The transfer is of another command: CCCID is not its CID.
    OtherCommand,
    /// DATAL is not the number of bytes that the PDU carries, PLEN less PDO.
    LengthMismatch,
    /// DATAL is over what the target takes in one PDU, 16,384 bytes.
    TooLong,
    /// DATAO is not the number of bytes that came so far, or the data goes past the end of the transfer.
    OutOfRange,
}

impl DataFault {
    /// The fatal error status that it ends the connection with.
    pub fn fes(self) -> FatalErrorStatus
        ensures { result ≡ fes_of self }
    {
        match self {
            DataFault::UnknownTag | DataFault::OtherCommand | DataFault::LengthMismatch => {
                FatalErrorStatus::InvalidHeaderField
            }
            DataFault::TooLong => FatalErrorStatus::LimitExceeded,
            DataFault::OutOfRange => FatalErrorStatus::DataOutOfRange,
        }
    }

    /// The fatal error information that goes with it: the offset of the field in error, in bytes from
    /// the beginning of the PDU, or 0 where the status asks for none.
    pub fn fei(self) -> u32
        ensures { result ≡ fei_of self }
    {
        match self {
            DataFault::UnknownTag => 10,
            DataFault::OtherCommand => 8,
            DataFault::LengthMismatch => 16,
            DataFault::TooLong | DataFault::OutOfRange => 0,
        }
    }
}
