//! A command that is not completed.

/// The data of a command that is outstanding, as far as they have moved. All are numbers of bytes.
#[derive(Clone, Copy, Debug, PartialEq, Eq)]
pub struct Outstanding {
    /// The data that the controller is to ask for by R2Ts: 0 where they are in the capsule, or the
    /// command has none.
    pub out: u32,
    /// How much of that it asked for so far.
    pub asked: u32,
    /// The data that the controller is to send.
    pub into: u32,
    /// How much of that came so far.
    pub came: u32,
}
