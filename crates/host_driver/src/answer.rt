//! What a queue tells its caller.

use crate::fault::HostFault;
use nvt_fields::Status;

/// What a step of a queue brought.
#[derive(Debug, Drop)]
pub enum HostStep {
    /// Nothing more, for now.
    Idle,
    /// The Connect succeeded, for the controller of this identifier.
    Connected { cntlid: u16 },
    /// A command is answered, and no longer outstanding.
    Done(Answer),
}

/// The answer to a command.
#[derive(Debug, Drop)]
pub struct Answer {
    /// The identifier that `submit` gave.
    pub cid: u16,
    pub status: Status,
    /// What the command defines, in dwords 0 and 1 of its completion.
    pub result: u64,
    /// The data that came: where the status is success, as many bytes as were wanted.
    pub payload: Vec<u8>,
}

/// What the front of what came tells: None where that is nothing yet.
pub(crate) type Told = Result<Option<HostStep>, HostFault>;
