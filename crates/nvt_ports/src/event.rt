//! What ports answer.
use thiserror::Error;

/// What is next. A slot is a number below 64 that stands for a connection's stream, from its `Open` until
/// it is closed. Bytes and lines are the first `n` bytes of the buffer.
#[derive(Clone, Copy, Debug, PartialEq, Eq)]
pub enum PortEvent {
    /// A host connected to this port of the configuration; the slot was free.
    Open { slot: usize, port: u16 },
    /// A host sent bytes.
    Bytes { slot: usize, n: usize },
    /// A host closed its stream, or it was reset.
    End { slot: usize },
    /// A line of an edit, without its end.
    Line { n: usize },
    /// The time, in ms.
    Tick { ms: u64 },
    Nothing,
}

/// Output could not be sent: the connection in its slot is of no use any more.
#[derive(Clone, Copy, Debug, PartialEq, Eq, Error)]
#[error("port fault")]
pub struct PortFault;
