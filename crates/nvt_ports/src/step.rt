//! The steps of a script.

/// A step of a script, which `MemoryPorts` hands out in its turn.
#[derive(Drop)]
pub enum PortStep {
    Open { slot: usize, port: u16 },
    /// Handed out in pieces, where there is not room for all of them.
    Bytes { slot: usize, bytes: Vec<u8> },
    End { slot: usize },
    Line { bytes: Vec<u8> },
    Tick { ms: u64 },
}
