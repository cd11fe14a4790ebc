//! What was done in some turns.

/// How many turns were served, and what was counted in them.
#[derive(Clone, Copy, Debug, PartialEq, Eq)]
pub struct Served {
    pub turns: u64,
    /// Connections that were opened.
    pub opened: u64,
    /// Lines whose edit was made.
    pub edits: u64,
    /// Connections that were not opened, and lines whose edit was not made.
    pub refused: u64,
    /// The connections whose step in the last turn wanted memory.
    pub memory: u64,
}
