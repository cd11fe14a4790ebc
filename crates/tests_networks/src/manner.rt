//! How a host behaves.

/// What it does once all that it sends was read.
#[derive(Clone, Copy, PartialEq, Eq)]
pub enum Ending {
    /// It stays, and sends no more.
    Stays,
    /// It closes its side once it got all that it is owed.
    EndsAnswered,
    /// It closes its side at once.
    Ends,
    /// Its socket is reset at once.
    Resets,
}

/// How a host behaves. Times are in microseconds.
#[derive(Clone, Copy)]
pub struct Manner {
    /// When it connects.
    pub opens_at: u64,
    /// The most bytes that one read of its socket gives.
    pub gives: usize,
    /// How many bytes its socket takes that it has not read.
    pub window: usize,
    /// How many bytes it reads at a time.
    pub reads: usize,
    /// How long it is from one time that it reads to the next; where it is 0, it reads all at once.
    pub every: u64,
    /// Whether it sends a command only once the one before is answered.
    pub asks: bool,
    /// How long after a reply it sends the next command.
    pub thinks: u64,
    pub ending: Ending,
}

/// It never reads.
pub const NEVER: u64 = u64::MAX;

/// It reads all at once, and sends a command at a time.
pub const GOOD: Manner = Manner {
    opens_at: 0,
    gives: 65_536,
    window: 65_536,
    reads: 65_536,
    every: 0,
    asks: true,
    thinks: 0,
    ending: Ending::Stays,
};

/// It reads all at once, and sends all that it has.
pub const HASTY: Manner = Manner {
    asks: false,
    ..GOOD
};
