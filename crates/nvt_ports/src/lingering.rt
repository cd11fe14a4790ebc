//! What becomes of a host whose slot was closed before all that was taken for it was sent.
ghost use Rattle.std.specs.Prelude.{◌≡◌};

// For how long it is kept.
const MICROS: u64 = 2_000_000;

/// What is done with such a host.
#[derive(Clone, Copy, PartialEq, Eq)]
pub enum Lingering {
    /// It is closed.
    Over,
    /// What is kept for it is sent.
    Sends,
    /// It is told that nothing more is sent, and what comes is passed over until it closes its side.
    Drains,
}

/// How such a host stands.
#[derive(Clone, Copy)]
pub struct LingeringHost {
    /// Whether it may still read.
    pub has_socket: bool,
    /// Whether something is kept for it.
    pub keeps: bool,
    /// Whether it sends no more.
    pub is_ended: bool,
}

/// Until when a host whose slot was closed is kept, in microseconds.
#[derive(Clone, Copy)]
pub struct Linger {
    pub until: u64,
}

impl Linger {
    ghost use Rattle.nvt_ports.specs.Lingering.{lingering_at, until_of};

    /// Its slot was closed at this time. It is kept for two seconds at most.
    pub fn begun(now: u64) -> Linger
        ensures { result.until ≡ until_of now }
    {
        Linger {
            until: now.saturating_add(MICROS),
        }
    }

    /// What is done with it at this time.
    pub fn at(self, now: u64, host: LingeringHost) -> Lingering
        ensures { result ≡ lingering_at now host self }
    {
        if now >= self.until || !host.has_socket {
            return Lingering::Over;
        }
        match (host.keeps, host.is_ended) {
            (true, _) => Lingering::Sends,
            (false, true) => Lingering::Over,
            (false, false) => Lingering::Drains,
        }
    }
}
