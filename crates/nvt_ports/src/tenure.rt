//! When a slot's host is given up.
ghost use Rattle.std.specs.Prelude.{◌≡◌};
ghost use Rattle.nvt_ports.specs.Tenure.{after_move, after_tick, begins_anew, begun, given_up_at, patience_of};
ghost use Rattle.nvt_ports.specs.TenureRun.{GivesUpOnlyWhatTookNothing, GivesUpWhatDoesNotConnect};
ghost use Rattle.nvt_ports.specs.TenureRun.{GivesUpWhatTookNothing};

// How many milliseconds it may go without a Connect that succeeded.
const CONNECT_MS: u64 = 30_000;

// How many milliseconds it may take nothing of what waits for it.
const IDLE_MS: u64 = 30_000;

// The same, once the target has ended its connection.
const ENDED_MS: u64 = 2_000;

/// Why a host is given up.
#[derive(Clone, Copy)]
pub enum GivenUp {
    /// No Connect succeeded within 30 seconds.
    WithoutConnect,
    /// Bytes waited for it and it took none for 30 seconds, or for 2 once the target had ended its connection.
    TookNothing,
}

/// How a host stands at a tick.
#[derive(Clone, Copy)]
pub struct TenureStanding {
    /// Whether a Connect succeeded.
    pub is_connected: bool,
    /// Whether bytes are offered to it, or kept for it, that its socket has not taken.
    pub waits: bool,
    /// Whether the target has ended its connection.
    pub is_ended: bool,
}

/// How long a host has been there, and how long it has taken nothing. Times are in milliseconds, and handed in at
/// ticks. What its socket takes counts as of the next tick, so no time is measured too long. Where times fall, a time
/// is measured as 0, and the host is kept.
#[derive(Clone, Copy)]
pub struct Tenure {
    // The first tick.
    opened: Option<u64>,
    // The last tick at which the time in which it takes nothing began anew.
    since: u64,
    // Whether its socket took bytes since the last tick.
    has_moved: bool,
    // Whether the target had ended its connection at the last tick.
    is_ended: bool,
}

impl Tenure {
    /// The host connected just now.
    pub fn new() -> Tenure
        ensures { result ≡ begun }
    {
        Tenure {
            opened: None,
            since: 0,
            has_moved: false,
            is_ended: false,
        }
    }

    /// Its socket took a byte, or bytes begin to wait for it.
    pub fn moved(&mut self)
        ensures { self.new ≡ after_move self.old }
    {
        self.has_moved = true;
    }

    /// It is so many milliseconds now: why the host is given up; none where it is kept.
    pub fn tick(&mut self, ms: u64, standing: TenureStanding) -> Option<GivenUp>
        ensures given_up { result ≡ given_up_at ms standing self.old }
        ensures after { self.new ≡ after_tick ms standing self.old }
    {
        if self.begins_anew(standing) {
            self.since = ms;
        }
        let opened = self.opened.unwrap_or(ms);
        self.opened = Some(opened);
        self.has_moved = false;
        self.is_ended = standing.is_ended;
        if !standing.is_connected && ms.saturating_sub(opened) >= CONNECT_MS {
            return Some(GivenUp::WithoutConnect);
        }
        if ms.saturating_sub(self.since) >= patience(standing.is_ended) {
            return Some(GivenUp::TookNothing);
        }
        None
    }

    // Whether it took bytes, none waits, or the target ended its connection, since the last tick.
    fn begins_anew(&self, standing: TenureStanding) -> bool
        ensures { result ≡ begins_anew standing self.now }
    {
        self.opened.is_none()
            || self.has_moved
            || !standing.waits
            || standing.is_ended != self.is_ended
    }
}

fn patience(is_ended: bool) -> u64
    ensures { result ≡ patience_of is_ended }
{
    if is_ended { ENDED_MS } else { IDLE_MS }
}

/// A host is given up as one that took nothing only where bytes wait, and there is a tick, at least 30 seconds before,
/// or 2 where the target had ended its connection then, since which its socket took nothing and bytes waited at each
/// tick.
#[tactic(auto, using(crate::proofs::Tenures::gives_up_only_what_took_nothing))]
pub fn gives_up_only_what_took_nothing()
    ensures { GivesUpOnlyWhatTookNothing }
{}

/// A host is given up where bytes wait, and there is such a tick. Times never fall.
#[tactic(auto, using(crate::proofs::Tenures::gives_up_what_took_nothing))]
pub fn gives_up_what_took_nothing()
    ensures { GivesUpWhatTookNothing }
{}

/// A host is given up as one without a Connect exactly at the ticks at which none has succeeded, and which are at least
/// 30 seconds behind its first tick.
#[tactic(auto, using(crate::proofs::Tenures::gives_up_what_does_not_connect))]
pub fn gives_up_what_does_not_connect()
    ensures { GivesUpWhatDoesNotConnect }
{}
