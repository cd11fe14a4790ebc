//! Pauses between calls in which nothing comes.
ghost use Rattle.std.specs.Prelude.{◌≡◌};
ghost use Rattle.nvt_ports.specs.Pause.{watched_at};

// The time is looked at in every 64th call alone.
const CALLS_PER_LOOK: u32 = 64;

// How long nothing came before the first pause.
const QUIET_MICROS: u64 = 4_000;

const MICROS_MIN: u64 = 50;

const MICROS_MAX: u64 = 1_000;

/// Whether there is to be a pause now. Times and pauses are in microseconds.
#[derive(Clone, Copy)]
pub enum Pause {
    /// So many calls in a row were in vain; none was at this time, where it was looked at since.
    Awake { vain: u32, since: Option<u64> },
    /// The next call in vain is followed by a pause of this length.
    Asleep { micros: u64 },
}

impl Pause {
    ghost use Rattle.nvt_ports.specs.Pause.{awake, pause_of, is_timed, pause_after};

    /// Something came, or is to be sent.
    pub fn new() -> Pause
        ensures { result ≡ awake }
    {
        Pause::Awake {
            vain: 0,
            since: None,
        }
    }

    /// Whether the time is wanted of the next call in vain.
    pub fn is_timed(&self) -> bool
        ensures { result ≡ is_timed self.now }
    {
        matches!(self, Pause::Awake { vain, .. } if *vain >= CALLS_PER_LOOK)
    }

    /// A call was in vain, at this time, which is looked at only where it is wanted: the pause that follows it. After 4
    /// milliseconds without anything there is one of 50 microseconds behind each call, which doubles up to 1 millisecond.
    pub fn after_vain(&mut self, now: u64) -> Option<u64>
        ensures pause { result ≡ pause_of self.old }
        ensures after { self.new ≡ pause_after now self.old }
    {
        match *self {
            Pause::Asleep { micros } => {
                *self = Pause::Asleep {
                    micros: micros.saturating_mul(2).min(MICROS_MAX),
                };
                Some(micros)
            }
            Pause::Awake { vain, since } => {
                *self = watched(vain, since, now);
                None
            }
        }
    }
}

// After one call more in vain.
fn watched(vain: u32, since: Option<u64>, now: u64) -> Pause
    ensures { result ≡ watched_at now vain since }
{
    if vain < CALLS_PER_LOOK {
        return Pause::Awake {
            vain: vain + 1,
            since,
        };
    }
    match since {
        Some(since) if now.saturating_sub(since) >= QUIET_MICROS => Pause::Asleep {
            micros: MICROS_MIN,
        },
        Some(since) => Pause::Awake {
            vain: 0,
            since: Some(since),
        },
        None => Pause::Awake {
            vain: 0,
            since: Some(now),
        },
    }
}
