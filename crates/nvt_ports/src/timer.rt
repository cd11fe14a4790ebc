//! The time since something began.
ghost use Rattle.std.specs.Prelude.{◌≡◌, ◌≤◌, IfOk};

use std::io;
use std::rt::Clock;
use std::time::Instant;

/// The microseconds since it was made. They never fall.
#[derive(Drop)]
pub struct Timer {
    start: Instant,
    pub latest: u64,
}

impl Timer {
    /// Begins with 0. Fails where the clock cannot be read.
    pub fn new(clock: &impl Clock) -> io::Result<Timer>
        ensures { IfOk result (λ timer. timer.latest ≡ 0) }
    {
        Ok(Timer {
            start: Instant::now(clock)?,
            latest: 0,
        })
    }

    /// The time now; the latest that is known where the clock cannot be read.
    pub fn micros(&mut self, clock: &impl Clock) -> u64
        ensures latest { result ≡ self.new.latest }
        ensures rises { self.old.latest ≤ self.new.latest }
    {
        if let Ok(elapsed) = self.start.elapsed(clock) {
            let micros = u64::try_from(elapsed.as_micros()).unwrap_or(u64::MAX);
            self.latest = self.latest.max(micros);
        }
        self.latest
    }
}
