//! How many lines are printed a second.
ghost use Rattle.std.specs.Prelude.{◌≡◌, ℕ, ◌≤◌, List};
ghost use Rattle.connection_log.specs.Pace.{NeverFalls, begun, let_through};

/// At most 100 lines are printed in each second of a clock that never goes back, so that a flood of connections does
/// not fill a log. Those left out are counted.
#[derive(Clone, Copy)]
pub struct LinePace {
    // The last second in which a line was asked for, how many were printed in it, and how many were left out.
    second: u64,
    printed: u64,
    left_out: u64,
}

const MICROS: u64 = 1_000_000;

const LINES_MAX: u64 = 100;

impl LinePace {
    ghost use Rattle.connection_log.specs.Pace.{asked, may_print, more_left_out, told};

    /// Before the first line.
    pub fn new() -> LinePace
        ensures { result ≡ begun }
    {
        LinePace {
            second: 0,
            printed: 0,
            left_out: 0,
        }
    }

    /// Whether a line may be printed at this time, in microseconds. One that may not is counted.
    pub fn may_print(&mut self, micros: u64) -> bool
        ensures may { result ≡ may_print micros self.old }
        ensures after { self.new ≡ asked micros self.old }
    {
        let second = micros / MICROS;
        if second > self.second {
            self.second = second;
            self.printed = 0;
        }
        let may = self.printed < LINES_MAX;
        if may {
            self.printed += 1;
        } else {
            self.leave_out(1);
        }
        may
    }

    /// So many lines more are left out, since there is no room for them.
    pub fn leave_out(&mut self, lines: u64)
        ensures { self.new ≡ more_left_out lines self.old }
    {
        self.left_out = self.left_out.saturating_add(lines);
    }

    /// How many lines were left out since this was asked last, at most 2^64 - 1.
    pub fn takes_left_out(&mut self) -> u64
        ensures number { result ≡ self.old.left_out }
        ensures after { self.new ≡ told self.old }
    {
        let left_out = self.left_out;
        self.left_out = 0;
        left_out
    }
}

/// A law: of the lines asked for in one second, by a clock that never goes back, at most 100 are printed.
pub fn few_in_a_second()
    ensures { (times : List ℕ) (second : ℕ) → NeverFalls 0 times
        → let_through second begun times ≤ 100 }
{}
