//! For how long no socket is looked at while replies are joined.
ghost use Rattle.std.specs.Prelude.{◌≡◌, ◌≤◌, ◌<◌};

use crate::sending::MUCH;

// The most calls in a row in which no socket is looked at.
const SPAN_MAX: u8 = 31;

/// How many calls in a row looked at no socket, since replies were being joined. After each look in vain while replies
/// were joined more calls may pass until the next one, up to 31; where a look found something, none may.
#[derive(Clone, Copy)]
pub struct Looks {
    /// How many calls passed since the last look.
    pub passed: u8,
    /// How many bytes were taken in them for the hosts whose replies are joined.
    pub taken: usize,
    /// How many calls may pass until the next look.
    pub span: u8,
    ghost few: { span ≤ 31 },
    ghost within: { passed ≤ 31 },
    ghost little: { taken < 196608 },
}

impl Looks {
    ghost use Rattle.nvt_ports.specs.Looks.{Counts, Passes, span_after};

    /// The next call looks.
    pub fn new() -> Looks
        ensures { Counts 0 0 0 result }
    {
        Looks {
            passed: 0,
            taken: 0,
            span: 0,
        }
    }

    /// Whether this call looks at no socket. Replies are joined in it or not; so many bytes were taken for their hosts since
    /// the call before. Calls that look at none come at most 31 in a row, and in them fewer than 196,608 bytes are taken.
    pub fn passes(&mut self, joins: bool, taken: usize) -> bool
        ensures { Passes joins taken result self.old self.new }
    {
        if !joins || self.passed >= self.span || taken >= MUCH - self.taken {
            self.passed = 0;
            self.taken = 0;
            return false;
        }
        self.passed += 1;
        self.taken += taken;
        true
    }

    /// The sockets were looked at while replies were joined, and something was found or not.
    pub fn looked(&mut self, found: bool)
        ensures { Counts self.old.passed self.old.taken (span_after found self.old.span) self.new }
    {
        self.span = if found {
            0
        } else {
            (self.span * 2 + 1).min(SPAN_MAX)
        };
    }
}
