//! Which connection for lines of edits gives way to a new one.
ghost use Rattle.std.specs.Prelude.{◌≡◌, ◌≤◌, ◌<◌, ℕ, replicate, slice_index, slice_set};

use crate::speaker::EDITORS_MAX;

/// When each connection for lines of edits was heard last, in the order in which they were.
#[derive(Clone, Copy)]
pub struct Seats {
    // By place, the number of the time at which it was heard; 0 where it never was.
    pub heard: [u64; EDITORS_MAX],
    // How often any was heard.
    pub times: u64,
}

impl Seats {
    /// None was heard yet.
    pub fn new() -> Seats
        ensures heard { result.heard ≡ replicate 16 0 }
        ensures times { result.times ≡ 0 }
    {
        Seats {
            heard: [0; EDITORS_MAX],
            times: 0,
        }
    }

    /// The one in this place connected, or sent something.
    pub fn heard(&mut self, place: usize)
        requires { place < 16 }
        ensures times { self.old.times ≤ self.new.times }
        ensures heard { self.new.heard ≡ slice_set self.old.heard place self.new.times }
    {
        self.times = self.times.saturating_add(1);
        self.heard[place] = self.times;
    }

    /// The place of the one that was silent longest.
    pub fn silent_longest(&self) -> usize
        ensures within { result < 16 }
        ensures least { (place : ℕ) → place < 16 → slice_index self.now.heard result ≤ slice_index self.now.heard place }
    {
        let mut least = 0;
        for place in 0..EDITORS_MAX {
            if self.heard[place] < self.heard[least] {
                least = place;
            }
        }
        least
    }
}
