//! Sets of connections, by their numbers.
ghost use Rattle.std.specs.Prelude.{◌≡◌, ◌<◌, ◌≤◌, ◌/◌, ◌^◌, ℕ, MatchOption, false, true};
ghost use Rattle.nvt_serve.specs.Sets.{IsFirst, Joins, SetsBit, is_in};

use target_core::CONNECTIONS_MAX;

/// Some of the connections that there may be. A walk over them passes over those that are not there at one look.
#[derive(Clone, Copy)]
pub struct ConnectionSet {
    // A bit for each connection.
    bits: u64,
}

impl ConnectionSet {
    /// No connection.
    pub fn new() -> ConnectionSet
        ensures { (k : ℕ) → is_in result.bits k ≡ false }
    {
        ConnectionSet { bits: 0 }
    }

    pub fn add(&mut self, k: usize)
        requires { k < 64 }
        ensures { SetsBit k true self.old.bits self.new.bits }
    {
        self.bits |= 1 << k;
    }

    pub fn remove(&mut self, k: usize)
        requires { k < 64 }
        ensures { SetsBit k false self.old.bits self.new.bits }
    {
        self.bits = without(self.bits, k);
    }

    /// Those of another set are put in.
    pub fn join(&mut self, other: ConnectionSet)
        ensures { Joins other.bits self.old.bits self.new.bits }
    {
        self.bits |= other.bits;
    }

    /// The least of them that is no less than this.
    pub fn first_from(&self, least: usize) -> Option<usize>
        ensures { MatchOption result ((k : ℕ) → least ≤ k → is_in self.now.bits k ≡ false)
            (λ k. IsFirst least k self.now.bits) }
    {
        first_of(self.bits, least)
    }
}

fn without(bits: u64, k: usize) -> u64
    requires { k < 64 }
    ensures { SetsBit k false bits result }
{
    bits & !(1 << k)
}

fn first_of(bits: u64, least: usize) -> Option<usize>
    ensures { MatchOption result ((k : ℕ) → least ≤ k → is_in bits k ≡ false) (λ k. IsFirst least k bits) }
{
    if least >= CONNECTIONS_MAX {
        return None;
    }
    let left = bits_from(bits, least);
    if left == 0 {
        return None;
    }
    Some(least + left.trailing_zeros() as usize)
}

// The bits from one on: that one is the lowest.
fn bits_from(bits: u64, least: usize) -> u64
    requires { least < 64 }
    ensures { result ≡ bits / 2 ^ least }
{
    bits >> least
}
