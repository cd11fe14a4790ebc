//! Where the data that go to a host begin.
ghost use Rattle.std.specs.Prelude.{◌≡◌, ◌≤◌};
ghost use Rattle.target_decision.specs.Alignment.{aligned};

use std::marker::Model;

/// A host's alignment of data (HPDA; TCP Transport 1.0, section 3.6.2.2): where the data of a C2HData
/// begin, in units of 4 bytes, 0's based. A contract sees the number, 0 to 31.
#[derive(Clone, Copy, Debug, PartialEq, Eq)]
pub struct Alignment {
    hpda: u8,
}

impl Model for Alignment {
    ghost use Rattle.std.specs.Prelude.{◌≤◌, ℕ};

    ghost Value = { ℕ };

    ghost view = { λ a. a.hpda };

    ghost inverse = { λ n. record { hpda = n } };

    ghost invariant = { λ a. a.hpda ≤ 31 };
}

impl Alignment {
    /// The alignment that an ICReq asks for, which is at most 31.
    pub(crate) fn new(hpda: u8) -> Option<Alignment>
        ensures { result ≡ aligned hpda }
    {
        if hpda > 31 {
            return None;
        }
        Some(Alignment { hpda })
    }

    /// That of a host which has asked for none yet.
    pub(crate) fn none() -> Alignment
        ensures { result ≡ 0 }
    {
        Alignment { hpda: 0 }
    }

    pub(crate) fn hpda(&self) -> u8
        ensures value { result ≡ self.now }
        ensures bound { result ≤ 31 }
    {
        self.hpda
    }
}
