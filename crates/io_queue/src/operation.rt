//! What a command that passes every check does to its disk.
ghost use Rattle.std.specs.Prelude.{◌≡◌, ◌<◌, ◌^◌};
ghost use Rattle.io_queue.specs.Operation.{no_units, room_for};

use block_store::UNIT_LEN;

// What the C2HData of a Read have beside their data: of at most four of them 128 bytes each.
const C2H_HEADS_LEN: usize = 4 * 128;

/// So many units of a disk, of 512 bytes each, from one on.
#[derive(Clone, Copy, Debug, PartialEq, Eq)]
pub struct Extent {
    /// The number of the disk, counted from 0.
    pub disk: u16,
    /// The first unit.
    pub first: u64,
    pub units: u64,
}

impl Extent {
    /// No units of a disk.
    pub(crate) fn none(disk: u16) -> Extent
        ensures { result ≡ no_units disk }
    {
        Extent {
            disk,
            first: 0,
            units: 0,
        }
    }
}

/// What a command does to its disk.
#[derive(Clone, Copy, Debug, PartialEq, Eq)]
pub struct Operation {
    /// The units that it is done to: none of its disk for a Flush.
    pub extent: Extent,
    pub action: Action,
}

/// What an operation does to its extent.
#[derive(Clone, Copy, Debug, PartialEq, Eq)]
pub enum Action {
    /// What was written to its disk is to be on its medium.
    Flush,
    /// It goes to the host.
    Read,
    /// The data that came, from this byte of them on, go to it.
    Write { at: u64, fua: bool },
    /// They are compared with it.
    Compare { at: u64 },
    /// Zeros go to it.
    WriteZeroes { fua: bool },
}

impl Operation {
    /// How many bytes it may send beside its response: C2HData with what it reads.
    pub fn room(&self) -> usize
        requires { room_for self.now < 2 ^ 18 }
        ensures { result ≡ room_for self.now }
    {
        match self.action {
            Action::Read => C2H_HEADS_LEN + self.extent.units as usize * UNIT_LEN,
            Action::Flush
            | Action::Write { .. }
            | Action::Compare { .. }
            | Action::WriteZeroes { .. } => 0,
        }
    }
}
