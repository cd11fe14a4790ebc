//! A disk of which one read finds other bytes than were written, for tests.
ghost use Rattle.std.specs.Prelude.{◌≡◌, Some};

use crate::disk::{Disk, DiskFault, Faithful};
use crate::turn::Turn;
use std::alloc::AllocError;

/// A disk of which one `read` that succeeds gives the unit's bytes with one bit of the first turned.
/// The unit stays as it was written.
#[derive(Drop)]
pub struct StrayingDisk<D: Faithful> {
    disk: D,
    // Of the read that strays.
    turn: Turn,
}

impl<D: Faithful> StrayingDisk<D> {
    /// A disk over this one. So many reads find what was written, the next one does not, and all later
    /// ones do.
    pub fn new(disk: D, passes: u64) -> StrayingDisk<D>
        ensures disk { result.disk ≡ disk }
        ensures passes { result.turn.passes ≡ Some passes }
    {
        StrayingDisk {
            disk,
            turn: Turn::after(passes),
        }
    }
}

impl<D: Faithful> Disk for StrayingDisk<D> {
    ghost use Rattle.block_store.specs.Turn.{own_count};

    ghost contents = { λ straying. D.contents straying.disk };

    ghost synced = { λ straying. D.synced straying.disk };

    ghost faults = { λ straying. D.faults straying.disk };

    ghost strays = { λ straying. own_count straying.turn.passes };

    ghost whole = { λ straying. D.whole straying.disk };

    fn blocks(&self) -> u64 {
        self.disk.blocks()
    }

    fn read(&mut self, unit: u64, out: &mut [u8; 512]) -> Result<(), DiskFault> {
        self.disk.read(unit, out)?;
        if self.turn.comes() {
            out[0] ^= 1;
        }
        Ok(())
    }

    fn write(&mut self, unit: u64, bytes: &[u8; 512]) -> Result<(), DiskFault> {
        self.disk.write(unit, bytes)
    }

    fn sync(&mut self) -> Result<(), DiskFault> {
        self.disk.sync()
    }

    fn make_room(&mut self, first: u64, count: u64) -> Result<(), AllocError> {
        self.disk.make_room(first, count)
    }
}
