//! A disk that fails once, for tests.
ghost use Rattle.std.specs.Prelude.{◌≡◌, ◌+◌, Some};
ghost use Rattle.std.specs.Result.{is_err};
ghost use Rattle.block_store.specs.Turn.{own_count, is_due, passes_after, FailsInTurn};

use crate::disk::{Disk, DiskFault, Faithful};
use crate::turn::Turn;
use std::alloc::AllocError;

/// A disk of which one call of `read`, `write` or `sync` fails. That call does not reach the disk
/// below, so a write that fails leaves its unit as it was.
#[derive(Drop)]
pub struct FailingDisk<D: Disk> {
    disk: D,
    // Of the call that fails.
    turn: Turn,
}

impl<D: Disk> FailingDisk<D> {
    /// A disk over this one. So many calls pass to it, the next one fails, and all later ones pass.
    pub fn new(disk: D, passes: u64) -> FailingDisk<D>
        ensures disk { result.disk ≡ disk }
        ensures passes { result.turn.passes ≡ Some passes }
    {
        FailingDisk {
            disk,
            turn: Turn::after(passes),
        }
    }

    /// Fails where this is the call to fail.
    fn pass(&mut self) -> Result<(), DiskFault>
        ensures disk { self.new.disk ≡ self.old.disk }
        ensures passes { self.new.turn.passes ≡ passes_after self.old.turn.passes }
        ensures fails { is_err result ≡ is_due self.old.turn.passes }
    {
        if self.turn.comes() {
            return Err(DiskFault);
        }
        Ok(())
    }
}

impl<D: Disk> Disk for FailingDisk<D> {
    ghost use Rattle.std.specs.Prelude.{◌≡◌, ◌+◌, ◌<◌, ◌≤◌, ◌⊎◌, length, slice_index_or, slice_set, [], OnOk, OnErr};
    ghost use Rattle.block_store.specs.Faults.{Counts, Strays};

    ghost contents = { λ failing. D.contents failing.disk };

    ghost synced = { λ failing. D.synced failing.disk };

    ghost faults = { λ failing. own_count failing.turn.passes + D.faults failing.disk };

    ghost strays = { λ failing. D.strays failing.disk };

    ghost whole = { λ failing. D.whole failing.disk };

    fn blocks(&self) -> u64 {
        self.disk.blocks()
    }

    fn read(&mut self, unit: u64, out: &mut [u8; 512]) -> Result<(), DiskFault>
        requires { unit < length (D.contents self.old.disk) }
        ensures found { OnOk result (Strays out.new (slice_index_or (D.contents self.old.disk) unit []) (D.strays self.old.disk) (D.strays self.new.disk)) }
        ensures rises { D.strays self.old.disk ≤ D.strays self.new.disk }
        ensures synced { D.synced self.new.disk ≡ D.synced self.old.disk }
        ensures contents { D.contents self.new.disk ≡ D.contents self.old.disk }
        ensures passes { self.new.turn.passes ≡ passes_after self.old.turn.passes }
        ensures turn { FailsInTurn D.faults self.old.turn.passes result self.old.disk self.new.disk }
    {
        self.pass()?;
        self.disk.read(unit, out)
    }

    fn write(&mut self, unit: u64, bytes: &[u8; 512]) -> Result<(), DiskFault>
        requires { unit < length (D.contents self.old.disk) }
        ensures written { OnOk result (D.contents self.new.disk ≡ slice_set (D.contents self.old.disk) unit bytes.now) }
        ensures strays { D.strays self.new.disk ≡ D.strays self.old.disk }
        ensures torn { OnErr result ((D.contents self.new.disk ≡ D.contents self.old.disk) ⊎ (D.contents self.new.disk ≡ slice_set (D.contents self.old.disk) unit bytes.now)) }
        ensures passes { self.new.turn.passes ≡ passes_after self.old.turn.passes }
        ensures turn { FailsInTurn D.faults self.old.turn.passes result self.old.disk self.new.disk }
    {
        self.pass()?;
        self.disk.write(unit, bytes)
    }

    fn sync(&mut self) -> Result<(), DiskFault>
        ensures synced { OnOk result (D.synced self.new.disk ≡ D.contents self.old.disk) }
        ensures strays { D.strays self.new.disk ≡ D.strays self.old.disk }
        ensures contents { D.contents self.new.disk ≡ D.contents self.old.disk }
        ensures passes { self.new.turn.passes ≡ passes_after self.old.turn.passes }
        ensures turn { FailsInTurn D.faults self.old.turn.passes result self.old.disk self.new.disk }
    {
        self.pass()?;
        self.disk.sync()
    }

    fn make_room(&mut self, first: u64, count: u64) -> Result<(), AllocError>
        requires { first + count ≤ length (D.contents self.old.disk) }
        ensures contents { D.contents self.new.disk ≡ D.contents self.old.disk }
        ensures synced { D.synced self.new.disk ≡ D.synced self.old.disk }
        ensures strays { D.strays self.new.disk ≡ D.strays self.old.disk }
        ensures faults { D.faults self.new.disk ≡ D.faults self.old.disk }
        ensures passes { self.new.turn.passes ≡ self.old.turn.passes }
    {
        self.disk.make_room(first, count)
    }
}

impl<D: Faithful> Faithful for FailingDisk<D> {
    ghost faithful = { λ failing. D.faithful failing.disk };
}
