//! The calls of a disk: a Flush, and a command with FUA that writes, ask for one sync, and no other does.
use crate::commands::{Calls, NONE, ROWS, Row, begins, is_done};
use block_store::{Disk, DiskFault, MemoryDisk};
use std::alloc::{AllocError, Global};
use std::cell::Cell;
use std::rc::Rc;
use testkit_tables::{Outcome, Placed, check, pass};
use testkit_targets::queues::{Driver, Script, holds_over};

// A disk in memory that counts its calls.
#[derive(Drop)]
struct CountingDisk {
    disk: MemoryDisk,
    calls: Rc<Cell<Calls>>,
}

impl Disk for CountingDisk {
    ghost use Rattle.std.specs.Prelude.{◌≡◌, ◌<◌, ◌⊎◌, length, slice_index_or, slice_set, [], OnOk, OnErr};
    ghost use Rattle.block_store.specs.Faults.{Counts};
    ghost use Rattle.block_store.specs.Memory.{memory_contents, memory_whole};

    ghost contents = { λ counting. memory_contents counting.disk };

    ghost synced = { λ counting. memory_contents counting.disk };

    ghost faults = { λ counting. counting.disk.faults };

    ghost strays = { λ counting. 0 };

    ghost whole = { λ counting. memory_whole counting.disk };

    fn blocks(&self) -> u64 {
        self.disk.blocks()
    }

    fn read(&mut self, unit: u64, out: &mut [u8; 512]) -> Result<(), DiskFault> {
        let calls = self.calls.get();
        self.calls.set(Calls {
            reads: calls.reads.saturating_add(1),
            ..calls
        });
        self.disk.read(unit, out)
    }

    fn write(&mut self, unit: u64, bytes: &[u8; 512]) -> Result<(), DiskFault> {
        let calls = self.calls.get();
        self.calls.set(Calls {
            writes: calls.writes.saturating_add(1),
            unsynced: calls.unsynced.saturating_add(1),
            ..calls
        });
        self.disk.write(unit, bytes)
    }

    fn sync(&mut self) -> Result<(), DiskFault> {
        let calls = self.calls.get();
        self.calls.set(Calls {
            syncs: calls.syncs.saturating_add(1),
            unsynced: 0,
            ..calls
        });
        self.disk.sync()
    }
}

// Six blocks were written.
const BEGUN: Calls = Calls {
    writes: 6,
    unsynced: 6,
    ..NONE
};

// The command of a row, and the calls that the disk counts.
#[derive(Drop)]
struct Counted<'a> {
    row: &'a Row,
    calls: Rc<Cell<Calls>>,
}

impl Script<CountingDisk> for Counted<'_> {
    fn holds(&self, driver: &mut Driver<CountingDisk>) -> Outcome {
        let is_written = begins(driver) && self.calls.get() == BEGUN;
        pass!(check(is_written, "all blocks, and no other call"));
        self.calls.set(NONE);
        let is_done = is_done(driver, self.row);
        check(
            is_done && self.calls.get() == self.row.2,
            "the answer and the calls",
        )
    }
}

fn counting_disk(alloc: Global, calls: Rc<Cell<Calls>>) -> Result<Vec<CountingDisk>, AllocError> {
    let mut disks = Vec::new(alloc);
    disks.push(CountingDisk {
        disk: MemoryDisk::new(alloc, 32)?,
        calls,
    })?;
    Ok(disks)
}

fn check_row(alloc: Global, row: &Row) -> Result<Outcome, AllocError> {
    let calls = Rc::new(alloc, Cell::new(NONE))?;
    let disks = counting_disk(alloc, Rc::clone(&calls)?)?;
    Ok(holds_over(alloc, disks, &Counted { row, calls }))
}

#[test]
fn a_flush_and_fua_sync_once(rt: HostRuntime) -> Outcome {
    for (number, row) in ROWS.iter().enumerate() {
        pass!(check_row(rt.alloc(), row)?.in_row(number));
    }
    Ok(())
}
