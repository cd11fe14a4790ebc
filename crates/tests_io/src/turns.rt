//! Each call of a disk failing in turn, under each command.
use crate::commands::{
    BLOCKS, Calls, LEN, ROWS, Row, after, before, begins, fails, is_done, written,
};
use block_store::{FailingDisk, MemoryDisk};
use std::alloc::{AllocError, Global};
use testkit_tables::{Outcome, Placed, check, pass};
use testkit_targets::queues::{Command, Driver, Opcode, Script, holds_over, part, put};

type FailingDriver = Driver<FailingDisk<MemoryDisk>>;

// Whether each block is as it was before, or as it would be after.
fn are_old_or_new(now: &[u8], row: &Row) -> bool {
    let (before, after) = (before(), after(row));
    let mut are = true;
    for block in 0..BLOCKS {
        let bytes = part(now, block * 512, 512);
        are &= *bytes == *part(&before, block * 512, 512)
            || *bytes == *part(&after, block * 512, 512);
    }
    are
}

// Whether the commands that come next are done, to blocks that are these.
fn goes_on(driver: &mut FailingDriver, plain: &mut [u8]) -> bool {
    let write = Command::of(Opcode::Write, 1, 2, 3).with_fua(true);
    let compare = Command::of(Opcode::Compare, 1, 2, 3);
    let zero = Command::of(Opcode::WriteZeroes, 1, 4, 2);
    let are_done = driver.writes(0, &write, &written())
        && driver.writes(0, &compare, &written())
        && driver.does(0, &zero)
        && driver.does(0, &Command::of(Opcode::Flush, 1, 0, 1));
    put(plain, 1024, &written());
    put(plain, 2048, &[0; 1024]);
    are_done && driver.reads(1, &Command::of(Opcode::Read, 1, 0, 6), plain)
}

fn fails_once(driver: &mut FailingDriver, row: &Row) -> bool {
    let mut now = [0u8; LEN];
    fails(driver, row)
        && driver.reads_to(0, &mut now)
        && are_old_or_new(&now, row)
        && goes_on(driver, &mut now)
}

// How many calls of the disk the command of a row makes.
fn calls_of(row: &Row) -> u64 {
    let Calls {
        reads,
        writes,
        syncs,
        ..
    } = row.2;
    u64::from(reads.saturating_add(writes).saturating_add(syncs))
}

// The command of a row, at whose call of this number the disk fails; the last number is past all.
#[derive(Clone, Copy)]
struct Turn<'a> {
    row: &'a Row,
    number: u64,
}

impl Script<FailingDisk<MemoryDisk>> for Turn<'_> {
    fn holds(&self, driver: &mut FailingDriver) -> Outcome {
        let begins = begins(driver);
        if self.number < calls_of(self.row) {
            check(begins && fails_once(driver, self.row), "the fault")
        } else {
            check(begins && is_done(driver, self.row), "the answer")
        }
    }
}

// A disk of 32 units of which the call fails that comes when so many have passed.
fn failing_disk(alloc: Global, passes: u64) -> Result<Vec<FailingDisk<MemoryDisk>>, AllocError> {
    let mut disks = Vec::new(alloc);
    disks.push(FailingDisk::new(MemoryDisk::new(alloc, 32)?, passes))?;
    Ok(disks)
}

// As many calls pass at first as there are blocks, which are written. The step is the number of the call that fails.
fn check_row(alloc: Global, row: &Row) -> Outcome {
    for number in 0..calls_of(row).saturating_add(1) {
        let disks = failing_disk(alloc, number.saturating_add(BLOCKS as u64))?;
        pass!(holds_over(alloc, disks, &Turn { row, number }).at_step(number as usize));
    }
    Ok(())
}

#[test]
fn each_call_of_the_disk_fails(rt: HostRuntime) -> Outcome {
    for (number, row) in ROWS.iter().enumerate() {
        pass!(check_row(rt.alloc(), row).in_row(number));
    }
    Ok(())
}
