//! A disk of which one read finds other bytes than were written: a Read returns these, and a Compare compares with them.
use crate::commands::{before, begins};
use block_store::{MemoryDisk, StrayingDisk};
use std::alloc::{AllocError, Global};
use testkit_tables::{Outcome, Placed, check, pass};
use testkit_targets::queues::{
    COMPARE_FAILURE, Command, Driver, Opcode, SUCCESS, Script, holds_over, part, put,
};

type StrayingDriver = Driver<StrayingDisk<MemoryDisk>>;

const LEN: usize = 3 * 512;

// What a host asks of blocks 1 to 3: it reads them, or compares them with what was written or with what is found.
#[derive(Clone, Copy)]
enum Asked {
    Read,
    CompareWritten,
    CompareFound,
}

const ASKED: [Asked; 3] = [Asked::Read, Asked::CompareWritten, Asked::CompareFound];

// The read of the block of this number of the three strays: one bit of its first byte is turned.
#[derive(Clone, Copy)]
struct Stray {
    asked: Asked,
    number: usize,
}

impl Stray {
    fn found(self) -> [u8; LEN] {
        let mut bytes = written();
        let place = self.number.saturating_mul(512);
        if place < LEN {
            bytes[place] ^= 1;
        }
        bytes
    }
}

fn written() -> [u8; LEN] {
    let mut bytes = [0; LEN];
    put(&mut bytes, 0, part(&before(), 512, LEN));
    bytes
}

// Whether a Compare with these bytes is answered so.
fn compares(driver: &mut StrayingDriver, bytes: &[u8], status: [u8; 2]) -> bool {
    let compare = Command::of(Opcode::Compare, 1, 1, 3);
    driver.answers(0, &compare, bytes, &[], status)
}

// Whether what is asked is answered by what is found, and asked again by what was written.
fn is_answered(driver: &mut StrayingDriver, stray: Stray) -> bool {
    let read = Command::of(Opcode::Read, 1, 1, 3);
    let (written, found) = (written(), stray.found());
    match stray.asked {
        Asked::Read => driver.reads(0, &read, &found) && driver.reads(1, &read, &written),
        Asked::CompareWritten => {
            compares(driver, &written, COMPARE_FAILURE) && compares(driver, &written, SUCCESS)
        }
        Asked::CompareFound => {
            compares(driver, &found, SUCCESS) && compares(driver, &found, COMPARE_FAILURE)
        }
    }
}

impl Script<StrayingDisk<MemoryDisk>> for Stray {
    fn holds(&self, driver: &mut StrayingDriver) -> Outcome {
        let begins = begins(driver);
        check(begins && is_answered(driver, *self), "what is found")
    }
}

// A disk of 32 units of which the read strays that comes when so many have passed.
fn straying_disk(alloc: Global, passes: u64) -> Result<Vec<StrayingDisk<MemoryDisk>>, AllocError> {
    let mut disks = Vec::new(alloc);
    disks.push(StrayingDisk::new(MemoryDisk::new(alloc, 32)?, passes))?;
    Ok(disks)
}

#[test]
fn what_is_found_is_answered(rt: HostRuntime) -> Outcome {
    for (row, asked) in ASKED.iter().enumerate() {
        for number in 0..3 {
            let disks = straying_disk(rt.alloc(), number as u64)?;
            let stray = Stray {
                asked: *asked,
                number,
            };
            pass!(
                holds_over(rt.alloc(), disks, &stray)
                    .at_step(number)
                    .in_row(row)
            );
        }
    }
    Ok(())
}
