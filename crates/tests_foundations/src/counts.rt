//! A disk counts its failures as it likes, as long as each of them, and nothing else, changes the count. And
//! a range over a disk that has no call for it is one call for each unit.
use super::checked::{compare, read, write, zero};
use block_store::{Disk, DiskFault, MemoryDisk, Store, UNIT_LEN};
use std::alloc::AllocError;
use testkit_tables::{Outcome, check_number};

// A disk in memory of which each second call fails; it counts each failure as three.
#[derive(Drop)]
struct StumblingDisk {
    disk: MemoryDisk,
    stumbles: bool,
    count: u64,
}

impl StumblingDisk {
    ghost use Rattle.std.specs.Prelude.{◌≡◌};
    ghost use Rattle.block_store.specs.Faults.{Counts};

    fn stumble(&mut self) -> Result<(), DiskFault>
        ensures disk { self.new.disk ≡ self.old.disk }
        ensures counts { Counts result self.old.count self.new.count }
    {
        self.stumbles = !self.stumbles;
        if self.stumbles {
            self.count = self.count.wrapping_add(3);
            return Err(DiskFault);
        }
        Ok(())
    }
}

impl Disk for StumblingDisk {
    ghost use Rattle.std.specs.Prelude.{◌+◌};
    ghost use Rattle.block_store.specs.Memory.{memory_contents, memory_whole};

    ghost contents = { λ stumbling. memory_contents stumbling.disk };

    ghost synced = { λ stumbling. memory_contents stumbling.disk };

    ghost faults = { λ stumbling. stumbling.count + stumbling.disk.faults };

    ghost strays = { λ stumbling. 0 };

    ghost whole = { λ stumbling. memory_whole stumbling.disk };

    fn blocks(&self) -> u64 {
        self.disk.blocks()
    }

    fn read(&mut self, unit: u64, out: &mut [u8; 512]) -> Result<(), DiskFault> {
        self.stumble()?;
        self.disk.read(unit, out)
    }

    fn write(&mut self, unit: u64, bytes: &[u8; 512]) -> Result<(), DiskFault> {
        self.stumble()?;
        self.disk.write(unit, bytes)
    }

    fn sync(&mut self) -> Result<(), DiskFault> {
        self.stumble()?;
        self.disk.sync()
    }
}

#[test]
fn a_disk_counts_as_it_likes(rt: HostRuntime) -> Result<(), AllocError> {
    let mut store = Store::new(StumblingDisk {
        disk: MemoryDisk::new(rt.alloc(), 2)?,
        stumbles: false,
        count: u64::MAX,
    });
    let written = [
        store.write(1, &[7; UNIT_LEN]),
        store.write(1, &[7; UNIT_LEN]),
    ];
    let synced = [store.sync(), store.sync()];
    assert!(rt; written == [Err(DiskFault), Ok(())]);
    assert!(rt; synced == [Err(DiskFault), Ok(())]);
    assert!(rt; store.disk().count == 5);
    Ok(())
}

// A disk in memory with the four calls alone, which counts those of read and of write.
#[derive(Drop)]
struct CountingDisk {
    disk: MemoryDisk,
    reads: u64,
    writes: u64,
}

impl Disk for CountingDisk {
    ghost use Rattle.block_store.specs.Memory.{memory_contents, memory_whole};

    ghost contents = { λ counting. memory_contents counting.disk };

    ghost synced = { λ counting. memory_contents counting.disk };

    ghost faults = { λ counting. counting.disk.faults };

    ghost strays = { λ counting. 0 };

    ghost whole = { λ counting. memory_whole counting.disk };

    fn blocks(&self) -> u64 {
        self.disk.blocks()
    }

    fn read(&mut self, unit: u64, out: &mut [u8; 512]) -> Result<(), DiskFault> {
        self.reads = self.reads.wrapping_add(1);
        self.disk.read(unit, out)
    }

    fn write(&mut self, unit: u64, bytes: &[u8; 512]) -> Result<(), DiskFault> {
        self.writes = self.writes.wrapping_add(1);
        self.disk.write(unit, bytes)
    }

    fn sync(&mut self) -> Result<(), DiskFault> {
        self.disk.sync()
    }
}

#[test]
fn a_range_is_a_call_for_each_unit(rt: HostRuntime) -> Outcome {
    let mut store = Store::new(CountingDisk {
        disk: MemoryDisk::new(rt.alloc(), 9)?,
        reads: 0,
        writes: 0,
    });
    let bytes = [7; 4 * UNIT_LEN];
    let mut out = [0xA5; 5 * UNIT_LEN];
    assert!(rt; write(&mut store, 2, &bytes).is_ok());
    assert!(rt; zero(&mut store, 3, 2).is_ok());
    assert!(rt; compare(&mut store, 2, &bytes) == Ok(false));
    assert!(rt; read(&mut store, 1, &mut out).is_ok());
    check_number(store.disk().writes, 6)?;
    check_number(store.disk().reads, 9)
}
