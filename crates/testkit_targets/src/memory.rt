//! A target over disks in memory. It has no type parameter, so what drops it is proved here, once.
use crate::target::TestTarget;
use block_store::MemoryDisk;
use std::alloc::Global;
use testkit_edits::{Line, memory_disks};

/// A target over disks in memory whose calls are to go well, each as `TestTarget`'s of that name.
pub struct MemoryTarget {
    target: TestTarget<MemoryDisk>,
}

// Written out, so that whoever lets one fall proves one call.
impl Drop for MemoryTarget {
    fn drop(self) {
        let MemoryTarget { target } = self;
        drop(target);
    }
}

impl MemoryTarget {
    /// A target over disks of so many units of zeros.
    pub fn new(alloc: Global, units: &[u64]) -> Option<MemoryTarget> {
        let disks = memory_disks(alloc, units).ok()?;
        let target = TestTarget::over(alloc, disks)?;
        Some(MemoryTarget { target })
    }

    pub fn edits(&mut self, line: Line<'_>) -> bool {
        self.target.edits(line)
    }

    pub fn opens_on(&mut self, port: u16, k: usize) -> bool {
        self.target.opens_on(port, k)
    }

    pub fn takes(&mut self, k: usize, bytes: &[u8]) -> bool {
        self.target.takes(k, bytes)
    }

    pub fn ends_by(&mut self, k: usize, bytes: &[u8]) -> bool {
        self.target.ends_by(k, bytes)
    }

    pub fn waits_for_more(&mut self, k: usize, bytes: &[u8]) -> bool {
        self.target.waits_for_more(k, bytes)
    }

    pub fn is_ended(&self, k: usize) -> bool {
        self.target.is_ended(k)
    }

    pub fn gives_up(&mut self, k: usize) {
        self.target.gives_up(k);
    }

    pub fn sent(&self, k: usize) -> &[u8] {
        self.target.sent(k)
    }

    pub fn empties(&mut self, k: usize) -> bool {
        self.target.empties(k)
    }
}
