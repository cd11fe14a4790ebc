//! A target at the limits of its configuration, and the host of a discovery controller on it.
use crate::target_queues::capsules::log_read;
use block_store::MemoryDisk;
use nvt_config::Edit;
use std::alloc::{AllocError, Global};
use testkit_edits::{ic_req, memory_disks};
use testkit_targets::TestTarget;
use testkit_targets::queues::{connect_to, enable};

const DISKS: usize = 256;

const UNITS: u64 = 64;

const HEADER_LEN: usize = 24;

const DISCOVERY: &[u8] = b"nqn.2014-08.org.nvmexpress.discovery";

const DISCOVERY_LOG: u8 = 0x70;

// How many bytes of a page a host reads at once: the header and 31 records.
const PAGE_LEN: usize = 32_768;

/// A target over disks in memory, and one host on it, with a discovery controller.
pub struct Limits {
    target: TestTarget<MemoryDisk>,
    read: Vec<u8>,
}

// It is not derived: that would be proved again wherever one is dropped, down to the last field.
impl Drop for Limits {
    fn drop(self) {
        let Limits { target, read } = self;
        drop(target);
        drop(read);
    }
}

impl Limits {
    /// Makes the edits, and connects the host that one of them lets use a subsystem first; nothing where
    /// a call does not go as it has to.
    pub fn configured(alloc: Global, edits: &[Edit]) -> Option<Limits> {
        let disks = memory_disks(alloc, &[UNITS; DISKS]).ok()?;
        let read = log_read(alloc, DISCOVERY_LOG, PAGE_LEN as u16).ok()?;
        let target = TestTarget::over(alloc, disks)?;
        let mut limits = Limits { target, read };
        if limits.begin(alloc, edits) {
            Some(limits)
        } else {
            None
        }
    }

    fn begin(&mut self, alloc: Global, edits: &[Edit]) -> bool {
        let mut begins = true;
        for edit in edits {
            begins &= self.target.makes(edit);
        }
        for edit in edits {
            if let Edit::AllowAdd { host, .. } = edit {
                return begins && self.connects(alloc, host.as_bytes());
            }
        }
        false
    }

    fn connects(&mut self, alloc: Global, host: &[u8]) -> bool {
        self.target.opens(0)
            && self.takes(ic_req(alloc))
            && self.takes(connect_to(alloc, DISCOVERY, host))
            && self.takes(enable(alloc))
            && self.target.sent(0).len() == 128 + 2 * HEADER_LEN
            && self.target.empties(0)
    }

    fn takes(&mut self, pdu: Result<Vec<u8>, AllocError>) -> bool {
        match pdu {
            Ok(bytes) => self.target.takes(0, &bytes),
            Err(AllocError) => false,
        }
    }

    /// Whether each of these edits is accepted.
    pub fn makes_all(&mut self, edits: &[Edit]) -> bool {
        let mut makes = true;
        for edit in edits {
            makes &= self.target.makes(edit);
        }
        makes
    }

    /// Whether the host is sent as much of its discovery log page as it asks for, each of so many times.
    pub fn reads(&mut self, times: u32) -> bool {
        let mut reads = true;
        for _ in 0..times {
            reads &= self.target.takes(0, &self.read)
                && self.target.sent(0).len() == HEADER_LEN + PAGE_LEN + HEADER_LEN
                && self.target.empties(0);
        }
        reads
    }
}
