//! Hosts that wait to be told of edits.
use crate::target_queues::capsules::{enable_events, event_request, list_read, log_page, log_read};
use block_store::MemoryDisk;
use nvt_config::Edit;
use std::alloc::{AllocError, Global};
use testkit_edits::{ic_req, memory_disks};
use testkit_targets::TestTarget;
use testkit_targets::queues::{connect_to, enable};

const DISKS: usize = 256;

const UNITS: u64 = 64;

const HEADER_LEN: usize = 24;

// The event requests of a host that wait have the CIDs from this one on.
const FIRST_REQUEST: u8 = 0x20;

const REQUESTS: u8 = 4;

const CHANGED_NAMESPACES: u8 = 0x04;

const CHANGED_NAMESPACES_LEN: u16 = 4_096;

// A list of namespaces has as many bytes, of those that are active and of those that changed.
const LIST_ANSWER: usize = 2 * HEADER_LEN + CHANGED_NAMESPACES_LEN as usize;

const ANA: u8 = 0x0C;

// More than the page has: as much as that of 32 groups and 1,024 namespaces would.
const ANA_LEN: u16 = 5_136;

const ANA_ANSWER: usize = 2 * HEADER_LEN + ANA_LEN as usize;

/// What a host reads of the namespaces that it sees.
#[derive(Clone, Copy)]
pub enum Page {
    /// Identify 02h: the list of active namespaces.
    ActiveNamespaces,
    /// Log page 04h: the list of changed namespaces.
    ChangedNamespaces,
    /// Log page 0Ch: the ANA groups.
    Ana,
}

impl Page {
    // The page that an event names by its log page.
    fn told_of(log_page: u8) -> Option<Page> {
        match log_page {
            CHANGED_NAMESPACES => Some(Page::ChangedNamespaces),
            ANA => Some(Page::Ana),
            _ => None,
        }
    }
}

// What a host sends after an event.
#[derive(Drop)]
struct Capsules {
    requests: Vec<Vec<u8>>,
    changed_namespaces: Vec<u8>,
    ana: Vec<u8>,
    active_namespaces: Vec<u8>,
}

impl Capsules {
    fn new(alloc: Global) -> Result<Capsules, AllocError> {
        let mut requests = Vec::new(alloc);
        for number in 0..REQUESTS {
            requests.push(event_request(alloc, FIRST_REQUEST + number)?)?;
        }
        Ok(Capsules {
            requests,
            changed_namespaces: log_read(alloc, CHANGED_NAMESPACES, CHANGED_NAMESPACES_LEN)?,
            ana: log_read(alloc, ANA, ANA_LEN)?,
            active_namespaces: list_read(alloc)?,
        })
    }

    // The read of a page, and how many bytes it is answered.
    fn read(&self, page: Page) -> (&[u8], usize) {
        match page {
            Page::ActiveNamespaces => (&self.active_namespaces, LIST_ANSWER),
            Page::ChangedNamespaces => (&self.changed_namespaces, LIST_ANSWER),
            Page::Ana => (&self.ana, ANA_ANSWER),
        }
    }

    // The event request of a CID.
    fn request(&self, cid: u8) -> Option<&[u8]> {
        match self
            .requests
            .get(usize::from(cid.wrapping_sub(FIRST_REQUEST)))
        {
            Some(request) => Some(request),
            None => None,
        }
    }
}

/// A target over disks in memory, and hosts on it, each with the admin queue of an I/O controller on
/// which four event requests wait.
pub struct Hosts {
    target: TestTarget<MemoryDisk>,
    capsules: Capsules,
    count: usize,
}

// It is not derived: that would be proved again wherever one is dropped, down to the last field.
impl Drop for Hosts {
    fn drop(self) {
        let Hosts {
            target,
            capsules,
            count: _,
        } = self;
        drop(target);
        drop(capsules);
    }
}

impl Hosts {
    /// Makes the edits, and connects each host that one of them lets use the subsystem that the first
    /// one adds; nothing where a call does not go as it has to.
    pub fn connected(alloc: Global, edits: &[Edit]) -> Option<Hosts> {
        let disks = memory_disks(alloc, &[UNITS; DISKS]).ok()?;
        let capsules = Capsules::new(alloc).ok()?;
        let target = TestTarget::over(alloc, disks)?;
        let mut hosts = Hosts {
            target,
            capsules,
            count: 0,
        };
        if hosts.begin(alloc, edits) {
            Some(hosts)
        } else {
            None
        }
    }

    fn begin(&mut self, alloc: Global, edits: &[Edit]) -> bool {
        let Some(Edit::SubsystemAdd { nqn, .. }) = edits.first() else {
            return false;
        };
        let mut begins = true;
        for edit in edits {
            begins &= self.target.makes(edit);
        }
        for edit in edits {
            if let Edit::AllowAdd { subsystem, host } = edit
                && subsystem == nqn
            {
                begins &= self.connects(alloc, subsystem.as_bytes(), host.as_bytes());
            }
        }
        begins
    }

    // Connects a host, and leaves its event requests with the target.
    fn connects(&mut self, alloc: Global, subsystem: &[u8], host: &[u8]) -> bool {
        let k = self.count;
        self.count = k.saturating_add(1);
        let connects = self.target.opens(k)
            && self.takes(k, ic_req(alloc))
            && self.takes(k, connect_to(alloc, subsystem, host))
            && self.takes(k, enable(alloc))
            && self.takes(k, enable_events(alloc));
        let mut waits = connects;
        for request in &self.capsules.requests {
            waits &= self.target.takes(k, request);
        }
        waits && self.target.sent(k).len() == 128 + 3 * HEADER_LEN && self.target.empties(k)
    }

    fn takes(&mut self, k: usize, pdu: Result<Vec<u8>, AllocError>) -> bool {
        match pdu {
            Ok(bytes) => self.target.takes(k, &bytes),
            Err(AllocError) => false,
        }
    }

    /// How many hosts there are.
    pub fn count(&self) -> usize {
        self.count
    }

    /// Whether an edit is accepted.
    pub fn makes(&mut self, edit: &Edit) -> bool {
        self.target.makes(edit)
    }

    /// Whether each of these edits is accepted.
    pub fn makes_all(&mut self, edits: &[Edit]) -> bool {
        let mut makes = true;
        for edit in edits {
            makes &= self.target.makes(edit);
        }
        makes
    }

    /// Each host that was told reads the log page that it was told of, and sends an event request for
    /// the one that was completed. How many did, where all was answered as it has to be.
    pub fn read(&mut self) -> Option<usize> {
        let mut told: usize = 0;
        for k in 0..self.count {
            if !self.target.sent(k).is_empty() {
                if !self.reads_told(k) {
                    return None;
                }
                told = told.saturating_add(1);
            }
        }
        Some(told)
    }

    fn reads_told(&mut self, k: usize) -> bool {
        let sent = self.target.sent(k);
        let (Some(log_page), Some(cid)) = (log_page(sent), sent.get(20)) else {
            return false;
        };
        let (Some(page), Some(request)) = (Page::told_of(log_page), self.capsules.request(*cid))
        else {
            return false;
        };
        let (read, answer_len) = self.capsules.read(page);
        sent.len() == HEADER_LEN
            && self.target.empties(k)
            && self.target.takes(k, read)
            && self.target.sent(k).len() == answer_len
            && self.target.empties(k)
            && self.target.takes(k, request)
            && self.target.sent(k).is_empty()
    }

    /// Whether the first host, which leaves what it was sent before, is sent this page, each of so many times.
    pub fn reads(&mut self, page: Page, times: u32) -> bool {
        let (read, answer_len) = self.capsules.read(page);
        let mut reads = self.target.empties(0);
        for _ in 0..times {
            reads &= self.target.takes(0, read)
                && self.target.sent(0).len() == answer_len
                && self.target.empties(0);
        }
        reads
    }

    /// Whether each host was told that namespaces changed, and nothing else. It sends an event request for
    /// the one that was completed.
    pub fn wait_anew(&mut self) -> bool {
        let mut wait = true;
        for k in 0..self.count {
            wait &= self.waits_anew(k);
        }
        wait
    }

    fn waits_anew(&mut self, k: usize) -> bool {
        let sent = self.target.sent(k);
        let (Some(CHANGED_NAMESPACES), Some(cid)) = (log_page(sent), sent.get(20)) else {
            return false;
        };
        let Some(request) = self.capsules.request(*cid) else {
            return false;
        };
        sent.len() == HEADER_LEN && self.target.empties(k) && self.target.takes(k, request)
    }

    /// Whether each host is sent its list of changed namespaces, which has three, each below 256.
    pub fn read_changed(&mut self) -> bool {
        let mut reads = true;
        for k in 0..self.count {
            reads &= self.target.takes(k, &self.capsules.changed_namespaces)
                && has_three(self.target.sent(k))
                && self.target.empties(k);
        }
        reads
    }
}

// Whether a list of namespaces was sent in which the third entry is the last.
fn has_three(sent: &[u8]) -> bool {
    sent.len() == LIST_ANSWER && sent.get(32) != Some(&0) && sent.get(36) == Some(&0)
}
