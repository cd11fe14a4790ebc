//! The admin queues, and what was seen on them.

/// How far a connection is.
#[derive(Clone, Copy, PartialEq, Eq)]
pub enum Stage {
    Closed,
    Opened,
    Connected,
    /// The target ended it, and it is not given up yet.
    Ended,
}

/// An admin queue and its controller, or the connection that is to become it.
#[derive(Clone, Copy)]
pub struct Queue {
    pub stage: Stage,
    /// The number of its connection.
    pub number: usize,
    /// 0 where there is no controller.
    pub cntlid: u16,
    pub is_enabled: bool,
    pub is_shut: bool,
    /// How many responses it was sent, modulo its entries.
    pub head: u8,
}

/// One that is not open.
pub const CLOSED: Queue = Queue {
    stage: Stage::Closed,
    number: 0,
    cntlid: 0,
    is_enabled: false,
    is_shut: false,
    head: 0,
};

/// What was seen.
#[derive(Clone, Copy)]
pub struct Seen {
    /// Requests that edits completed, and that were completed at once.
    pub by_edits: usize,
    pub by_requests: usize,
    /// Requests beyond the limit, with a CID that waits, and beyond SQSIZE.
    pub exceeded: usize,
    pub conflicts: usize,
    pub faults: usize,
    /// Reads that were done, and those with RAE 1 that emptied a list of changed namespaces.
    pub reads: usize,
    pub emptied: usize,
    /// Lists of changed namespaces without an entry that is 0, and with none for more that changed.
    pub full: usize,
    pub overflowed: usize,
    /// Controllers that edits ended.
    pub ended: usize,
    /// Edits that changed the namespaces that one of the first two hosts sees, and not those of the other.
    pub apart: usize,
    /// Controllers that waited for an event of their namespaces, and that such an edit of another's left waiting.
    pub left: usize,
    /// Log pages, and structures of Identify, told to a host that did not see all namespaces.
    pub partial: usize,
    /// Namespaces that were deleted while a host was shown them, and shown again to a host that saw them before.
    pub deleted: usize,
    pub again: usize,
    /// Hosts that were forbidden the subsystem while they were shown a namespace.
    pub forbidden: usize,
}

/// Nothing yet.
pub const NOTHING_SEEN: Seen = Seen {
    by_edits: 0,
    by_requests: 0,
    exceeded: 0,
    conflicts: 0,
    faults: 0,
    reads: 0,
    emptied: 0,
    full: 0,
    overflowed: 0,
    ended: 0,
    apart: 0,
    left: 0,
    partial: 0,
    deleted: 0,
    again: 0,
    forbidden: 0,
};

impl Seen {
    /// A read was done.
    pub fn read(&mut self, empties: bool) {
        self.reads = self.reads.saturating_add(1);
        self.emptied = self.emptied.saturating_add(usize::from(empties));
    }

    /// Of a list of changed namespaces something was read.
    pub fn list(&mut self, page: &[u8]) {
        let has_overflowed = page.starts_with(&[0xFF; 4]);
        let is_full = !has_overflowed && !page.ends_with(&[0; 4]);
        self.full = self.full.saturating_add(usize::from(is_full));
        self.overflowed = self.overflowed.saturating_add(usize::from(has_overflowed));
    }
}
