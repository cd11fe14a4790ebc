//! Edits, and what a plain program knows of the configuration that they leave.
use crate::plain::places::place_of;
use nvt_config::{Access, AnaState};
use testkit_edits::{A, Blocks, Line, host_name, uuid_byte};

/// How many units of 512 bytes each disk has.
pub const UNITS: [u64; 3] = [40, 48, 24];

/// A namespace: its disk, how many blocks it has and of how many bytes, and its ANA group, 1 or 2.
#[derive(Clone, Copy)]
pub struct Namespace {
    pub disk: usize,
    pub blocks: u32,
    pub block_size: u32,
    pub group: usize,
}

/// What an edit changes. Namespaces are 1 to 3.
#[derive(Clone, Copy)]
pub enum Change {
    Add(usize, Namespace),
    Delete(usize),
    Resize(usize, u32),
    Regroup(usize, usize),
    Link(usize),
    Unlink(usize),
    Allow(usize),
    Forbid(usize),
    SetAccess(Access),
    // Of a port and a group.
    SetState(usize, usize, AnaState),
}

/// What a plain program knows of the configuration. There are three namespaces, three hosts, three ports and
/// two groups.
#[derive(Clone, Copy)]
pub struct Layout {
    pub namespaces: [Option<Namespace>; 4],
    pub is_open: bool,
    pub allowed: [bool; 3],
    pub linked: [bool; 4],
    pub states: [[AnaState; 3]; 4],
}

/// What is there before the first namespace: three ports and three hosts, each linked and allowed.
pub const AT_FIRST: Layout = Layout {
    namespaces: [None; 4],
    is_open: false,
    allowed: [true; 3],
    linked: [false, true, true, true],
    states: [[AnaState::Optimized; 3]; 4],
};

/// The line of an edit.
pub fn line_of(change: Change) -> Line<'static> {
    match change {
        Change::Add(nsid, namespace) => Line::NamespaceAdd(A, blocks_of(nsid, namespace)),
        Change::Delete(nsid) => Line::NamespaceDel(A, nsid as u64),
        Change::Resize(nsid, blocks) => Line::NamespaceSize(A, nsid as u64, u64::from(blocks)),
        Change::Regroup(nsid, group) => Line::NamespaceGroup(A, nsid as u64, group as u64),
        Change::Link(port) => Line::LinkAdd(port as u64, A),
        Change::Unlink(port) => Line::LinkDel(port as u64, A),
        Change::Allow(host) => Line::AllowAdd(A, host_name(host)),
        Change::Forbid(host) => Line::AllowDel(A, host_name(host)),
        Change::SetAccess(access) => Line::SubsystemSet(A, access),
        Change::SetState(port, group, state) => {
            Line::AnaSet(port as u64, A, group as u64, state)
        }
    }
}

fn blocks_of(nsid: usize, namespace: Namespace) -> Blocks {
    Blocks {
        nsid: nsid as u64,
        disk: namespace.disk as u64,
        blocks: u64::from(namespace.blocks),
        block_size: u64::from(namespace.block_size),
        uuid: uuid_byte(nsid),
        group: namespace.group as u64,
    }
}

// Whether a disk has so many blocks, and there are some.
fn fits(disk: usize, blocks: u32, block_size: u32) -> bool {
    let bytes = u64::from(blocks).saturating_mul(u64::from(block_size));
    blocks > 0 && bytes <= UNITS[disk % 3].saturating_mul(512)
}

impl Layout {
    /// A namespace, if it is there.
    pub fn namespace(&self, nsid: usize) -> Option<Namespace> {
        if nsid < 4 {
            self.namespaces[nsid]
        } else {
            None
        }
    }

    /// Whether the subsystem is linked to a port.
    pub fn is_linked(&self, port: usize) -> bool {
        self.linked[port % 4]
    }

    /// Whether the host of a queue may use the subsystem by its port.
    pub fn may(&self, queue: usize) -> bool {
        let place = place_of(queue);
        self.is_linked(place.port) && (self.is_open || self.allowed[place.host % 3])
    }

    /// The state of a group on a port.
    pub fn state(&self, port: usize, group: usize) -> AnaState {
        self.states[port % 4][group % 3]
    }

    fn uses_disk(&self, disk: usize) -> bool {
        for namespace in &self.namespaces {
            if let Some(namespace) = namespace
                && namespace.disk == disk
            {
                return true;
            }
        }
        false
    }

    /// Whether the target accepts an edit.
    pub fn accepts(&self, change: Change) -> bool {
        match change {
            Change::Add(nsid, n) => {
                self.namespace(nsid).is_none()
                    && !self.uses_disk(n.disk)
                    && fits(n.disk, n.blocks, n.block_size)
            }
            Change::Delete(nsid) | Change::Regroup(nsid, _) => self.namespace(nsid).is_some(),
            Change::Resize(nsid, blocks) => match self.namespace(nsid) {
                Some(n) => fits(n.disk, blocks, n.block_size),
                None => false,
            },
            Change::Link(port) => !self.linked[port % 4],
            Change::Unlink(port) | Change::SetState(port, _, _) => self.linked[port % 4],
            Change::Allow(host) => !self.allowed[host % 3],
            Change::Forbid(host) => self.allowed[host % 3],
            Change::SetAccess(_) => true,
        }
    }

    /// Makes an edit that is accepted. The ANA states of a link go with it.
    pub fn make(&mut self, change: Change) {
        match change {
            Change::Add(nsid, namespace) => self.namespaces[nsid % 4] = Some(namespace),
            Change::Delete(nsid) => self.namespaces[nsid % 4] = None,
            Change::Resize(nsid, blocks) => {
                if let Some(n) = self.namespace(nsid) {
                    self.namespaces[nsid % 4] = Some(Namespace { blocks, ..n });
                }
            }
            Change::Regroup(nsid, group) => {
                if let Some(n) = self.namespace(nsid) {
                    self.namespaces[nsid % 4] = Some(Namespace { group, ..n });
                }
            }
            Change::Link(port) => self.linked[port % 4] = true,
            Change::Unlink(port) => {
                self.linked[port % 4] = false;
                self.states[port % 4] = [AnaState::Optimized; 3];
            }
            Change::Allow(host) => self.allowed[host % 3] = true,
            Change::Forbid(host) => self.allowed[host % 3] = false,
            Change::SetAccess(access) => self.is_open = access == Access::Open,
            Change::SetState(port, group, state) => self.states[port % 4][group % 3] = state,
        }
    }
}
