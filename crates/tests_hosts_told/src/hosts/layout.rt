//! Edits, what a plain program knows of the configuration that they leave, and what each controller shows of it.
use nvt_config::{Access, AnaState, Family, Visibility};
use testkit_edits::{A, Blocks, H0, H1, Line, host_name, uuid_byte};

/// The discovery subsystem.
pub const DISCOVERY_NQN: &[u8] = b"nqn.2014-08.org.nvmexpress.discovery";

/// A controller, by its admin queue: its host, its port, and whether it is a discovery controller.
#[derive(Clone, Copy)]
pub struct Place {
    pub host: usize,
    pub port: usize,
    pub is_discovery: bool,
}

/// How many controllers there are at most.
pub const QUEUES: usize = 8;

// The third host is never added: a stranger.
const PLACES: [Place; QUEUES] = [
    Place {
        host: 0,
        port: 1,
        is_discovery: false,
    },
    Place {
        host: 0,
        port: 2,
        is_discovery: false,
    },
    Place {
        host: 1,
        port: 1,
        is_discovery: false,
    },
    Place {
        host: 1,
        port: 2,
        is_discovery: false,
    },
    Place {
        host: 2,
        port: 1,
        is_discovery: false,
    },
    Place {
        host: 0,
        port: 3,
        is_discovery: true,
    },
    Place {
        host: 1,
        port: 3,
        is_discovery: true,
    },
    Place {
        host: 2,
        port: 3,
        is_discovery: true,
    },
];

/// The place of a queue's controller.
pub fn place_of(queue: usize) -> Place {
    PLACES[queue % QUEUES]
}

/// The kinds of events, in their order.
#[derive(Clone, Copy, PartialEq, Eq)]
pub enum Kind {
    Namespace,
    Ana,
    Discovery,
}

/// Each kind once.
pub const KINDS: [Kind; 3] = [Kind::Namespace, Kind::Ana, Kind::Discovery];

/// A namespace: how many blocks it has, whether these have 4,096 bytes, and its group, 1 or 2.
#[derive(Clone, Copy)]
pub struct Namespace {
    pub blocks: u8,
    pub is_large: bool,
    pub group: usize,
}

/// The identifiers of the three namespaces: the least, one more than a list has entries, and the greatest.
pub fn nsid_of(namespace: usize) -> u32 {
    match namespace {
        1 => 1,
        2 => 1_025,
        _ => 4_096,
    }
}

/// The first identifier of those that a sweep has come and go, and the first behind them. They are as many as a
/// list has entries, and lie between those of the second namespace and the third.
pub const SWEPT_FIRST: u32 = 1_026;

/// The first identifier behind them.
pub const SWEPT_END: u32 = 2_050;

/// The lines of a sweep by which a namespace comes and goes, on a disk that no other has.
pub fn swept_lines(nsid: u32) -> [Line<'static>; 2] {
    let blocks = Blocks {
        nsid: u64::from(nsid),
        disk: 0,
        blocks: 8,
        block_size: 512,
        uuid: 0x44,
        group: 1,
    };
    [
        Line::NamespaceAdd(A, blocks),
        Line::NamespaceDel(A, u64::from(nsid)),
    ]
}

/// What an edit changes of who sees a namespace.
#[derive(Clone, Copy)]
pub enum Sight {
    View(usize, Visibility),
    /// The namespace, and the host.
    Show(usize, usize),
    Hide(usize, usize),
}

/// What an edit changes. Namespaces are 1 to 3, ports and referrals 1 and 2, hosts 0 to 2.
#[derive(Clone, Copy)]
pub enum Change {
    Add(usize, Namespace),
    Delete(usize),
    Resize(usize, u8),
    Regroup(usize, usize),
    See(Sight),
    SetState(usize, usize, AnaState),
    Link(usize),
    Unlink(usize),
    AddHost(usize),
    DeleteHost(usize),
    Allow(usize),
    Forbid(usize),
    SetAccess(Access),
    // Their services are not 0.
    SetPort(usize, u16),
    AddReferral(usize, u16),
    SetReferral(usize, u16),
    DeleteReferral(usize),
}

/// What a plain program knows of the configuration.
#[derive(Clone, Copy)]
pub struct Layout {
    pub namespaces: [Option<Namespace>; 4],
    /// Of each namespace whether named hosts alone see it, and to which hosts it is shown.
    pub named: [bool; 4],
    pub shown: [[bool; 3]; 4],
    pub states: [[AnaState; 3]; 4],
    pub linked: [bool; 4],
    pub live: [bool; 3],
    pub allowed: [bool; 3],
    pub is_open: bool,
    pub services: [u16; 4],
    // 0 where there is none.
    pub referrals: [u16; 4],
}

/// What is there after the lines that come first.
pub const AT_FIRST: Layout = Layout {
    namespaces: [None; 4],
    named: [false; 4],
    shown: [[false; 3]; 4],
    states: [[AnaState::Optimized; 3]; 4],
    linked: [false; 4],
    live: [true, true, false],
    allowed: [false; 3],
    is_open: false,
    services: [4420; 4],
    referrals: [0; 4],
};

/// The lines that come first. They change no discovery log page. The third host is never added.
pub const FIRST: &[Line<'static>] = &[
    Line::PortAdd(1, b"127.0.0.1", 4420),
    Line::PortAdd(2, b"127.0.0.1", 4420),
    Line::PortAdd(3, b"127.0.0.1", 4420),
    Line::SubsystemAdd(A, b"SN-A", Access::Closed),
    Line::HostAdd(H0),
    Line::HostAdd(H1),
];

/// The line of an edit.
pub fn line_of(change: Change) -> Line<'static> {
    match change {
        Change::Add(at, namespace) => Line::NamespaceAdd(A, blocks_of(at, namespace)),
        Change::Delete(at) => Line::NamespaceDel(A, u64::from(nsid_of(at))),
        Change::Resize(at, blocks) => {
            Line::NamespaceSize(A, u64::from(nsid_of(at)), u64::from(blocks))
        }
        Change::Regroup(at, group) => {
            Line::NamespaceGroup(A, u64::from(nsid_of(at)), group as u64)
        }
        Change::See(sight) => line_of_sight(sight),
        Change::SetState(port, group, state) => {
            Line::AnaSet(port as u64, A, group as u64, state)
        }
        Change::Link(port) => Line::LinkAdd(port as u64, A),
        Change::Unlink(port) => Line::LinkDel(port as u64, A),
        Change::AddHost(host) => Line::HostAdd(host_name(host)),
        Change::DeleteHost(host) => Line::HostDel(host_name(host)),
        Change::Allow(host) => Line::AllowAdd(A, host_name(host)),
        Change::Forbid(host) => Line::AllowDel(A, host_name(host)),
        Change::SetAccess(access) => Line::SubsystemSet(A, access),
        Change::SetPort(port, service) => {
            Line::PortSet(port as u64, Family::Ipv4, b"127.0.0.1", u64::from(service))
        }
        Change::AddReferral(id, service) => {
            Line::ReferralAdd(id as u64, b"127.0.0.9", u64::from(service))
        }
        Change::SetReferral(id, service) => {
            Line::ReferralSet(id as u64, Family::Ipv4, b"127.0.0.9", u64::from(service))
        }
        Change::DeleteReferral(id) => Line::ReferralDel(id as u64),
    }
}

fn line_of_sight(sight: Sight) -> Line<'static> {
    match sight {
        Sight::View(at, visibility) => {
            Line::NamespaceView(A, u64::from(nsid_of(at)), visibility)
        }
        Sight::Show(at, host) => { Line::NamespaceShow(A, u64::from(nsid_of(at)), host_name(host)) }
        Sight::Hide(at, host) => { Line::NamespaceHide(A, u64::from(nsid_of(at)), host_name(host)) }
    }
}

// Each namespace has a disk of its own.
fn blocks_of(at: usize, namespace: Namespace) -> Blocks {
    Blocks {
        nsid: u64::from(nsid_of(at)),
        disk: at as u64,
        blocks: u64::from(namespace.blocks),
        block_size: if namespace.is_large { 4096 } else { 512 },
        uuid: uuid_byte(at),
        group: namespace.group as u64,
    }
}

/// How many units each disk has: enough for 8 blocks of 4,096 bytes.
pub const UNITS: &[u64] = &[64; 4];

impl Layout {
    /// A namespace, if it is there.
    pub fn namespace(&self, at: usize) -> Option<Namespace> {
        self.namespaces.get(at).copied().flatten()
    }

    /// Whether a host may use the subsystem by a port.
    pub fn may(&self, host: usize, port: usize) -> bool {
        self.linked[port % 4] && (self.is_open || self.allowed[host % 3])
    }

    /// Whether a namespace is there and a host sees it: each host does, or it is shown to this one.
    pub fn sees(&self, host: usize, at: usize) -> bool {
        self.namespace(at).is_some() && (!self.named[at % 4] || self.is_shown(at, host))
    }

    /// The same with those namespaces alone that a host sees.
    pub fn seen_by(&self, host: usize) -> Layout {
        let mut seen = *self;
        for at in 1..4usize {
            if !self.sees(host, at) {
                seen.namespaces[at] = None;
            }
        }
        seen
    }

    /// Whether a host is shown a namespace, whoever sees that.
    pub fn is_shown(&self, at: usize, host: usize) -> bool {
        self.shown[at % 4][host % 3]
    }

    /// Whether a host is shown any.
    pub fn has_show(&self, host: usize) -> bool {
        self.is_shown(1, host) || self.is_shown(2, host) || self.is_shown(3, host)
    }

    /// How many namespaces are there.
    pub fn count(&self) -> u8 {
        self.count_in(1).saturating_add(self.count_in(2))
    }

    fn accepts_sight(&self, sight: Sight) -> bool {
        match sight {
            Sight::View(at, _) => self.namespace(at).is_some(),
            Sight::Show(at, host) => {
                self.namespace(at).is_some() && self.live[host % 3] && !self.is_shown(at, host)
            }
            Sight::Hide(at, host) => self.is_shown(at, host),
        }
    }

    /// Whether the target accepts an edit.
    pub fn accepts(&self, change: Change) -> bool {
        match change {
            Change::Add(at, _) => self.namespace(at).is_none(),
            Change::Delete(at) | Change::Resize(at, _) | Change::Regroup(at, _) => {
                self.namespace(at).is_some()
            }
            Change::See(sight) => self.accepts_sight(sight),
            Change::Link(port) => !self.linked[port % 4],
            Change::Unlink(port) | Change::SetState(port, _, _) => self.linked[port % 4],
            Change::AddHost(host) => !self.live[host % 3],
            Change::DeleteHost(host) => {
                self.live[host % 3] && !self.allowed[host % 3] && !self.has_show(host)
            }
            Change::Allow(host) => self.live[host % 3] && !self.allowed[host % 3],
            Change::Forbid(host) => self.allowed[host % 3],
            Change::SetAccess(_) | Change::SetPort(_, _) => true,
            Change::AddReferral(id, _) => self.referrals[id % 4] == 0,
            Change::SetReferral(id, _) | Change::DeleteReferral(id) => {
                self.referrals[id % 4] != 0
            }
        }
    }

    // A namespace comes, and each host sees it, or goes, and its shows with it.
    fn put(&mut self, at: usize, namespace: Option<Namespace>) {
        self.namespaces[at % 4] = namespace;
        self.named[at % 4] = false;
        self.shown[at % 4] = [false; 3];
    }

    fn see(&mut self, sight: Sight) {
        match sight {
            Sight::View(at, visibility) => self.named[at % 4] = visibility == Visibility::Named,
            Sight::Show(at, host) => self.shown[at % 4][host % 3] = true,
            Sight::Hide(at, host) => self.shown[at % 4][host % 3] = false,
        }
    }

    /// What an edit that is accepted leaves. The ANA states of a link go with it.
    pub fn after(&self, change: Change) -> Layout {
        let mut after = *self;
        match change {
            Change::Add(at, namespace) => after.put(at, Some(namespace)),
            Change::Delete(at) => after.put(at, None),
            Change::Resize(at, blocks) => {
                after.namespaces[at % 4] = self.namespace(at).map(|n| Namespace { blocks, ..n });
            }
            Change::Regroup(at, group) => {
                after.namespaces[at % 4] = self.namespace(at).map(|n| Namespace { group, ..n });
            }
            Change::See(sight) => after.see(sight),
            Change::SetState(port, group, state) => after.states[port % 4][group % 3] = state,
            Change::Link(port) => after.linked[port % 4] = true,
            Change::Unlink(port) => {
                after.linked[port % 4] = false;
                after.states[port % 4] = [AnaState::Optimized; 3];
            }
            Change::AddHost(host) => after.live[host % 3] = true,
            Change::DeleteHost(host) => after.live[host % 3] = false,
            Change::Allow(host) => after.allowed[host % 3] = true,
            Change::Forbid(host) => after.allowed[host % 3] = false,
            Change::SetAccess(access) => after.is_open = access == Access::Open,
            Change::SetPort(port, service) => after.services[port % 4] = service,
            Change::AddReferral(id, service) | Change::SetReferral(id, service) => {
                after.referrals[id % 4] = service;
            }
            Change::DeleteReferral(id) => after.referrals[id % 4] = 0,
        }
        after
    }

    /// Whether a namespace is there and of a group.
    pub fn is_in(&self, at: usize, group: usize) -> bool {
        self.namespace(at).is_some_and(|n| n.group == group)
    }

    /// How many namespaces a group has.
    pub fn count_in(&self, group: usize) -> u8 {
        let mut count = 0u8;
        for at in 1..4usize {
            count = count.saturating_add(u8::from(self.is_in(at, group)));
        }
        count
    }

    /// Whether a group has a namespace.
    pub fn has_group(&self, group: usize) -> bool {
        self.is_in(1, group) || self.is_in(2, group) || self.is_in(3, group)
    }

    /// The service of each record that a host's page has, or 0: those of the ports 1 and 2, and of the
    /// referrals 1 and 2.
    pub fn records(&self, host: usize) -> [u16; 4] {
        let mut records = [0, 0, self.referrals[1], self.referrals[2]];
        if self.may(host, 1) {
            records[0] = self.services[1];
        }
        if self.may(host, 2) {
            records[1] = self.services[2];
        }
        records
    }
}

/// Whether from one to the next, as a host sees both, a namespace changes its size, its block size or its
/// presence.
pub fn changes_namespace(old: &Layout, new: &Layout, at: usize) -> bool {
    match (old.namespace(at), new.namespace(at)) {
        (Some(old), Some(new)) => old.blocks != new.blocks || old.is_large != new.is_large,
        (None, None) => false,
        _ => true,
    }
}

fn changes_namespaces(old: &Layout, new: &Layout) -> bool {
    for at in 1..4 {
        if changes_namespace(old, new, at) {
            return true;
        }
    }
    false
}

// Whether an edit moves a namespace into a group, or out of it.
fn are_moved(old: &Layout, new: &Layout, group: usize) -> bool {
    for at in 1..4 {
        if old.is_in(at, group) != new.is_in(at, group) {
            return true;
        }
    }
    false
}

/// Whether from one to the next, as a host sees both, its controllers of a port show something else of a group.
pub fn changes_group(old: &Layout, new: &Layout, port: usize, group: usize) -> bool {
    let is_there = old.has_group(group) || new.has_group(group);
    let state = old.states[port % 4][group % 3];
    are_moved(old, new, group) || is_there && state != new.states[port % 4][group % 3]
}

/// Whether they show something else of any group.
pub fn changes_groups(old: &Layout, new: &Layout, port: usize) -> bool {
    changes_group(old, new, port, 1) || changes_group(old, new, port, 2)
}

/// Whether an edit changes what a controller shows of a kind. A controller without a kind shows nothing of it.
pub fn changes_view(old: &Layout, new: &Layout, queue: usize, kind: Kind) -> bool {
    let Place {
        host,
        port,
        is_discovery,
    } = place_of(queue);
    match kind {
        Kind::Namespace => {
            !is_discovery && changes_namespaces(&old.seen_by(host), &new.seen_by(host))
        }
        Kind::Ana => {
            !is_discovery && changes_groups(&old.seen_by(host), &new.seen_by(host), port)
        }
        Kind::Discovery => is_discovery && old.records(host) != new.records(host),
    }
}

/// Whether an edit changes the namespaces that a host sees.
pub fn changes_sight(old: &Layout, new: &Layout, host: usize) -> bool {
    changes_namespaces(&old.seen_by(host), &new.seen_by(host))
}
