//! A plain program: it keeps what each host was to see of the groups after each edit, and looks back over it.
use crate::drawn::sees;
use nvt_config::{AnaState, Config};
use std::alloc::{AllocError, Global};
use testkit_edits::{A, B, H0, H1, H2};

/// The identifiers that tests use.
pub const NSIDS: [u32; 5] = [1, 255, 1_024, 1_025, 4_096];

/// The groups that tests use.
pub const GROUPS: [u32; 3] = [1, 2, 32];

/// A controller's host, its subsystem and its port.
#[derive(Clone, Copy)]
pub struct Place {
    pub host: &'static [u8],
    pub subsystem: &'static [u8],
    pub port: u16,
}

/// The controllers: of two hosts, and of a stranger, which is never added.
pub const PLACES: [Place; 5] = [
    Place {
        host: H0,
        subsystem: A,
        port: 1,
    },
    Place {
        host: H0,
        subsystem: A,
        port: 2,
    },
    Place {
        host: H1,
        subsystem: B,
        port: 1,
    },
    Place {
        host: H1,
        subsystem: A,
        port: 1,
    },
    Place {
        host: H2,
        subsystem: A,
        port: 1,
    },
];

// What is to be seen of a group: which of NSIDS are in it and seen by the host, as bits by their place, and its
// state. A group that holds none has neither.
#[derive(Clone, Copy, PartialEq, Eq)]
pub struct Group {
    pub members: u32,
    pub state: u8,
}

// .. of each group of each controller, in a row.
#[derive(Clone, Copy)]
struct Seen {
    groups: [Group; 15],
}

/// What was to be seen at first and after each edit, the oldest first.
#[derive(Drop)]
pub struct Past {
    seen: Vec<Seen>,
}

const NONE: Group = Group {
    members: 0,
    state: 0,
};

/// A state as the log page has it.
pub fn code(state: AnaState) -> u8 {
    match state {
        AnaState::Optimized => 1,
        AnaState::NonOptimized => 2,
        AnaState::Inaccessible => 3,
        AnaState::PersistentLoss => 4,
        AnaState::Change => 15,
    }
}

fn members(config: &Config, place: Place, group: u32) -> u32 {
    let mut members = 0u32;
    for namespace in config.namespaces() {
        for (at, nsid) in NSIDS.iter().enumerate() {
            let is_in = namespace.subsystem.as_bytes() == place.subsystem
                && namespace.group == group
                && sees(config, place.host, namespace);
            if is_in && namespace.nsid == *nsid && at < 5 {
                members |= 1 << at;
            }
        }
    }
    members
}

fn state(config: &Config, place: Place, group: u32) -> u8 {
    let mut code_of = 1;
    for state in config.states() {
        let is_its = state.subsystem.as_bytes() == place.subsystem && state.port == place.port;
        if is_its && state.group == group {
            code_of = code(state.state);
        }
    }
    code_of
}

fn group_of(config: &Config, place: Place, group: u32) -> Group {
    match members(config, place, group) {
        0 => NONE,
        members => Group {
            members,
            state: state(config, place, group),
        },
    }
}

fn look_at(config: &Config) -> Seen {
    let mut groups = [NONE; 15];
    let mut at = 0usize;
    for place in PLACES {
        for id in GROUPS {
            if let Some(seen) = groups.get_mut(at) {
                *seen = group_of(config, place, id);
            }
            at = at.saturating_add(1);
        }
    }
    Seen { groups }
}

// The group of that place in GROUPS, of the controller of that place in PLACES.
fn group_in(seen: &Seen, place: usize, at: usize) -> Group {
    let row = place.saturating_mul(3).saturating_add(at);
    match seen.groups.get(row) {
        Some(group) => *group,
        None => NONE,
    }
}

impl Past {
    pub fn new(alloc: Global) -> Past {
        Past {
            seen: Vec::new(alloc),
        }
    }

    /// Looks at a configuration.
    pub fn look(&mut self, config: &Config) -> Result<(), AllocError> {
        self.seen.push(look_at(config))?;
        Ok(())
    }

    /// How often was looked.
    pub fn looks(&self) -> usize {
        self.seen.len()
    }

    /// How often the group has changed, from one look to the next, since so many looks; with 3 for the
    /// group, how often some group has.
    pub fn changes(&self, looks: usize, place: usize, at: usize) -> u64 {
        let mut changes = 0u64;
        let mut before = None;
        for after in self.seen.iter().skip(looks.saturating_sub(1)) {
            if before.is_some_and(|before| differs(before, after, place, at)) {
                changes = changes.saturating_add(1);
            }
            before = Some(after);
        }
        changes
    }

    /// The group, as seen last.
    pub fn group(&self, place: usize, at: usize) -> Group {
        match self.seen.last() {
            Some(seen) => group_in(seen, place, at),
            None => NONE,
        }
    }
}

fn differs(before: &Seen, after: &Seen, place: usize, at: usize) -> bool {
    if at < 3 {
        return group_in(before, place, at) != group_in(after, place, at);
    }
    for at in 0..3 {
        if group_in(before, place, at) != group_in(after, place, at) {
            return true;
        }
    }
    false
}
