//! What a host sends and an edit changes, drawn at random.
use crate::hosts::{
    ACTIVE, ANA, CHANGED, Change, Command, DESCRIPTORS, DISCOVERY, Layout, NAMESPACE, Namespace,
    Read, Sight, place_of,
};
use nvt_config::{Access, AnaState, Visibility};
use rand_core::utils::NextWord;
use rand_pcg::Pcg32;

/// The values of CC: a controller is enabled, shut down, or reset.
pub const ENABLED: u32 = 0x0046_0001;

const SHUT: u32 = 0x0046_4001;

const RESET: u32 = 0x0046_0000;

/// A number below a bound, which is not 0.
pub fn below(random: &mut Pcg32, bound: u32) -> u32 {
    random.next_word() % bound.max(1)
}

/// True once in `n` times.
pub fn rarely(random: &mut Pcg32, n: u32) -> bool {
    below(random, n) == 0
}

// 1 or 2.
fn one(random: &mut Pcg32) -> usize {
    if rarely(random, 2) { 1 } else { 2 }
}

fn host(random: &mut Pcg32) -> usize {
    below(random, 2) as usize
}

// One of the two hosts, and now and then the one that is never added.
fn viewer(random: &mut Pcg32) -> usize {
    if rarely(random, 12) { 2 } else { host(random) }
}

// A namespace, by its place among the three.
fn namespace_at(random: &mut Pcg32) -> usize {
    below(random, 3) as usize + 1
}

fn blocks(random: &mut Pcg32) -> u8 {
    if rarely(random, 2) { 7 } else { 8 }
}

fn namespace(random: &mut Pcg32) -> Namespace {
    Namespace {
        blocks: blocks(random),
        is_large: rarely(random, 3),
        group: one(random),
    }
}

fn state(random: &mut Pcg32) -> AnaState {
    match below(random, 6) {
        0 => AnaState::Inaccessible,
        1 => AnaState::PersistentLoss,
        2 => AnaState::Change,
        3 => AnaState::NonOptimized,
        _ => AnaState::Optimized,
    }
}

fn service(random: &mut Pcg32) -> u16 {
    if rarely(random, 2) { 4420 } else { 8009 }
}

/// An edit of a namespace or of the state of a group.
pub fn blocks_change(random: &mut Pcg32) -> Change {
    let at = namespace_at(random);
    match below(random, 8) {
        0 => Change::Delete(at),
        1 | 2 => Change::Add(at, namespace(random)),
        3 => Change::Resize(at, blocks(random)),
        4 => Change::Regroup(at, one(random)),
        _ => Change::SetState(one(random), one(random), state(random)),
    }
}

/// A namespace is hidden from a host, or shown to it where it is not.
pub fn turn(random: &mut Pcg32, layout: &Layout) -> Change {
    let (at, host) = (namespace_at(random), host(random));
    if layout.is_shown(at, host) {
        Change::See(Sight::Hide(at, host))
    } else {
        Change::See(Sight::Show(at, host))
    }
}

/// An edit of who sees a namespace.
pub fn sight(random: &mut Pcg32) -> Sight {
    let at = namespace_at(random);
    match below(random, 8) {
        0 => Sight::View(at, Visibility::All),
        1 | 2 => Sight::View(at, Visibility::Named),
        3..=5 => Sight::Show(at, viewer(random)),
        _ => Sight::Hide(at, viewer(random)),
    }
}

// An edit of who may use what, or of a record.
fn record_change(random: &mut Pcg32) -> Change {
    let id = one(random);
    match below(random, 12) {
        0 => Change::Unlink(id),
        1..=3 => Change::Link(id),
        4 => Change::Forbid(host(random)),
        5 | 6 => Change::Allow(host(random)),
        7 if rarely(random, 2) => Change::DeleteHost(host(random)),
        7 => Change::AddHost(host(random)),
        8 if rarely(random, 2) => Change::SetAccess(Access::Open),
        8 => Change::SetAccess(Access::Closed),
        9 => Change::SetPort(id, service(random)),
        10 if rarely(random, 2) => Change::SetReferral(id, service(random)),
        10 => Change::DeleteReferral(id),
        _ => Change::AddReferral(id, service(random)),
    }
}

/// An edit.
pub fn change(random: &mut Pcg32) -> Change {
    match below(random, 3) {
        0 => record_change(random),
        1 => Change::See(sight(random)),
        _ => blocks_change(random),
    }
}

fn lid(random: &mut Pcg32, queue: usize) -> u8 {
    match (place_of(queue).is_discovery, below(random, 20)) {
        (_, 0) => DISCOVERY,
        (_, 1) => CHANGED,
        (true, _) => DISCOVERY,
        (false, 2..=8) => ANA,
        _ => CHANGED,
    }
}

fn offset(random: &mut Pcg32) -> u16 {
    match below(random, 16) {
        0 => 4,
        1 => 16,
        2 => 1024,
        3 => 1028,
        4 => 4096,
        5 => 4100,
        6 => 2,
        _ => 0,
    }
}

fn len(random: &mut Pcg32) -> u32 {
    match below(random, 24) {
        0..=2 => 4,
        3..=5 => 16,
        6..=8 => 160,
        9 | 10 => 4092,
        11..=13 => 5120,
        14 => 131_076,
        _ => 4096,
    }
}

fn read(random: &mut Pcg32, queue: usize) -> Read {
    Read {
        lid: lid(random, queue),
        retains: rarely(random, 2),
        groups_only: rarely(random, 3),
        offset: offset(random),
        len: len(random),
        sgl_type: if rarely(random, 30) { 1 } else { 0x5A },
        more: if rarely(random, 30) { 4 } else { 0 },
    }
}

// The identifier of a namespace, one that none has, or one that none may have.
fn nsid(random: &mut Pcg32) -> u32 {
    match below(random, 12) {
        0 => 0,
        1 => 2,
        2 => 4_097,
        3 => 0xFFFF_FFFE,
        4 | 5 => 1,
        6..=8 => 1_025,
        _ => 4_096,
    }
}

fn identify(random: &mut Pcg32) -> Command {
    match below(random, 6) {
        0 | 1 => Command::Identify(NAMESPACE, nsid(random)),
        2 => Command::Identify(ACTIVE, nsid(random)),
        3 => Command::Identify(ACTIVE, 0),
        _ => Command::Identify(DESCRIPTORS, nsid(random)),
    }
}

/// All kinds of events, or some; other bits too.
pub fn mask(random: &mut Pcg32) -> u32 {
    let some = random.next_word();
    if rarely(random, 3) {
        some
    } else {
        some | 0x8000_0900
    }
}

/// A command of a queue.
pub fn command(random: &mut Pcg32, queue: usize) -> Command {
    match below(random, 48) {
        0..=18 => Command::Request,
        19..=33 => Command::Read(read(random, queue)),
        34 => Command::SetEvents(0x8000_0900, true),
        35..=37 => Command::SetEvents(mask(random), false),
        38 | 39 => Command::GetEvents,
        40 | 41 => Command::KeepAlive,
        42 => Command::Configure(SHUT),
        43 => Command::Configure(RESET),
        _ => identify(random),
    }
}
