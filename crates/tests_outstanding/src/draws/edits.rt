//! Edits, drawn at random: mostly those that go well.
use crate::draws::draw::{below, one_of, rarely};
use crate::plain::{Change, Layout, Namespace, disk_len};
use nvt_config::{Access, AnaState};
use rand_pcg::Pcg32;

/// A namespace of one of these numbers, whole on its disk. Two have long blocks, so that what waits for its data
/// finds shorter ones where they are made anew.
pub fn whole_disk(nsid: usize) -> Namespace {
    let disk = nsid.saturating_sub(1) % 3;
    let block_size = if nsid == 1 { 512 } else { 4096 };
    Namespace {
        disk,
        blocks: disk_len(disk) / block_size,
        block_size,
        group: if nsid == 2 { 2 } else { 1 },
    }
}

// A namespace on a disk, of some or of all its bytes.
fn namespace(random: &mut Pcg32, nsid: usize) -> Namespace {
    let disk = if rarely(random, 2) {
        one_of(random, 0, 3)
    } else {
        nsid.saturating_sub(1)
    };
    let block_size = if rarely(random, 2) { 4096 } else { 512 };
    let most = disk_len(disk) / block_size;
    let blocks = if rarely(random, 3) {
        below(random, most).saturating_add(1)
    } else {
        most
    };
    Namespace {
        disk,
        blocks,
        block_size,
        group: one_of(random, 1, 2),
    }
}

fn state(random: &mut Pcg32) -> AnaState {
    match below(random, 8) {
        0 => AnaState::Inaccessible,
        1 => AnaState::PersistentLoss,
        2 => AnaState::Change,
        3 => AnaState::NonOptimized,
        _ => AnaState::Optimized,
    }
}

// An edit that takes a way to the subsystem away, or gives one.
fn way(random: &mut Pcg32) -> Change {
    let one = one_of(random, 1, 2);
    match below(random, 16) {
        0 | 1 => Change::Forbid(one),
        2..=7 => Change::Allow(one),
        8 | 9 => Change::Unlink(one),
        10..=13 => Change::Link(one),
        14 => Change::SetAccess(Access::Open),
        _ => Change::SetAccess(Access::Closed),
    }
}

/// An edit; one of a way to the subsystem only where it may be rough.
pub fn change(random: &mut Pcg32, layout: &Layout, is_rough: bool) -> Change {
    let nsid = one_of(random, 1, 3);
    let place = one_of(random, 1, 2);
    match below(random, 16) {
        0 | 1 => Change::Delete(nsid),
        2..=5 => Change::Add(nsid, namespace(random, nsid)),
        6 => Change::Resize(nsid, below(random, 50)),
        7 => Change::Regroup(nsid, place),
        8..=11 => Change::SetState(place, one_of(random, 1, 2), state(random)),
        _ if is_rough => way(random),
        _ => missing(random, layout),
    }
}

// The first namespace that is missing comes back.
fn missing(random: &mut Pcg32, layout: &Layout) -> Change {
    for nsid in 1..4usize {
        if layout.namespace(nsid).is_none() {
            return Change::Add(nsid, namespace(random, nsid));
        }
    }
    Change::SetState(1, 1, AnaState::Optimized)
}
