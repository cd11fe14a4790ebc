//! What controllers show beside the plain program, while random edits are made.
use super::followed::{Followed, make, plan, start};
use super::seen::{GROUPS, Group, NSIDS, PLACES, Past, Place, code};
use crate::drawn::{host, pick, present, subsystem};
use ana_view::{AnaCounts, AnaGroup, AnaView, Plan};
use nvt_config::{Access, AnaState, Config, Edit, Visibility};
use rand_core::utils::NextWord;
use rand_pcg::Pcg32;
use std::alloc::{AllocError, Global};
use testkit_edits::growths::edit_of;
use testkit_edits::{A, B, H0, H1, Line, on_disk};

const SCRIPTS: u64 = 6;

const EDITS: usize = 80;

// The counts of a controller, after how many looks of the plain program it was enabled, and whether the latest plan
// changes what it shows.
#[derive(Drop)]
struct Counted {
    counts: AnaCounts,
    enabled: usize,
    noted: bool,
}

// How many edits were made, and how many of them changed what a controller shows, and not what one of another host
// of the same subsystem and port does.
#[derive(Clone, Copy)]
struct Made {
    edits: usize,
    apart: usize,
}

// One for each of PLACES.
fn controllers(alloc: Global) -> Result<Vec<Counted>, AllocError> {
    let mut all = Vec::new(alloc);
    for _ in PLACES {
        all.push(Counted {
            counts: AnaCounts::new(),
            enabled: 1,
            noted: false,
        })?;
    }
    Ok(all)
}

fn state(random: &mut Pcg32) -> AnaState {
    match random.next_word() % 5 {
        0 => AnaState::Optimized,
        1 => AnaState::NonOptimized,
        2 => AnaState::Inaccessible,
        3 => AnaState::PersistentLoss,
        _ => AnaState::Change,
    }
}

// An edit of who sees a namespace that is there, if one is.
fn sight(random: &mut Pcg32, config: &Config) -> Line<'static> {
    let (nqn, nsid) = present(random, config);
    match random.next_word() % 8 {
        0 => Line::NamespaceView(nqn, nsid, Visibility::All),
        1..=3 => Line::NamespaceView(nqn, nsid, Visibility::Named),
        4 | 5 => Line::NamespaceShow(nqn, nsid, host(random)),
        _ => Line::NamespaceHide(nqn, nsid, host(random)),
    }
}

fn line(random: &mut Pcg32, config: &Config) -> Line<'static> {
    let nqn = subsystem(random);
    let port = u64::from(random.next_word() % 2 + 1);
    match random.next_word() % 20 {
        0..=3 => {
            let disk = (random.next_word() % 8) as u8;
            Line::NamespaceAdd(
                nqn,
                on_disk(pick(random, &NSIDS), disk, pick(random, &GROUPS)),
            )
        }
        4 => Line::NamespaceDel(nqn, pick(random, &NSIDS)),
        5 => Line::NamespaceSize(nqn, pick(random, &NSIDS), 2),
        6 => Line::NamespaceGroup(nqn, pick(random, &NSIDS), pick(random, &GROUPS)),
        7 => Line::LinkDel(port, nqn),
        8 => Line::LinkAdd(port, nqn),
        9..=16 => sight(random, config),
        _ => Line::AnaSet(port, nqn, pick(random, &GROUPS), state(random)),
    }
}

const FIRST: &[Line<'static>] = &[
    Line::SubsystemAdd(A, b"SN", Access::Open),
    Line::SubsystemAdd(B, b"SN", Access::Open),
    Line::PortAdd(1, b"127.0.0.1", 4420),
    Line::PortAdd(2, b"127.0.0.2", 4420),
    Line::LinkAdd(1, A),
    Line::LinkAdd(2, A),
    Line::LinkAdd(1, B),
    Line::HostAdd(H0),
    Line::HostAdd(H1),
];

// The page by the plain program: its header, and each group with its members.
fn page(alloc: Global, past: &Past, place: usize, enabled: usize) -> Result<Vec<u8>, AllocError> {
    let mut groups = Vec::new(alloc);
    let mut listed = 0u8;
    for (at, id) in GROUPS.iter().enumerate() {
        let group = past.group(place, at);
        if group.members != 0 {
            append_head(&mut groups, *id, group, past.changes(enabled, place, at))?;
            append_members(&mut groups, group)?;
            listed = listed.saturating_add(1);
        }
    }
    let mut page = Vec::from_slice(alloc, &past.changes(enabled, place, 3).to_le_bytes())?;
    page.extend_from_slice(&[listed, 0, 0, 0, 0, 0, 0, 0])?;
    page.extend_from_slice(&groups)?;
    Ok(page)
}

fn append_head(page: &mut Vec<u8>, id: u32, group: Group, count: u64) -> Result<(), AllocError> {
    page.extend_from_slice(&id.to_le_bytes())?;
    page.extend_from_slice(&group.members.count_ones().to_le_bytes())?;
    page.extend_from_slice(&count.to_le_bytes())?;
    page.extend_from_slice(&[group.state, 0, 0, 0, 0, 0, 0, 0, 0, 0, 0, 0, 0, 0, 0, 0])?;
    Ok(())
}

fn append_members(page: &mut Vec<u8>, group: Group) -> Result<(), AllocError> {
    for (at, nsid) in NSIDS.iter().enumerate() {
        if at < 5 && group.members >> at & 1 == 1 {
            page.extend_from_slice(&nsid.to_le_bytes())?;
        }
    }
    Ok(())
}

// Whether a group is what was to be seen of it.
fn is_seen(group: &AnaGroup, id: u32, seen: Group) -> bool {
    let mut count = 0usize;
    for (at, nsid) in NSIDS.iter().enumerate() {
        if at < 5 && seen.members >> at & 1 == 1 {
            if group.nsids().get(count).copied() != Some(*nsid) {
                return false;
            }
            count = count.saturating_add(1);
        }
    }
    group.id() == id && code(group.state()) == seen.state && group.nsids().len() == count
}

// Whether the groups that hold a namespace are lent, one after the other, and no more.
fn are_lent(view: &AnaView, past: &Past, at: usize, place: Place) -> bool {
    let mut count = 0usize;
    for (number, id) in GROUPS.iter().enumerate() {
        let seen = past.group(at, number);
        if seen.members != 0 {
            let group = view.group(place.host, place.subsystem, place.port, count);
            let Some(group) = group else {
                return false;
            };
            if !is_seen(group, *id, seen) {
                return false;
            }
            count = count.saturating_add(1);
        }
    }
    let beyond = view.group(place.host, place.subsystem, place.port, count);
    beyond.is_none()
}

fn is_shown(
    alloc: Global,
    followed: &Followed,
    past: &Past,
    counted: &Counted,
    at: usize,
) -> Result<bool, AllocError> {
    let Some(place) = PLACES.get(at) else {
        return Ok(false);
    };
    let page = page(alloc, past, at, counted.enabled)?;
    let mut bytes = [0xA5; 160];
    let view = &followed.view;
    view.window(
        place.host,
        place.subsystem,
        place.port,
        &counted.counts,
        false,
        0,
        &mut bytes,
    );
    let (front, rest) = bytes.split_at(page.len().min(160));
    let len = view.len(place.host, place.subsystem, place.port, false);
    let is_same = *front == *page && !rest.iter().any(|byte| *byte != 0);
    Ok(is_same && len == page.len() as u64 && are_lent(view, past, at, *place))
}

fn are_shown(
    alloc: Global,
    followed: &Followed,
    past: &Past,
    all: &[Counted],
) -> Result<bool, AllocError> {
    for (at, counted) in all.iter().enumerate() {
        if !is_shown(alloc, followed, past, counted, at)? {
            return Ok(false);
        }
    }
    Ok(true)
}

// Each controller is said to show something else, or not.
fn note_changes(all: &mut [Counted], plan: &Plan) {
    for (counted, place) in all.iter_mut().zip(PLACES) {
        let counts = &mut counted.counts;
        counted.noted = counts.note(plan, place.host, place.subsystem, place.port);
    }
}

// Whether this was said exactly where it does.
fn are_noted(past: &Past, all: &[Counted]) -> bool {
    let before = past.looks().saturating_sub(1);
    for (at, counted) in all.iter().enumerate() {
        if (past.changes(before, at, 3) == 1) != counted.noted {
            return false;
        }
    }
    true
}

// The first controller and the fourth are of different hosts, and show the same groups but for that.
fn is_apart(all: &[Counted]) -> bool {
    match all {
        [first, _, _, fourth, _] => first.noted != fourth.noted,
        _ => false,
    }
}

// Makes an edit, where it is accepted; whether it changed what was said.
fn is_counted(
    followed: &mut Followed,
    past: &mut Past,
    all: &mut [Counted],
    edit: &Edit,
    made: &mut Made,
) -> Result<bool, AllocError> {
    let Some(plan) = plan(followed, edit)? else {
        return Ok(true);
    };
    note_changes(all, &plan);
    let is_made = make(followed, edit, plan);
    past.look(&followed.config)?;
    made.edits = made.edits.saturating_add(1);
    made.apart = made.apart.saturating_add(usize::from(is_apart(all)));
    Ok(is_made && are_noted(past, all))
}

fn is_right(
    alloc: Global,
    followed: &mut Followed,
    past: &mut Past,
    all: &mut [Counted],
    line: Line<'_>,
    made: &mut Made,
) -> Result<bool, AllocError> {
    let Some(edit) = edit_of(alloc, line)? else {
        return Ok(false);
    };
    Ok(is_counted(followed, past, all, &edit, made)? && are_shown(alloc, followed, past, all)?)
}

// The first controller is enabled again, now and then.
fn enable(random: &mut Pcg32, past: &Past, all: &mut [Counted]) {
    if random.next_word() % 12 == 0
        && let Some(counted) = all.first_mut()
    {
        counted.counts.reset();
        counted.enabled = past.looks();
    }
}

// The number of the first line that goes wrong, counted from 1; what was made is added.
fn first_wrong(
    alloc: Global,
    followed: &mut Followed,
    seed: u64,
    made: &mut Made,
) -> Result<usize, AllocError> {
    let mut random = Pcg32::new(seed, 0);
    let mut past = Past::new(alloc);
    past.look(&followed.config)?;
    let mut all = controllers(alloc)?;
    for at in 0..EDITS {
        let next = match FIRST.get(at) {
            Some(first) => *first,
            None => line(&mut random, &followed.config),
        };
        if !is_right(alloc, followed, &mut past, &mut all, next, made)? {
            return Ok(at.saturating_add(1));
        }
        enable(&mut random, &past, &mut all);
    }
    Ok(0)
}

fn starts_and_fails(alloc: Global, seed: u64, made: &mut Made) -> Result<usize, AllocError> {
    let mut followed = start(alloc)?;
    first_wrong(alloc, &mut followed, seed, made)
}

#[test]
fn pages_and_counts_are_what_a_look_back_says(rt: HostRuntime) {
    let mut made = Made { edits: 0, apart: 0 };
    for seed in 0..SCRIPTS {
        let wrong = starts_and_fails(rt.alloc(), seed, &mut made);
        assert!(rt; wrong == Ok(0), "seed {seed}, line {wrong:?}");
    }
    assert!(rt; made.edits > 150 && made.apart > 12);
}
