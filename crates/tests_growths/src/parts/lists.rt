//! The lists of active namespaces of two hosts: they are made, and follow edits.
use change_lists::ActiveView;
use nvt_config::{Access, AnaState, Config, Edit, EditFault, Visibility};
use std::alloc::{AllocError, Global};
use std::test::Fail;
use testkit_edits::growths::{edit_of, tell, used};
use testkit_edits::{A, B, Blocks, Line, again, config_over};
use testkit_tables::{Outcome, Placed, check, check_bytes};

/// The hosts.
pub const ONE: &[u8] = b"nqn.h";

pub const OTHER: &[u8] = b"nqn.i";

/// The disks.
pub const UNITS: &[u64] = &[8; 3];

// A namespace on each disk.
const FIRST: Blocks = Blocks {
    nsid: 7,
    disk: 0,
    blocks: 1,
    block_size: 512,
    uuid: 1,
    group: 1,
};

const SECOND: Blocks = Blocks {
    nsid: 2,
    disk: 1,
    blocks: 1,
    block_size: 512,
    uuid: 2,
    group: 1,
};

const THIRD: Blocks = Blocks {
    nsid: 3,
    disk: 2,
    blocks: 1,
    block_size: 512,
    uuid: 3,
    group: 1,
};

/// They are accepted in turn. In the end each list of the configuration has an item; the one host sees namespace 2 of
/// B, and the other namespace 3 of A.
pub const EDITS: &[Line<'static>] = &[
    Line::SubsystemAdd(A, b"SN", Access::Open),
    Line::SubsystemAdd(B, b"SN", Access::Closed),
    Line::PortAdd(1, b"127.0.0.1", 4420),
    Line::LinkAdd(1, A),
    Line::HostAdd(ONE),
    Line::HostAdd(OTHER),
    Line::AllowAdd(A, ONE),
    Line::ReferralAdd(7, b"127.0.0.9", 8009),
    Line::AnaSet(1, A, 1, AnaState::Inaccessible),
    Line::NamespaceAdd(A, FIRST),
    Line::NamespaceAdd(B, SECOND),
    Line::NamespaceView(A, 7, Visibility::Named),
    Line::NamespaceShow(A, 7, ONE),
    Line::NamespaceShow(A, 7, OTHER),
    Line::NamespaceAdd(A, THIRD),
    Line::NamespaceHide(A, 7, OTHER),
    Line::NamespaceShow(B, 2, ONE),
    Line::NamespaceView(B, 2, Visibility::Named),
    Line::NamespaceDel(A, 7),
    Line::NamespaceView(A, 3, Visibility::Named),
    Line::NamespaceShow(A, 3, OTHER),
];

// A configuration and its view.
#[derive(Drop)]
struct Followed {
    config: Config,
    view: ActiveView,
}

fn start(alloc: Global) -> Result<Followed, AllocError> {
    let config = config_over(alloc, UNITS)?;
    let view = ActiveView::new(alloc, &config)?;
    Ok(Followed { config, view })
}

// Makes an edit; whether the configuration accepts it.
fn follow_edit(followed: &mut Followed, edit: &Edit) -> Result<bool, AllocError> {
    if followed.config.check(edit).is_err() {
        return Ok(false);
    }
    let plan = followed.view.prepare(&followed.config, edit)?;
    match followed.config.apply(edit) {
        Ok(()) => followed.view.commit(plan),
        Err(EditFault::Memory) => return Err(AllocError),
        Err(_) => return Ok(false),
    }
    Ok(true)
}

fn follow(alloc: Global, followed: &mut Followed, line: Line<'_>) -> Result<bool, AllocError> {
    match edit_of(alloc, line)? {
        Some(edit) => follow_edit(followed, &edit),
        None => Ok(false),
    }
}

// A host's lists of both subsystems.
fn shown_to(followed: &Followed, host: &[u8]) -> [u8; 16] {
    let mut lists = [0x5A; 16];
    let (first, second) = lists.split_at_mut(8);
    followed.view.window(host, A, 0, first);
    followed.view.window(host, B, 0, second);
    lists
}

fn shown(followed: &Followed) -> [[u8; 16]; 2] {
    [shown_to(followed, ONE), shown_to(followed, OTHER)]
}

// Whether an edit is accepted. Where memory is wanted the lists have to be as before.
fn is_followed(alloc: Global, followed: &mut Followed, line: Line<'_>) -> Result<bool, AllocError> {
    let before = shown(followed);
    let answer = follow(alloc, followed, line);
    if answer.is_err() && shown(followed) != before {
        return Ok(false);
    }
    answer
}

fn follow_all(alloc: Global, followed: &mut Followed) -> Result<Outcome, AllocError> {
    for (row, line) in EDITS.iter().enumerate() {
        if !is_followed(alloc, followed, *line)? {
            return Ok(check(false, "this edit").in_row(row));
        }
    }
    Ok(check_last(followed))
}

fn check_last(followed: &Followed) -> Outcome {
    let [one, other] = shown(followed);
    check_bytes(&one, b"\0\0\0\0\0\0\0\0\x02\0\0\0\0\0\0\0")?;
    check_bytes(&other, b"\x03\0\0\0\0\0\0\0\0\0\0\0\0\0\0\0")
}

fn use_new(alloc: Global) -> Result<Outcome, AllocError> {
    let mut followed = start(alloc)?;
    follow_all(alloc, &mut followed)
}

#[test]
fn active_lists(rt: HostRuntime) -> Result<(), Fail> {
    let mut refused = 0u32;
    let answer = again!(refused, AllocError, use_new(rt.alloc()));
    tell(&rt, refused, used(answer))
}
