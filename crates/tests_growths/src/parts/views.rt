//! The discovery view: it is made, and prepares for each kind of edit.
ghost use Rattle.discovery_view.specs.Ready.{AreOf};

use discovery_view::{DiscoveryView, RecordFormer};
use nvt_config::{Config, Edit, EditFault, NewFault};
use std::alloc::{AllocError, Global};
use std::test::Fail;
use testkit_edits::growths::{EDITS, HOST, UNITS, edit_of, tell, used};
use testkit_edits::{Line, again};
use testkit_tables::{Outcome, Placed, check, pass};

// A configuration and its view.
#[derive(Drop)]
struct Followed {
    config: Config,
    view: DiscoveryView,
    ghost shows: { AreOf config view.slots view.rows },
}

// The host's page up to its first record, as the view shows it: its length, GENCTR and bytes.
fn shown(view: &DiscoveryView) -> (u64, u64, [u8; 1300]) {
    let mut bytes = [0x5A; 1300];
    view.window(HOST, 0, &mut bytes);
    (view.len(HOST), view.count(HOST), bytes)
}

// Makes an edit, which is accepted; `AllocError` where the view wants memory for it.
fn follow(followed: &mut Followed, edit: &Edit, refused: &mut u32) -> Result<bool, AllocError> {
    if followed.config.check(edit).is_err() {
        return Ok(false);
    }
    let plan = followed.view.prepare(&followed.config, edit)?;
    let mut applied = followed.config.apply(edit);
    if applied == Err(EditFault::Memory) {
        *refused = refused.saturating_add(1);
        applied = followed.config.apply(edit);
    }
    if applied.is_ok() {
        followed.view.commit(plan);
    }
    Ok(applied.is_ok())
}

// Follows an edit; where the view wants memory for it, the page is as before.
fn is_followed(followed: &mut Followed, edit: &Edit, refused: &mut u32) -> bool {
    let before = shown(&followed.view);
    let mut answer = follow(followed, edit, refused);
    if answer == Err(AllocError) {
        *refused = refused.saturating_add(1);
        if shown(&followed.view) != before {
            return false;
        }
        answer = follow(followed, edit, refused);
    }
    answer == Ok(true)
}

fn is_edited(
    alloc: Global,
    followed: &mut Followed,
    line: Line<'_>,
    refused: &mut u32,
) -> Result<bool, AllocError> {
    let Some(edit) = edit_of(alloc, line)? else {
        return Ok(false);
    };
    Ok(is_followed(followed, &edit, refused))
}

// A is listed on port 1, and B on both as it opens; port 2 moves; its link of B goes, and then the
// other. A referral comes, moves and goes, and another comes.
fn is_shown(view: &DiscoveryView) -> bool {
    (view.len(HOST), view.count(HOST)) == (3072, 9)
        && !view.is_past_end(HOST, 3072)
        && view.is_past_end(HOST, 3073)
}

fn follow_edits(alloc: Global, followed: &mut Followed, refused: &mut u32) -> Outcome {
    for (row, line) in EDITS.iter().enumerate() {
        let answer = again!(
            *refused,
            AllocError,
            is_edited(alloc, followed, *line, refused)
        );
        pass!(check(answer == Ok(true), "this edit").in_row(row));
    }
    check(is_shown(&followed.view), "the page at the end")
}

fn start(alloc: Global) -> Result<Followed, NewFault> {
    let config = Config::new(alloc, UNITS)?;
    match DiscoveryView::new(alloc, &config, RecordFormer::new()) {
        Ok(view) => Ok(Followed { config, view }),
        Err(AllocError) => Err(NewFault::Memory),
    }
}

fn use_new(alloc: Global, refused: &mut u32) -> Result<Outcome, NewFault> {
    let mut followed = start(alloc)?;
    Ok(follow_edits(alloc, &mut followed, refused))
}

#[test]
fn views(rt: HostRuntime) -> Result<(), Fail> {
    let mut refused = 0u32;
    let answer = again!(refused, NewFault::Memory, use_new(rt.alloc(), &mut refused));
    tell(&rt, refused, used(answer))
}
