//! The view of ANA groups: it is made, and follows edits, which a controller of each of two hosts counts.
ghost use Rattle.ana_view.specs.View.{IsPlannedFor};

use super::lists::{EDITS, ONE, OTHER, UNITS};
use ana_view::{AnaCounts, AnaView, Plan};
use nvt_config::{Config, Edit, EditFault};
use std::alloc::{AllocError, Global};
use std::test::Fail;
use testkit_edits::growths::{edit_of, tell, used};
use testkit_edits::{A, Line, again, config_over};
use testkit_tables::{Outcome, Placed, check, check_bytes, check_number};

// A configuration and its view.
#[derive(Drop)]
struct Followed {
    config: Config,
    view: AnaView,
    one: AnaCounts,
    other: AnaCounts,
}

fn start(alloc: Global) -> Result<Followed, AllocError> {
    let config = config_over(alloc, UNITS)?;
    let view = AnaView::new(alloc, &config)?;
    Ok(Followed {
        config,
        view,
        one: AnaCounts::new(),
        other: AnaCounts::new(),
    })
}

// Makes an edit that is planned; where memory is wanted for it, nothing is counted.
fn make(followed: &mut Followed, edit: &Edit, plan: Plan) -> Result<bool, AllocError>
    requires { IsPlannedFor followed.old.view plan }
{
    match followed.config.apply(edit) {
        Ok(()) => {
            followed.one.note(&plan, ONE, A, 1);
            followed.other.note(&plan, OTHER, A, 1);
            followed.view.commit(plan);
            Ok(true)
        }
        Err(EditFault::Memory) => Err(AllocError),
        Err(_) => Ok(false),
    }
}

// Makes an edit; whether the configuration accepts it.
fn follow_edit(followed: &mut Followed, edit: &Edit) -> Result<bool, AllocError> {
    if followed.config.check(edit).is_err() {
        return Ok(false);
    }
    let plan = followed.view.prepare(&followed.config, edit)?;
    make(followed, edit, plan)
}

fn follow(alloc: Global, followed: &mut Followed, line: Line<'_>) -> Result<bool, AllocError> {
    match edit_of(alloc, line)? {
        Some(edit) => follow_edit(followed, &edit),
        None => Ok(false),
    }
}

// The page of a host's controller of A on port 1 up to its first descriptor's end.
fn shown_to(followed: &Followed, host: &[u8], counts: &AnaCounts) -> [u8; 52] {
    let mut page = [0x5A; 52];
    followed
        .view
        .window(host, A, 1, counts, false, 0, &mut page);
    page
}

fn shown(followed: &Followed) -> [[u8; 52]; 2] {
    [
        shown_to(followed, ONE, &followed.one),
        shown_to(followed, OTHER, &followed.other),
    ]
}

// The one host sees no group: namespace 7 came, was hidden, shown and deleted, and 3 came and was hidden.
const LAST_OF_ONE: &[u8; 52] = b"\
    \x06\0\0\0\0\0\0\0\0\0\0\0\0\0\0\0\
    \0\0\0\0\0\0\0\0\0\0\0\0\0\0\0\0\
    \0\0\0\0\0\0\0\0\0\0\0\0\0\0\0\0\
    \0\0\0\0";

// Of the other, 7 was hidden once more in place of deleted, and 3 was shown: group 1 is inaccessible, with 3 alone.
const LAST_OF_OTHER: &[u8; 52] = b"\
    \x07\0\0\0\0\0\0\0\x01\0\0\0\0\0\0\0\
    \x01\0\0\0\x01\0\0\0\x07\0\0\0\0\0\0\0\
    \x03\0\0\0\0\0\0\0\0\0\0\0\0\0\0\0\
    \x03\0\0\0";

// Whether an edit is accepted. Where memory is wanted the page has to be as before.
fn is_followed(alloc: Global, followed: &mut Followed, line: Line<'_>) -> Result<bool, AllocError> {
    let before = shown(followed);
    let answer = follow(alloc, followed, line);
    if answer.is_err() && shown(followed) != before {
        return Ok(false);
    }
    answer
}

fn check_last(followed: &Followed) -> Outcome {
    check_bytes(&shown_to(followed, ONE, &followed.one), LAST_OF_ONE)?;
    check_bytes(&shown_to(followed, OTHER, &followed.other), LAST_OF_OTHER)?;
    check_number(followed.view.len(ONE, A, 1, false), 16)?;
    check_number(followed.view.len(OTHER, A, 1, false), 52)
}

fn follow_all(alloc: Global, followed: &mut Followed) -> Result<Outcome, AllocError> {
    for (row, line) in EDITS.iter().enumerate() {
        if !is_followed(alloc, followed, *line)? {
            return Ok(check(false, "this edit").in_row(row));
        }
    }
    Ok(check_last(followed))
}

fn use_new(alloc: Global) -> Result<Outcome, AllocError> {
    let mut followed = start(alloc)?;
    follow_all(alloc, &mut followed)
}

#[test]
fn ana_groups(rt: HostRuntime) -> Result<(), Fail> {
    let mut refused = 0u32;
    let answer = again!(refused, AllocError, use_new(rt.alloc()));
    tell(&rt, refused, used(answer))
}
