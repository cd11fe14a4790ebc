//! How many records edits form: one for each link that is added, and for each link of a port that moves.
use super::followed::{Followed, is_made, start};
use nvt_config::{Access, Family};
use std::alloc::Global;
use testkit_edits::Line;
use testkit_tables::{Outcome, Placed, check, check_number, pass};

const NAMES: &[&[u8]] = &[
    b"nqn.a", b"nqn.b", b"nqn.c", b"nqn.d", b"nqn.e", b"nqn.f", b"nqn.g", b"nqn.h", b"nqn.i",
    b"nqn.j", b"nqn.k", b"nqn.l", b"nqn.m", b"nqn.n", b"nqn.o", b"nqn.p",
];

// Sixteen open subsystems on port 1.
fn are_linked(alloc: Global, followed: &mut Followed) -> bool {
    let mut are_linked = is_made(alloc, followed, Line::PortAdd(1, b"127.0.0.1", 4420));
    for name in NAMES {
        are_linked = are_linked
            && is_made(
                alloc,
                followed,
                Line::SubsystemAdd(name, b"SN", Access::Open),
            )
            && is_made(alloc, followed, Line::LinkAdd(1, name));
    }
    are_linked
}

// The second time the port moves to where it is, which forms none.
fn check_formed(alloc: Global, followed: &mut Followed) -> Outcome {
    pass!(check(are_linked(alloc, followed), "the links"));
    pass!(check_number(followed.view.formed(), 16));
    for step in 0..2usize {
        let line = Line::PortSet(1, Family::Ipv4, b"127.0.0.1", 4421);
        pass!(check(is_made(alloc, followed, line), "the move").at_step(step));
        pass!(check_number(followed.view.formed(), 32).at_step(step));
    }
    Ok(())
}

#[test]
fn an_edit_forms_what_it_changes(rt: HostRuntime) -> Outcome {
    match start(rt.alloc()) {
        Ok(mut followed) => check_formed(rt.alloc(), &mut followed),
        Err(_) => check(false, "memory"),
    }
}
