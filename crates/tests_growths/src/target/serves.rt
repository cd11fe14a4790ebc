//! A target that is served through ports in memory. What the ports want memory for is theirs to tell: nothing comes in a
//! turn, a slot fails, a reply or the copy of a configuration is lost. The turns are no more than are needed, so that
//! whatever wanted memory shows.
use super::pdus::{PDUS, laid, put, wanted};
use std::alloc::{AllocError, Global};
use std::cell::Cell;
use std::test::Fail;
use testkit_edits::again;
use testkit_edits::growths::tell;
use testkit_tables::{Outcome, check, pass};
use testkit_targets::serving::{Rig, Scenario, Step, add, try_over};

const STREAM_LEN: usize = 128 + 1096 + 3 * 72;

const LINES: [&[u8]; 4] = [
    b"host add nqn.a",
    b"host add nqn.b",
    b"host add nqn.c",
    b"host add nqn.d",
];

// The host opens, and its bytes come and are found to be over; a line comes in each turn behind that. An answer is given
// in each of the last five.
const TURNS: u64 = 7;

// All that the host sends.
fn stream() -> [u8; STREAM_LEN] {
    let mut bytes = [0; STREAM_LEN];
    let mut at = 0usize;
    for (len, pieces) in PDUS {
        let pdu: [u8; 1096] = laid(pieces);
        put(&mut bytes, at, &pdu[..(*len).min(1096)]);
        at = at.saturating_add(*len);
    }
    bytes
}

fn add_all<'a>(steps: &mut Vec<Step<'a>>, bytes: &'a [u8]) -> Result<(), AllocError> {
    add(steps, Step::Open { slot: 0, port: 1 })?;
    add(steps, Step::Bytes { slot: 0, bytes })?;
    for text in LINES {
        add(steps, Step::Line { text })?;
    }
    Ok(())
}

// How many lines are answered by `ok`.
fn lines_made(replies: &[Vec<u8>]) -> usize {
    replies
        .iter()
        .filter(|reply| reply.as_slice() == b"ok".as_slice())
        .count()
}

// Whether all is as it has to be with ample memory is kept here.
#[derive(Drop)]
struct Serving<'a> {
    is_whole: &'a Cell<bool>,
}

impl Scenario for Serving<'_> {
    fn holds(&self, rig: &mut Rig) -> Outcome {
        let served = rig.serve(TURNS);
        let made = lines_made(rig.replies());
        let is_answered = made == LINES.len() && rig.replies().len() == made;
        let is_told = rig.got(0) == wanted().as_slice() && rig.tells();
        let is_whole = is_told && is_answered;
        self.is_whole.set(is_whole && served.memory == 0);
        let is_begun = wanted().starts_with(rig.got(0));
        pass!(check(is_begun, "what the host is sent"));
        check(made >= LINES.len() - 1, "all lines but one are made")
    }
}

fn serve(alloc: Global, bytes: &[u8], is_whole: &Cell<bool>) -> Result<Outcome, AllocError> {
    let mut steps = Vec::new(alloc);
    add_all(&mut steps, bytes)?;
    try_over(alloc, &steps, &Serving { is_whole })
}

// Serves, once more where something wanted memory; nothing does then.
fn check_serving(alloc: Global, refused: &mut u32) -> Outcome {
    let (bytes, is_whole) = (stream(), Cell::new(false));
    let first = again!(*refused, AllocError, serve(alloc, &bytes, &is_whole))?;
    pass!(first);
    if is_whole.get() {
        return Ok(());
    }
    *refused = refused.saturating_add(1);
    let second = serve(alloc, &bytes, &is_whole)?;
    pass!(second);
    check(is_whole.get(), "all is served once more")
}

#[test]
fn a_host_and_lines_are_served(rt: HostRuntime) -> Result<(), Fail> {
    let mut refused = 0u32;
    let outcome = check_serving(rt.alloc(), &mut refused);
    tell(&rt, refused, outcome)
}
