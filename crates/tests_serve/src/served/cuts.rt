//! A stream that is cut at each byte, and then ended.
use crate::served::pdus::{answers, pieces};
use std::alloc::{AllocError, Global};
use testkit_tables::{Outcome, Placed, check, check_bytes, pass};
use testkit_targets::serving::{Rig, Scenario, Step, add, holds_over};

// An ICReq and two commands, with the place at which each ends.
const ENDS: [usize; 3] = [128, 200, 272];

fn stream(alloc: Global) -> Result<Vec<u8>, AllocError> {
    let mut bytes = Vec::new(alloc);
    for piece in &pieces(alloc)? {
        bytes.extend_from_slice(piece)?;
    }
    Ok(bytes)
}

// What is owed for so many bytes.
fn owed(alloc: Global, len: usize) -> Result<Vec<u8>, AllocError> {
    let count = ENDS.iter().filter(|end| **end <= len).count();
    answers(alloc, count as u64)
}

// The host's end goes away once all that it is owed was given.
#[derive(Drop)]
struct CutAt {
    owed: Vec<u8>,
}

impl Scenario for CutAt {
    fn holds(&self, rig: &mut Rig) -> Outcome {
        rig.serve(20);
        pass!(check_bytes(rig.got(0), &self.owed));
        check(rig.room(0) == 0, "it is gone")
    }
}

fn cut(alloc: Global, bytes: &[u8]) -> Outcome {
    let mut steps = Vec::with_capacity(alloc, 12)?;
    add(&mut steps, Step::Open { slot: 0, port: 1 })?;
    if !bytes.is_empty() {
        add(&mut steps, Step::Bytes { slot: 0, bytes })?;
    }
    for _ in 0..6 {
        add(&mut steps, Step::Tick { ms: 0 })?;
    }
    add(&mut steps, Step::End { slot: 0 })?;
    let owed = owed(alloc, bytes.len())?;
    holds_over(alloc, &steps, &CutAt { owed })
}

fn cut_at_each(alloc: Global, bytes: &[u8]) -> Outcome {
    for len in 0..=bytes.len() {
        pass!(cut(alloc, bytes.get(..len).unwrap_or(bytes)).in_row(len));
    }
    Ok(())
}

#[test]
fn a_stream_that_is_cut_gives_what_is_owed_before_the_cut(rt: HostRuntime) -> Outcome {
    cut_at_each(rt.alloc(), &stream(rt.alloc())?)
}
