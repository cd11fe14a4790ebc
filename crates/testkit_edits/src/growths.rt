//! What the tests of refused growths share: edits of each kind, a call that is made again, and what a
//! test says at its end.
use crate::line::{Blocks, Line, edit};
use crate::names::{A, B};
use nvt_config::{Access, AnaState, Edit, Family, Visibility};
use nvt_fields::NqnFault;
use std::alloc::{AllocError, Global};
use std::test::Fail;
use testkit_tables::{Outcome, check};

/// What a call answers, or the same again where it wants memory.
#[macro_export]
macro_rules! again {
    ($refused:expr, $memory:pat, $call:expr) => {{
        let mut answer = $call;
        if matches!(answer, Err($memory)) {
            $refused = $refused.saturating_add(1);
            answer = $call;
        }
        answer
    }};
}

pub const HOST: &[u8] = b"nqn.2026-01.test:h1";

pub const UNITS: &[u64] = &[2048, 4096];

/// A namespace that fits on the first disk.
pub const NAMESPACE: Blocks = Blocks {
    nsid: 1,
    disk: 0,
    blocks: 8,
    block_size: 4096,
    uuid: 0x11,
    group: 1,
};

/// They are accepted in turn. In the end subsystem A and port 1 are there, linked, two live hosts,
/// and one item of each other list.
pub const EDITS: &[Line<'static>] = &[
    Line::SubsystemAdd(A, b"SN-A", Access::Open),
    Line::SubsystemAdd(B, b"SN-B", Access::Closed),
    Line::PortAdd(1, b"127.0.0.1", 4420),
    Line::PortAdd(2, b"127.0.0.2", 4420),
    Line::LinkAdd(1, A),
    Line::LinkAdd(1, B),
    Line::LinkAdd(2, B),
    Line::HostAdd(HOST),
    Line::HostAdd(b"nqn.i"),
    Line::SubsystemSet(B, Access::Open),
    Line::PortSet(2, Family::Ipv6, b"::1", 4421),
    Line::LinkDel(2, B),
    Line::PortDel(2),
    Line::LinkDel(1, B),
    Line::SubsystemDel(B),
    Line::HostDel(HOST),
    Line::HostAdd(HOST),
    Line::SubsystemSet(A, Access::Open),
    Line::NamespaceAdd(A, NAMESPACE),
    Line::NamespaceSize(A, 1, 256),
    Line::NamespaceGroup(A, 1, 32),
    Line::NamespaceDel(A, 1),
    Line::NamespaceAdd(A, NAMESPACE),
    Line::NamespaceView(A, 1, Visibility::Named),
    Line::NamespaceShow(A, 1, HOST),
    Line::NamespaceShow(A, 1, b"nqn.i"),
    Line::NamespaceHide(A, 1, b"nqn.i"),
    Line::AllowAdd(A, HOST),
    Line::AllowAdd(A, b"nqn.i"),
    Line::AllowDel(A, b"nqn.i"),
    Line::AnaSet(1, A, 1, AnaState::Inaccessible),
    Line::AnaSet(1, A, 2, AnaState::NonOptimized),
    Line::AnaSet(1, A, 2, AnaState::Change),
    Line::AnaSet(1, A, 2, AnaState::Optimized),
    Line::ReferralAdd(7, b"127.0.0.9", 8009),
    Line::ReferralSet(7, Family::Ipv6, b"::1", 8010),
    Line::ReferralDel(7),
    Line::ReferralAdd(8, b"127.0.0.1", 8009),
];

/// The edit of a line whose name is well-formed. That memory ran out is the only error.
pub fn edit_of(alloc: Global, line: Line<'_>) -> Result<Option<Edit>, AllocError> {
    match edit(alloc, line) {
        Ok(edit) => Ok(Some(edit)),
        Err(NqnFault::Memory) => Err(AllocError),
        Err(NqnFault::TooLong | NqnFault::BadNqn) => Ok(None),
    }
}

/// What the use of something comes to that was made again where it wanted memory.
pub fn used<E: Drop>(answer: Result<Outcome, E>) -> Outcome {
    match answer {
        Ok(outcome) => outcome,
        Err(_) => check(false, "memory"),
    }
}

/// Prints how many calls answered Memory, where all else is as it has to be.
pub fn tell(rt: &impl Print, refused: u32, outcome: Outcome) -> Result<(), Fail> {
    outcome?;
    println!(rt; "refused growths: {refused}")?;
    Ok(())
}
