//! A host that is owed more than is kept for it, and reads a little at a time, beside a good one.
use crate::host::Host;
use crate::manner::{GOOD, HASTY, Manner};
use crate::network::ScriptedNetwork;
use crate::rig::holds_over;
use crate::script::{Script, connected, pages};
use crate::slow::AllIsGiven;
use std::alloc::{AllocError, Global};
use testkit_tables::{Outcome, Placed, pass};

const TURNS: u64 = 100_000;

// How much its socket takes, how much it reads at a time, and after how many microseconds.
const ROWS: [(usize, usize, u64); 5] = [
    (400_000, 1_000, 20),
    (65_536, 2_048, 40),
    (65_536, 65_536, 4_000),
    (10_000, 10_000, 300),
    (1_500, 1_000, 10),
];

fn hosts_of<'a>(
    alloc: Global,
    good: &'a Script,
    slow: &'a Script,
    manner: Manner,
) -> Result<Vec<Host<'a>>, AllocError> {
    let mut hosts = Vec::with_capacity(alloc, 2)?;
    hosts.push(Host::new(alloc, good, GOOD)?)?;
    hosts.push(Host::new(alloc, slow, manner)?)?;
    Ok(hosts)
}

fn run(alloc: Global, good: &Script, slow: &Script, manner: Manner) -> Outcome {
    let hosts = hosts_of(alloc, good, slow, manner)?;
    let network = ScriptedNetwork::new(hosts, Vec::new(alloc), Vec::with_capacity(alloc, 16_384)?);
    holds_over(alloc, network, TURNS, &AllIsGiven)
}

// 1,048,576 bytes and more, of which 393,216 are kept at most.
#[test]
fn a_slow_host_gets_more_than_is_kept_for_it(rt: HostRuntime) -> Outcome {
    let good = connected(rt.alloc())?;
    let slow = pages(rt.alloc(), 8, 131_072)?;
    for (row, (window, reads, every)) in ROWS.into_iter().enumerate() {
        let manner = Manner {
            window,
            reads,
            every,
            ..HASTY
        };
        pass!(run(rt.alloc(), &good, &slow, manner).in_row(row));
    }
    Ok(())
}
