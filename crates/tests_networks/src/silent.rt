//! Hosts that take nothing, or do not connect to a controller, beside a good one.
use crate::host::Host;
use crate::manner::{GOOD, HASTY, Manner, NEVER};
use crate::network::ScriptedNetwork;
use crate::rig::{Wish, holds_over};
use crate::script::{Script, connected, pages, unconnected};
use crate::slow::check_good;
use std::alloc::{AllocError, Global};
use testkit_tables::{Outcome, Placed, check, pass};

const SECOND: u64 = 1_000_000;

const TURNS: u64 = 1_500_000;

// It sends a command four times a second.
const CALM: Manner = Manner {
    thinks: SECOND / 4,
    ..GOOD
};

/// What is to become of a host.
#[derive(Clone, Copy)]
enum Fate {
    /// It is given up, so long after its socket took a byte last, and this is told.
    GivenUp(&'static [u8]),
    Kept,
}

fn check_fate(fate: Fate, host: &Host<'_>, now: u64) -> Outcome {
    pass!(host.check_taken());
    match fate {
        Fate::GivenUp(_) => {
            let waited = host.tried_at.saturating_sub(host.took_at) / SECOND;
            pass!(check(host.is_closed(), "it is given up"));
            check(waited >= 30 && waited < 33, "after some 30 seconds")
        }
        Fate::Kept => check(
            host.is_held() && now > 60 * SECOND,
            "it is kept for a minute",
        ),
    }
}

// The good host is answered, and each other has its fate.
#[derive(Drop)]
struct Fates<'a>(&'a [Fate]);

impl Wish for Fates<'_> {
    fn holds(&self, network: &ScriptedNetwork<'_>) -> Outcome {
        let now = network.now();
        let Some((good, hosts)) = network.hosts().split_first() else {
            return check(false, "a good host");
        };
        pass!(check_good(good, now));
        for (row, (host, fate)) in hosts.iter().zip(self.0).enumerate() {
            pass!(check_fate(*fate, host, now).in_row(row));
            if let Fate::GivenUp(line) = fate {
                pass!(check(network.has_told(line), "it is told").in_row(row));
            }
        }
        Ok(())
    }
}

// A host for each manner, each with a script of its own.
fn hosts_of<'a>(
    alloc: Global,
    scripts: &'a [Script],
    manners: &[Manner],
) -> Result<Vec<Host<'a>>, AllocError> {
    let mut hosts = Vec::with_capacity(alloc, 64)?;
    for (script, manner) in scripts.iter().zip(manners) {
        hosts.push(Host::new(alloc, script, *manner)?)?;
    }
    Ok(hosts)
}

// The first host is the good one.
fn check_fates(alloc: Global, scripts: &[Script], manners: &[Manner], fates: &[Fate]) -> Outcome {
    let hosts = hosts_of(alloc, scripts, manners)?;
    let network = ScriptedNetwork::new(hosts, Vec::new(alloc), Vec::with_capacity(alloc, 16_384)?);
    holds_over(alloc, network, TURNS, &Fates(fates))
}

// It takes so many bytes in all.
fn deaf(window: usize) -> Manner {
    Manner {
        window,
        every: NEVER,
        ..HASTY
    }
}

#[test]
fn a_host_that_takes_nothing_is_given_up(rt: HostRuntime) -> Outcome {
    let scripts = [
        connected(rt.alloc())?,
        pages(rt.alloc(), 9, 131_072)?,
        pages(rt.alloc(), 9, 131_072)?,
        pages(rt.alloc(), 63, 512)?,
    ];
    let manners = [CALM, deaf(0), deaf(400_000), deaf(300)];
    let fates = [
        Fate::GivenUp(b"connection 2: given up: the host took nothing"),
        Fate::GivenUp(b"connection 3: given up: the host took nothing"),
        Fate::GivenUp(b"connection 4: given up: the host took nothing"),
    ];
    check_fates(rt.alloc(), &scripts, &manners, &fates)
}

#[test]
fn a_host_that_takes_a_byte_in_29_seconds_is_kept(rt: HostRuntime) -> Outcome {
    let scripts = [connected(rt.alloc())?, pages(rt.alloc(), 9, 131_072)?];
    let trickle = Manner {
        window: 1_000,
        reads: 1,
        every: 29 * SECOND,
        ..HASTY
    };
    check_fates(rt.alloc(), &scripts, &[CALM, trickle], &[Fate::Kept])
}

#[test]
fn a_host_that_does_not_connect_is_given_up(rt: HostRuntime) -> Outcome {
    let scripts = [
        connected(rt.alloc())?,
        Script::mute(rt.alloc()),
        unconnected(rt.alloc(), 63, false)?,
    ];
    let manners = [CALM, HASTY, HASTY];
    let fates = [
        Fate::GivenUp(b"connection 2: given up: no Connect succeeded in time"),
        Fate::GivenUp(b"connection 3: given up: no Connect succeeded in time"),
    ];
    check_fates(rt.alloc(), &scripts, &manners, &fates)
}

#[test]
fn a_host_that_connected_and_is_silent_is_kept(rt: HostRuntime) -> Outcome {
    let scripts = [connected(rt.alloc())?, pages(rt.alloc(), 0, 0)?];
    check_fates(rt.alloc(), &scripts, &[CALM, HASTY], &[Fate::Kept])
}
