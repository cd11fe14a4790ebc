//! Hosts that read slowly, beside a good one.
use crate::draws::{below, rarely, up_to};
use crate::host::Host;
use crate::manner::{Ending, GOOD, HASTY, Manner, NEVER};
use crate::network::ScriptedNetwork;
use crate::rig::{Wish, holds_over};
use crate::script::{Script, connected, lines, pages, unconnected};
use rand_pcg::Pcg32;
use std::alloc::{AllocError, Global};
use std::ops::Range;
use testkit_tables::{Outcome, Placed, check, check_number, pass};

const SEED: u64 = 0x736C_6F77;

/// How long a run is: in how many turns a slow host reads all that it is owed, in how many microseconds, in how many
/// pieces at most, and in how many it is read.
#[derive(Clone, Copy)]
struct Extent {
    turns: u64,
    micros: usize,
    pieces: usize,
    sends: usize,
    /// How many bytes are owed to all slow hosts at most.
    bytes: usize,
}

const SHORT: Extent = Extent {
    turns: 10_000,
    micros: 6_000,
    pieces: 150,
    sends: 1_500,
    bytes: 300_000,
};

const LONG: Extent = Extent {
    turns: 200_000,
    micros: 150_000,
    pieces: 3_000,
    sends: 30_000,
    bytes: 900_000,
};

// How long a reply to the good host takes at most.
const SOON: u64 = 10_000;

// As many slow hosts connect to a controller at most, of which there are 32.
const CONNECTS: usize = 30;

// What the slow hosts send: the last ones are owed little.
fn slow_scripts(alloc: Global) -> Result<Vec<Script>, AllocError> {
    let mut scripts = Vec::with_capacity(alloc, 16)?;
    for (count, len) in [
        (6, 131_072),
        (2, 131_072),
        (3, 100_000),
        (5, 65_536),
        (9, 32_768),
    ] {
        scripts.push(pages(alloc, count, len)?)?;
    }
    for (count, len) in [(20, 4_096), (63, 4_096), (63, 512), (31, 1_024), (1, 8_192)] {
        scripts.push(pages(alloc, count, len)?)?;
    }
    for count in [1, 7, 30, 63] {
        scripts.push(unconnected(alloc, count, false)?)?;
    }
    Ok(scripts)
}

fn draw_ending(random: &mut Pcg32) -> Ending {
    match below(random, 8) {
        0 => Ending::Ends,
        1 => Ending::Resets,
        2 | 3 => Ending::EndsAnswered,
        _ => Ending::Stays,
    }
}

// So many microseconds at most; rarely it never reads.
fn draw_every(random: &mut Pcg32, most: usize) -> u64 {
    if rarely(random, 20) {
        NEVER
    } else {
        u64::from(below(random, u32::try_from(most).unwrap_or(0)))
    }
}

// How a slow host behaves, which is one of so many.
fn draw_manner(random: &mut Pcg32, script: &Script, hosts: usize, extent: Extent) -> Manner {
    let owed = script.owed.len();
    let piece = (owed / extent.pieces.max(1)).saturating_add(1);
    let window = up_to(random, 400_000).max(piece);
    let reads = up_to(random, 65_536).max(piece);
    let pieces = (owed / window.min(reads).max(1)).saturating_add(1);
    let sent = script.sends.len().saturating_mul(hosts);
    Manner {
        opens_at: u64::from(below(random, 1_000)),
        gives: up_to(random, 65_536).max((sent / extent.sends.max(1)).saturating_add(1)),
        window,
        reads,
        every: draw_every(random, extent.micros / pieces.max(1)),
        asks: false,
        thinks: 0,
        ending: draw_ending(random),
    }
}

fn draw_good(random: &mut Pcg32) -> Manner {
    Manner {
        thinks: if rarely(random, 2) {
            0
        } else {
            u64::from(below(random, 2_000))
        },
        ..GOOD
    }
}

fn draw_count(random: &mut Pcg32) -> usize {
    let most = if rarely(random, 8) { 63 } else { 8 };
    (below(random, most) as usize).saturating_add(1)
}

// What the slow hosts of a run may still be owed, and how many of them may connect.
#[derive(Clone, Copy)]
struct Left {
    bytes: usize,
    connects: usize,
}

impl Left {
    // Whether there is so much left; then it is taken.
    fn takes(&mut self, script: &Script) -> bool {
        let connects = usize::from(script.connects());
        if script.owed.len() > self.bytes || connects > self.connects {
            return false;
        }
        self.bytes = self.bytes.saturating_sub(script.owed.len());
        self.connects = self.connects.saturating_sub(connects);
        true
    }
}

// A script, or the last one where too little is left for it.
fn draw_script<'a>(
    random: &mut Pcg32,
    scripts: &'a [Script],
    left: &mut Left,
) -> Option<&'a Script> {
    let place = below(random, 14) as usize;
    match scripts.get(place) {
        Some(script) if left.takes(script) => Some(script),
        _ => scripts.last(),
    }
}

// The good host first, and then the slow ones.
fn draw_hosts<'a>(
    alloc: Global,
    random: &mut Pcg32,
    scripts: (&'a Script, &'a [Script]),
    extent: Extent,
) -> Result<Vec<Host<'a>>, AllocError> {
    let count = draw_count(random);
    let mut hosts = Vec::with_capacity(alloc, 64)?;
    hosts.push(Host::new(alloc, scripts.0, draw_good(random))?)?;
    let mut left = Left {
        bytes: extent.bytes,
        connects: CONNECTS,
    };
    for _ in 0..count {
        if let Some(script) = draw_script(random, scripts.1, &mut left) {
            let manner = draw_manner(random, script, count, extent);
            hosts.push(Host::new(alloc, script, manner)?)?;
        }
    }
    Ok(hosts)
}

// Rarely one that sends lines without end.
fn draw_editors<'a>(
    alloc: Global,
    random: &mut Pcg32,
    lines: &'a Script,
) -> Result<Vec<Host<'a>>, AllocError> {
    let mut editors = Vec::new(alloc);
    if rarely(random, 8) {
        editors.push(Host::new(alloc, lines, HASTY)?)?;
    }
    Ok(editors)
}

/// What is to be at the end of a run: the good host is first, and the others are slow.
pub struct AllIsGiven;

fn check_slow(host: &Host<'_>) -> Outcome {
    pass!(host.check_taken());
    if host.manner.every == NEVER {
        return Ok(());
    }
    match host.manner.ending {
        Ending::Stays => check(host.has_all() && host.is_held(), "all of it"),
        Ending::EndsAnswered => check(host.has_all() && host.is_closed(), "all, and closed"),
        Ending::Ends | Ending::Resets => check(host.is_closed(), "it is closed"),
    }
}

/// The good host is answered soon, and right.
pub fn check_good(host: &Host<'_>, now: u64) -> Outcome {
    pass!(host.check_taken());
    pass!(check(host.is_held(), "the good one stays"));
    pass!(check(host.replies > 0, "a reply"));
    let slowest = host.slowest_by(now);
    if slowest > SOON {
        check_number(slowest, SOON)
    } else {
        Ok(())
    }
}

impl Wish for AllIsGiven {
    fn holds(&self, network: &ScriptedNetwork<'_>) -> Outcome {
        let now = network.now();
        for (number, host) in network.hosts().iter().enumerate() {
            let outcome = if number == 0 {
                check_good(host, now)
            } else {
                check_slow(host)
            };
            pass!(outcome.in_row(number));
        }
        for editor in network.editors() {
            pass!(editor.check_taken());
        }
        Ok(())
    }
}

// What the good host sends, and what the slow ones do.
#[derive(Drop)]
struct Scripts {
    good: Script,
    slow: Vec<Script>,
    lines: Script,
}

fn write_scripts(alloc: Global) -> Result<Scripts, AllocError> {
    Ok(Scripts {
        good: connected(alloc)?,
        slow: slow_scripts(alloc)?,
        lines: lines(alloc)?,
    })
}

fn run(alloc: Global, number: u64, scripts: &Scripts, extent: Extent) -> Outcome {
    let mut random = Pcg32::new(SEED, number);
    let lent = (&scripts.good, scripts.slow.as_slice());
    let hosts = draw_hosts(alloc, &mut random, lent, extent)?;
    let editors = draw_editors(alloc, &mut random, &scripts.lines)?;
    let network = ScriptedNetwork::new(hosts, editors, Vec::with_capacity(alloc, 16_384)?);
    holds_over(alloc, network, extent.turns, &AllIsGiven)
}

fn run_each(alloc: Global, numbers: Range<u64>, extent: Extent) -> Outcome {
    let scripts = write_scripts(alloc)?;
    for number in numbers {
        pass!(run(alloc, number, &scripts, extent).in_script(SEED, number));
    }
    Ok(())
}

#[test]
fn slow_hosts_get_all_in_short_runs(rt: HostRuntime) -> Outcome {
    run_each(rt.alloc(), 0..1_000, SHORT)
}

#[test]
fn slow_hosts_get_all_in_more_short_runs(rt: HostRuntime) -> Outcome {
    run_each(rt.alloc(), 1_000..2_000, SHORT)
}

#[test]
fn slow_hosts_get_all_in_long_runs(rt: HostRuntime) -> Outcome {
    run_each(rt.alloc(), 2_000..2_030, LONG)
}
