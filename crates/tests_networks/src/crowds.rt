//! Hosts and editors that send without end, beside a good host.
use crate::host::Host;
use crate::manner::{GOOD, HASTY};
use crate::network::ScriptedNetwork;
use crate::owed::EDITS;
use crate::rig::{Wish, holds_over_edits};
use crate::script::{Script, connected, lines, much, shows, unconnected};
use crate::slow::check_good;
use std::alloc::{AllocError, Global};
use std::cell::Cell;
use testkit_tables::{Outcome, Placed, check, pass};

// What a target is configured as, and for how many turns it is served.
#[derive(Clone, Copy)]
struct Serving<'a> {
    edits: &'a [u8],
    turns: u64,
}

const SERVING: Serving<'static> = Serving {
    edits: EDITS,
    turns: 60_000,
};

// So many turns end soon where nothing is proved.
const FEW_TURNS: u64 = 6_000;

// So many times the configuration is shown in them at least.
const SHOWN_MIN: u64 = 32;

// How long ago each was answered last, at most.
const LATELY: u64 = 20_000;

/// So many replies in so many microseconds.
#[derive(Clone, Copy)]
struct Rate {
    replies: u64,
    micros: u64,
}

impl Rate {
    // Whether it is over so small a part of another.
    fn is_over(self, part: u64, other: Rate) -> bool {
        let mine = self.replies.saturating_mul(other.micros);
        mine.saturating_mul(part) > other.replies.saturating_mul(self.micros)
    }
}

// The good host is answered; how often is kept. Those beside it are answered too; where editors are shown much, one may wait
// long for its first line, so how often all of it was shown is kept, to any of them.
#[derive(Drop)]
struct Answered {
    rate: Cell<Rate>,
    shown: Cell<u64>,
    is_each_answered: bool,
}

// It got what it is owed.
fn check_right(host: &Host<'_>) -> Outcome {
    pass!(host.check_taken());
    check(host.is_held(), "it stays")
}

// .. and some of it lately.
fn check_one(host: &Host<'_>, now: u64) -> Outcome {
    pass!(check_right(host));
    let waited = now.saturating_sub(host.took_at);
    check(waited < LATELY, "it is answered too")
}

fn check_all(hosts: &[Host<'_>], now: u64) -> Outcome {
    for (row, host) in hosts.iter().enumerate() {
        pass!(check_one(host, now).in_row(row));
    }
    Ok(())
}

// How often all that they are owed came to these, each of which got what it is owed.
fn check_shown(editors: &[Host<'_>], shown: &Cell<u64>) -> Outcome {
    let mut rounds = 0u64;
    for (row, editor) in editors.iter().enumerate() {
        pass!(check_right(editor).in_row(row));
        rounds = rounds.saturating_add(editor.rounds);
    }
    shown.set(rounds);
    Ok(())
}

impl Wish for Answered {
    fn holds(&self, network: &ScriptedNetwork<'_>) -> Outcome {
        let now = network.now();
        let Some(good) = network.hosts().first() else {
            return check(false, "a good host");
        };
        self.rate.set(Rate {
            replies: good.replies,
            micros: now,
        });
        pass!(check_good(good, now));
        pass!(check_all(network.hosts(), now));
        if self.is_each_answered {
            check_all(network.editors(), now)
        } else {
            check_shown(network.editors(), &self.shown)
        }
    }
}

fn endless<'a>(
    alloc: Global,
    script: &'a Script,
    count: usize,
) -> Result<Vec<Host<'a>>, AllocError> {
    let mut hosts = Vec::with_capacity(alloc, 64)?;
    for _ in 0..count {
        hosts.push(Host::new(alloc, script, HASTY)?)?;
    }
    Ok(hosts)
}

// How many hosts and editors that send without end are beside the good one, and how many that ask for the configuration.
#[derive(Clone, Copy)]
struct Crowd {
    hosts: usize,
    editors: usize,
    showing: usize,
}

const NOBODY: Crowd = Crowd {
    hosts: 0,
    editors: 0,
    showing: 0,
};

fn network_of<'a>(
    alloc: Global,
    scripts: &'a [Script; 4],
    crowd: Crowd,
) -> Result<ScriptedNetwork<'a>, AllocError> {
    let [good, flood, lines, shows] = scripts;
    let mut hosts = endless(alloc, flood, crowd.hosts)?;
    hosts.insert(0, Host::new(alloc, good, GOOD)?)?;
    let mut editors = endless(alloc, lines, crowd.editors)?;
    for _ in 0..crowd.showing {
        editors.push(Host::new(alloc, shows, HASTY)?)?;
    }
    Ok(ScriptedNetwork::new(hosts, editors, Vec::with_capacity(alloc, 16_384)?))
}

fn scripts(alloc: Global) -> Result<[Script; 4], AllocError> {
    Ok([
        connected(alloc)?,
        unconnected(alloc, 64, true)?,
        lines(alloc)?,
        shows(alloc)?,
    ])
}

fn serve_beside(alloc: Global, serving: Serving<'_>, crowd: Crowd, answered: &Answered) -> Outcome {
    let scripts = scripts(alloc)?;
    let network = network_of(alloc, &scripts, crowd)?;
    holds_over_edits(alloc, network, serving.edits, serving.turns, answered)
}

// Beside a crowd the good host gets over so small a part of the replies that it gets alone.
fn check_crowd(alloc: Global, serving: Serving<'_>, crowd: Crowd, part: u64) -> Outcome {
    let answered = Answered {
        rate: Cell::new(Rate {
            replies: 0,
            micros: 0,
        }),
        shown: Cell::new(0),
        is_each_answered: crowd.showing == 0,
    };
    pass!(serve_beside(alloc, serving, NOBODY, &answered));
    let rate_alone = answered.rate.get();
    pass!(serve_beside(alloc, serving, crowd, &answered));
    let rate = answered.rate.get();
    pass!(check(rate.is_over(part, rate_alone), "its part of the replies"));
    check(
        crowd.showing == 0 || answered.shown.get() >= SHOWN_MIN,
        "the configuration is shown",
    )
}

#[test]
fn a_flood_leaves_time_for_a_good_host(rt: HostRuntime) -> Outcome {
    let crowd = Crowd { hosts: 1, ..NOBODY };
    check_crowd(rt.alloc(), SERVING, crowd, 3)
}

#[test]
fn floods_of_all_slots_leave_time_for_a_good_host(rt: HostRuntime) -> Outcome {
    let crowd = Crowd {
        hosts: 63,
        ..NOBODY
    };
    check_crowd(rt.alloc(), SERVING, crowd, 100)
}

#[test]
fn an_editor_leaves_time_for_a_good_host(rt: HostRuntime) -> Outcome {
    let crowd = Crowd {
        editors: 1,
        ..NOBODY
    };
    check_crowd(rt.alloc(), SERVING, crowd, 3)
}

#[test]
fn editors_of_all_places_leave_time_for_a_good_host(rt: HostRuntime) -> Outcome {
    let crowd = Crowd {
        editors: 16,
        ..NOBODY
    };
    check_crowd(rt.alloc(), SERVING, crowd, 3)
}

#[test]
fn editors_that_are_shown_much_leave_time_for_a_good_host(rt: HostRuntime) -> Outcome {
    let edits = much(rt.alloc())?;
    let serving = Serving {
        edits: &edits,
        turns: FEW_TURNS,
    };
    let crowd = Crowd {
        showing: 16,
        ..NOBODY
    };
    check_crowd(rt.alloc(), serving, crowd, 3)
}
