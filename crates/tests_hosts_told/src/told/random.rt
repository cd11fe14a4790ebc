//! Random scripts.
use super::draw::{ENABLED, below, blocks_change, change, command, mask, rarely, sight, turn};
use super::script::Script;
use crate::hosts::{
    ANA, CHANGED, Change, Command, Layout, NOTHING_SEEN, Namespace, QUEUES, Read, Seen, Sight,
    Stage,
};
use nvt_config::{Access, Visibility};
use rand_pcg::Pcg32;
use std::alloc::Global;
use testkit_tables::{Outcome, Placed, check, check_rows, pass};

const SCRIPTS: u64 = 18;

const STEPS: usize = 200;

// How many scripts there are in which controllers wait, and how many edits each has.
const WAITING: u64 = 3;

const EDITS: usize = 50;

// The I/O controllers come first: those of two hosts, and a stranger's.
const IO_QUEUES: usize = 5;

const SEED: u64 = 0x746F_6C64;

// Each host sees the first namespace, and none the second.
const AT_FIRST: [Change; 7] = [
    Change::Allow(0),
    Change::Allow(1),
    Change::Link(1),
    Change::Link(2),
    Change::Add(1, SMALL),
    Change::Add(2, LARGE),
    Change::See(Sight::View(2, Visibility::Named)),
];

const SHOWN: Change = Change::See(Sight::Show(2, 0));

const SMALL: Namespace = Namespace {
    blocks: 8,
    is_large: false,
    group: 1,
};

const LARGE: Namespace = Namespace {
    blocks: 8,
    is_large: true,
    group: 2,
};

// So many of the queues are connected. Strangers are where the subsystem is open.
fn begin(script: &mut Script, queues: usize, access: Access) -> Outcome {
    pass!(script.set_up());
    pass!(script.edits(Change::SetAccess(access)));
    for change in AT_FIRST {
        pass!(script.edits(change));
    }
    for queue in 0..queues {
        pass!(script.connects(queue));
    }
    Ok(())
}

// A queue comes a step nearer to be connected, or its controller to be ready.
fn restore(script: &mut Script, random: &mut Pcg32, queue: usize) -> Outcome {
    let it = script.hosts.queue(queue);
    match it.stage {
        Stage::Ended => return script.gives_up(queue),
        Stage::Closed => return script.connects(queue),
        Stage::Opened | Stage::Connected => {}
    }
    if it.is_enabled {
        return script.sends(queue, 0x101, &Command::Configure(0));
    }
    pass!(script.sends(queue, 0x102, &Command::Configure(ENABLED)));
    script.sends(queue, 0x103, &Command::SetEvents(mask(random), false))
}

// One event of a queue.
fn act(script: &mut Script, random: &mut Pcg32, queue: usize) -> Outcome {
    let stage = script.hosts.queue(queue).stage;
    if stage == Stage::Closed && script.hosts.is_barred(queue) && !rarely(random, 4) {
        return script.edits(change(random));
    }
    if stage != Stage::Connected {
        return restore(script, random, queue);
    }
    if script.hosts.is_full(queue) && !rarely(random, 4) {
        return script.edits(change(random));
    }
    if !script.hosts.is_ready(queue) && rarely(random, 2) {
        return restore(script, random, queue);
    }
    if rarely(random, 80) {
        return script.gives_up(queue);
    }
    let cid = (below(random, 12) % 12) as u16;
    let command = command(random, queue);
    script.sends(queue, cid, &command)
}

fn step(script: &mut Script, random: &mut Pcg32) -> Outcome {
    if below(random, 5) < 2 {
        script.edits(change(random))
    } else {
        let queue = below(random, QUEUES as u32) as usize;
        act(script, random, queue)
    }
}

fn run(script: &mut Script, number: u64) -> Outcome {
    let mut random = Pcg32::new(SEED, number);
    let access = if number % 3 == 0 {
        Access::Open
    } else {
        Access::Closed
    };
    pass!(begin(script, QUEUES, access));
    pass!(script.edits(SHOWN));
    for number in 0..STEPS {
        pass!(step(script, &mut random).at_step(number));
    }
    Ok(())
}

const WHOLE_LIST: Read = Read {
    lid: CHANGED,
    retains: false,
    groups_only: false,
    offset: 0,
    len: 4096,
    sgl_type: 0x5A,
    more: 0,
};

const LOG: Read = Read {
    lid: ANA,
    len: 160,
    ..WHOLE_LIST
};

// Three I/O controllers are ready, and wait for an event, while 1,024 namespaces come and go. The first reads its list,
// and the others once one namespace more is shown to the host of the second, and not to that of the third. The other
// queues are connected after that.
fn run_swept(script: &mut Script, number: u64) -> Outcome {
    let mut random = Pcg32::new(SEED, number);
    pass!(begin(script, 3, Access::Closed));
    for queue in 0..3 {
        pass!(restore(script, &mut random, queue).in_row(queue));
        pass!(script.sends(queue, 0x104, &Command::Request).in_row(queue));
    }
    pass!(script.sweeps());
    pass!(script.sends(0, 0x105, &Command::Read(WHOLE_LIST)));
    pass!(script.edits(SHOWN));
    pass!(script.sends(1, 0x105, &Command::Read(WHOLE_LIST)));
    pass!(script.sends(2, 0x105, &Command::Read(WHOLE_LIST)));
    for number in 0..STEPS {
        pass!(step(script, &mut random).at_step(number));
    }
    Ok(())
}

// A controller reads what changed, where it was told of it or is new, and waits to be told again.
fn waits_again(script: &mut Script, queue: usize) -> Outcome {
    if script.hosts.past.oldest(queue).is_some() {
        return Ok(());
    }
    pass!(script.sends(queue, 0x106, &Command::Read(WHOLE_LIST)));
    pass!(script.sends(queue, 0x107, &Command::Read(LOG)));
    script.sends(queue, 0x108, &Command::Request)
}

fn wait_again(script: &mut Script) -> Outcome {
    for queue in 0..IO_QUEUES {
        pass!(waits_again(script, queue).in_row(queue));
    }
    Ok(())
}

fn waited_change(random: &mut Pcg32, layout: &Layout) -> Change {
    match below(random, 6) {
        0 => blocks_change(random),
        1 | 2 => Change::See(sight(random)),
        _ => turn(random, layout),
    }
}

// The I/O controllers of both hosts and of a stranger wait for events, while who sees what is edited, and they wait
// again as soon as they are told.
fn run_waiting(script: &mut Script, number: u64) -> Outcome {
    let mut random = Pcg32::new(SEED, number);
    pass!(begin(script, IO_QUEUES, Access::Open));
    for queue in 0..IO_QUEUES {
        pass!(script.sends(queue, 0x102, &Command::Configure(ENABLED)));
        pass!(script.sends(queue, 0x103, &Command::SetEvents(0x900, false)));
    }
    for number in 0..EDITS {
        pass!(wait_again(script).at_step(number));
        let change = waited_change(&mut random, &script.hosts.past.layout());
        pass!(script.edits(change).at_step(number));
    }
    Ok(())
}

// What a script has: steps of each kind, a list that overflows, or controllers that wait.
#[derive(Clone, Copy)]
enum Kind {
    Mixed,
    Swept,
    Waiting,
}

fn run_script(mut script: Script, kind: Kind, number: u64, seen: &mut Seen) -> Outcome {
    let outcome = match kind {
        Kind::Mixed => run(&mut script, number),
        Kind::Swept => run_swept(&mut script, number),
        Kind::Waiting => run_waiting(&mut script, number),
    };
    *seen = script.hosts.seen;
    outcome
}

fn check_script(alloc: Global, kind: Kind, number: u64, seen: &mut Seen) -> Outcome {
    match Script::new(alloc, *seen) {
        Ok(script) => run_script(script, kind, number, seen).in_script(SEED, number),
        Err(_) => check(false, "memory for a target").in_script(SEED, number),
    }
}

// Each thing was seen that is to be shown.
fn check_seen(seen: &Seen) -> Outcome {
    let rows = [
        seen.by_edits > 50,
        seen.by_requests > 20,
        seen.exceeded > 5,
        seen.conflicts > 5,
        seen.faults > 2,
        seen.reads > 100,
        seen.emptied > 3,
        seen.ended > 5,
        seen.apart > 60,
        seen.left > 5,
        seen.partial > 25,
        seen.deleted > 10,
        seen.again > 5,
        seen.forbidden > 10,
    ];
    check_rows(&rows, "this often seen")
}

#[test]
fn hosts_are_told_what_a_look_back_says(rt: HostRuntime) -> Outcome {
    let mut seen = NOTHING_SEEN;
    let mut apart = 0u64;
    for number in 0..SCRIPTS {
        let Seen { apart: before, .. } = seen;
        pass!(check_script(rt.alloc(), Kind::Mixed, number, &mut seen));
        apart = apart.saturating_add(u64::from(seen.apart.saturating_sub(before) >= 3));
    }
    pass!(check_seen(&seen));
    check(
        apart > 14,
        "scripts with three edits of what one host alone sees",
    )
}

#[test]
fn lists_overflow_as_a_look_back_says(rt: HostRuntime) -> Outcome {
    let mut seen = NOTHING_SEEN;
    pass!(check_script(rt.alloc(), Kind::Swept, SCRIPTS, &mut seen));
    let rows = [seen.full > 1, seen.overflowed > 0];
    check_rows(&rows, "this often seen")
}

#[test]
fn hosts_are_told_of_what_they_see_alone(rt: HostRuntime) -> Outcome {
    let mut seen = NOTHING_SEEN;
    for number in 0..WAITING {
        pass!(check_script(rt.alloc(), Kind::Waiting, number, &mut seen));
    }
    let rows = [
        seen.by_edits > 60,
        seen.apart > 25,
        seen.left > 70,
        seen.again > 5,
    ];
    check_rows(&rows, "this often seen")
}
