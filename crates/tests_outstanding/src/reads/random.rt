//! Random scripts of a target beside the plain program.
use crate::draws::whole_disk;
use crate::plain::{CONTROLLERS, Change, NOTHING_SEEN, Seen, UNITS};
use crate::reads::script::{ENABLED, Script};
use crate::reads::step::{Temper, step};
use rand_pcg::Pcg32;
use std::alloc::Global;
use testkit_tables::{Outcome, Placed, check, check_rows, pass};
use testkit_targets::MemoryTarget;

const STEPS: usize = 320;

const SEED: u64 = 0x7761_6974;

const CALM: Temper = Temper {
    is_rough: false,
    only: None,
};

const ROUGH: Temper = Temper {
    is_rough: true,
    only: None,
};

const ONE_QUEUE: Temper = Temper {
    is_rough: false,
    only: Some(4),
};

const OTHER_QUEUE: Temper = Temper {
    is_rough: false,
    only: Some(7),
};

// Of each script.
const TEMPERS: [Temper; 10] = [
    ONE_QUEUE,
    ROUGH,
    OTHER_QUEUE,
    ROUGH,
    CALM,
    ROUGH,
    CALM,
    ROUGH,
    ONE_QUEUE,
    ROUGH,
];

// Everything is there, and each queue is connected.
fn begin(script: &mut Script) {
    script.set_up();
    add_all(script);
    for controller in 0..CONTROLLERS {
        let admin = controller % 4 * 3;
        script.connects(admin);
        script.configures(admin, ENABLED);
        script.connects(admin + 1);
        script.connects(admin + 2);
    }
}

fn add_all(script: &mut Script) {
    for nsid in 1..4usize {
        script.edits(Change::Add(nsid, whole_disk(nsid)));
    }
}

// How many of a hundred steps are commands: at first most of them.
fn commands_at(number: usize) -> u32 {
    if number < 240 { 97 } else { 10 }
}

// What still waits is finished, while edits are made.
fn finish_all(script: &mut Script, random: &mut Pcg32) {
    for _ in 0..4000 {
        if script.outcome.is_ok() && !script.plain.transfers.is_empty() {
            step(script, random, CALM, 0);
        }
    }
    let is_done = script.plain.transfers.is_empty();
    script.wants(is_done, "an end of all commands");
}

// All bytes of all disks.
fn read_disks(script: &mut Script) {
    for nsid in 1..4usize {
        script.edits(Change::Delete(nsid));
    }
    add_all(script);
    for nsid in 1..4usize {
        script.reads(nsid);
    }
}

fn run(script: &mut Script, number: u64, temper: Temper) -> Outcome {
    let mut random = Pcg32::new(SEED, number);
    begin(script);
    for number in 0..STEPS {
        step(script, &mut random, temper, commands_at(number));
        script.reads(number % 3 + 1);
        pass!(script.outcome.at_step(number));
    }
    finish_all(script, &mut random);
    read_disks(script);
    script.outcome.at_step(STEPS)
}

fn check_over(
    alloc: Global,
    target: MemoryTarget,
    number: u64,
    temper: Temper,
    seen: &mut Seen,
) -> Outcome {
    let mut script = Script::new(alloc, target, *seen);
    let outcome = run(&mut script, number, temper);
    *seen = script.plain.seen;
    outcome
}

fn check_script(alloc: Global, number: u64, temper: Temper, seen: &mut Seen) -> Outcome {
    match MemoryTarget::new(alloc, &UNITS) {
        Some(target) => check_over(alloc, target, number, temper, seen),
        None => check(false, "memory for a target"),
    }
}

// Each thing was seen that is to be shown.
fn check_seen(seen: &Seen) -> Outcome {
    let rows = [
        seen.most_of_queue == 63,
        seen.most_of_all > 80,
        seen.done > 100,
        seen.differed > 10,
        seen.no_namespace > 10,
        seen.no_access > 10,
        seen.out_of_range > 10,
        seen.longer > 5,
        seen.shorter > 5,
        seen.dropped > 100,
        seen.faults > 10,
    ];
    check_rows(&rows, "this often seen")
}

#[test]
fn commands_that_wait_are_a_plain_list(rt: HostRuntime) -> Outcome {
    let mut seen = NOTHING_SEEN;
    for (number, temper) in TEMPERS.iter().enumerate() {
        let number = number as u64;
        pass!(check_script(rt.alloc(), number, *temper, &mut seen).in_script(SEED, number));
    }
    check_seen(&seen)
}
