//! A target whose PDUs come in pieces beside one that gets them whole: what the two send is equal. Each
//! call of theirs is answered by its rule on the way, since memory is ample.
mod script;

use crate::random;
use rand_core::utils::NextWord;
use rand_pcg::Pcg32;
use script::{CONNECTIONS, Script};
use std::alloc::Global;
use testkit_tables::{Outcome, Placed, check, pass};

const SCRIPTS: u64 = 240;

const EVENTS: usize = 36;

const SEED: u64 = 0x6e76_6d65;

// The streams of numbers that say how much output is taken stand behind those of the scripts.
const TAKEN: u64 = 1 << 32;

// One more event, on a connection that is known or by an edit.
fn go_on(script: &mut Script, random: &mut Pcg32) {
    if random::rarely(random, 4) {
        script.edit(random::line(random));
        return;
    }
    let number = (random.next_word() % CONNECTIONS) as usize;
    if script.target.room(number) == 0 {
        open_anew(script, random, number);
    } else if random::rarely(random, 30) {
        script.end(number);
    } else {
        bring(script, random, number);
    }
}

fn open_anew(script: &mut Script, random: &mut Pcg32, number: usize) {
    if script.target.ended(number) {
        script.end(number);
    }
    script.open((random.next_word() % 3) as u16);
}

fn bring(script: &mut Script, random: &mut Pcg32, number: usize) {
    let position = script.next_position(number);
    let pdu = random::pdu(script.alloc, random, position);
    let cut = random.next_word() as usize % 200;
    script.take(number, pdu, cut);
    script.compare(number);
}

// Runs a script, of which some output is taken on the way.
fn run(script: &mut Script, number: u64) {
    let mut random = Pcg32::new(SEED, number);
    let mut taken = Pcg32::new(SEED, TAKEN.saturating_add(number));
    script.add_ports();
    for event in 0..EVENTS {
        script.begin_step(event);
        go_on(script, &mut random);
        if random::rarely(&mut taken, 4) {
            let number = (taken.next_word() % CONNECTIONS) as usize;
            script.take_output(number, taken.next_word() as usize % 3000);
        }
    }
    for number in 0..CONNECTIONS as usize {
        script.compare(number);
    }
}

fn check_walk(alloc: Global, number: u64) -> Outcome {
    match Script::new(alloc) {
        Ok(mut script) => {
            run(&mut script, number);
            script.outcome()
        }
        Err(_) => check(false, "memory for a target"),
    }
}

#[test]
fn sends_the_same_however_a_stream_is_cut(rt: HostRuntime) -> Outcome {
    for number in 0..SCRIPTS {
        pass!(check_walk(rt.alloc(), number).in_script(SEED, number));
    }
    Ok(())
}
