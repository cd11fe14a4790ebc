//! A set of changed namespaces beside a plain table of those that were noted, at random.
use change_lists::ChangedSet;
use rand_core::utils::NextWord;
use rand_pcg::Pcg32;
use std::alloc::{AllocError, Global};

const SCRIPTS: u64 = 12;

const STEPS: usize = 40;

const SEED: u64 = 0x6368_616E;

const NSID_MAX: u32 = 4_096;

const ENTRIES_MAX: usize = 1_024;

// Round which identifiers and runs of them begin.
const NEAR: [u32; 6] = [1, 64, 1_024, 2_048, 3_073, 4_096];

// The offsets from which a list is read, and as many bytes as a read has at most.
const OFFSETS: [u64; 8] = [0, 0, 4, 6, 2_048, 4_092, 4_096, 5_000];

const LEN_MAX: u32 = 4_100;

// By identifier, whether it was noted since the set was emptied.
#[derive(Drop)]
struct Plain {
    noted: Vec<bool>,
}

// What was seen: lists of some, of as many as there is place for, or nearly, and of more.
#[derive(Clone, Copy)]
struct Seen {
    some: usize,
    nearly_full: usize,
    overflowed: usize,
}

impl Plain {
    fn new(alloc: Global) -> Result<Plain, AllocError> {
        Ok(Plain {
            noted: vec![in alloc; false; NSID_MAX as usize + 1]?,
        })
    }

    // Place 0 is marked too, and never listed.
    fn note(&mut self, nsid: u32) {
        if let Some(noted) = self.noted.get_mut(nsid as usize) {
            *noted = true;
        }
    }

    fn clear(&mut self) {
        self.noted.fill(false);
    }

    fn has(&self, nsid: u32) -> bool {
        self.noted.get(nsid as usize).copied().unwrap_or(false)
    }

    fn count(&self) -> usize {
        (1..=NSID_MAX).filter(|nsid| self.has(*nsid)).count()
    }

    // The bytes of the list, as far as they are not zeros.
    fn list(&self, alloc: Global) -> Result<Vec<u8>, AllocError> {
        let mut bytes = Vec::new(alloc);
        if self.count() > ENTRIES_MAX {
            bytes.extend_from_slice(&[0xFF; 4])?;
            return Ok(bytes);
        }
        for nsid in 1..=NSID_MAX {
            if self.has(nsid) {
                bytes.extend_from_slice(&nsid.to_le_bytes())?;
            }
        }
        Ok(bytes)
    }
}

fn below(random: &mut Pcg32, bound: u32) -> u32 {
    random.next_word() % bound.max(1)
}

fn nsid(random: &mut Pcg32) -> u32 {
    let near = NEAR.get(below(random, 6) as usize).copied().unwrap_or(1);
    near.saturating_sub(1).saturating_add(below(random, 4))
}

// Notes identifiers in a run, each, or each second one.
fn note_run(set: &mut ChangedSet, plain: &mut Plain, first: u32, count: u32, step: u32) {
    for number in 0..count {
        let nsid = first.saturating_add(number.saturating_mul(step));
        set.note(nsid);
        plain.note(nsid);
    }
}

// A part of the list is that of the plain one, and zeros.
fn is_shown(
    alloc: Global,
    set: &ChangedSet,
    plain: &Plain,
    offset: u64,
    len: usize,
) -> Result<bool, AllocError> {
    let list = plain.list(alloc)?;
    let mut wanted = vec![in alloc; 0; len]?;
    for (at, byte) in list.iter().skip(offset as usize).enumerate() {
        if let Some(place) = wanted.get_mut(at) {
            *place = *byte;
        }
    }
    let mut bytes = vec![in alloc; 0xA5; len]?;
    set.page(offset, &mut bytes);
    Ok(*bytes == *wanted)
}

fn see(plain: &Plain, seen: &mut Seen) {
    let count = plain.count();
    let what = if count > ENTRIES_MAX {
        &mut seen.overflowed
    } else if count > 900 {
        &mut seen.nearly_full
    } else {
        &mut seen.some
    };
    *what = what.saturating_add(1);
}

fn act(random: &mut Pcg32, set: &mut ChangedSet, plain: &mut Plain) {
    match below(random, 12) {
        0 => {
            set.clear();
            plain.clear();
        }
        1..=3 => note_run(set, plain, nsid(random), 1, 1),
        _ => {
            let first = nsid(random);
            let step = if below(random, 2) == 0 { 1 } else { 2 };
            note_run(set, plain, first, below(random, 600), step);
        }
    }
}

fn is_right(alloc: Global, number: u64, seen: &mut Seen) -> Result<bool, AllocError> {
    let mut random = Pcg32::new(SEED, number);
    let mut set = ChangedSet::new();
    let mut plain = Plain::new(alloc)?;
    for _ in 0..STEPS {
        act(&mut random, &mut set, &mut plain);
        let offset = OFFSETS.get(below(&mut random, 8) as usize).copied();
        let len = below(&mut random, LEN_MAX) as usize;
        let part = is_shown(alloc, &set, &plain, offset.unwrap_or(0), len)?;
        if !part || !is_shown(alloc, &set, &plain, 0, LEN_MAX as usize)? {
            return Ok(false);
        }
        see(&plain, seen);
    }
    Ok(true)
}

#[test]
fn lists_are_those_of_a_plain_table(rt: HostRuntime) {
    let mut seen = Seen {
        some: 0,
        nearly_full: 0,
        overflowed: 0,
    };
    for number in 0..SCRIPTS {
        let right = is_right(rt.alloc(), number, &mut seen);
        assert!(rt; right == Ok(true), "script {number} of seed {SEED}");
    }
    assert!(rt; seen.some > 50 && seen.nearly_full > 10 && seen.overflowed > 50);
}
