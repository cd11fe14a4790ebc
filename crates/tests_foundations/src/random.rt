//! Random calls of a store beside a plain list of a disk's bytes.
use super::checked::{compare, read, write, zero};
use block_store::{MemoryDisk, Store, UNIT_LEN};
use rand_core::utils::NextWord;
use rand_pcg::Pcg32;
use testkit_tables::{Outcome, Placed, check, pass};

const UNITS: usize = 6;

const LEN: usize = UNITS * UNIT_LEN;

const STEPS: usize = 2_000;

const SEED: u64 = 0x626C_6F63;

// A range of units: the first, how many, and the place and the number of its bytes.
#[derive(Clone, Copy)]
struct Range {
    first: u64,
    count: u64,
    at: usize,
    len: usize,
}

fn pick_range(random: &mut Pcg32) -> Range {
    let first = random.next_word() as usize % UNITS;
    let count = random.next_word() as usize % (UNITS - first + 1);
    Range {
        first: first as u64,
        count: count as u64,
        at: first * UNIT_LEN,
        len: count * UNIT_LEN,
    }
}

// The bytes of a range; all bytes, where it is no range of theirs.
fn part(bytes: &[u8], range: Range) -> &[u8] {
    bytes
        .get(range.at..range.at.saturating_add(range.len))
        .unwrap_or(bytes)
}

fn front(bytes: &[u8], len: usize) -> &[u8] {
    bytes.get(..len).unwrap_or(bytes)
}

fn put(plain: &mut [u8], range: Range, bytes: &[u8]) {
    for i in 0..range.len.min(bytes.len()) {
        let place = range.at.saturating_add(i);
        if place < plain.len() {
            plain[place] = bytes[i];
        }
    }
}

// Bytes of which neighbours, and the same places of two units, mostly differ.
fn fill(random: &mut Pcg32, bytes: &mut [u8]) {
    for byte in bytes {
        *byte = (random.next_word() % 256) as u8;
    }
}

type Disk = Store<MemoryDisk>;

fn writes(random: &mut Pcg32, store: &mut Disk, plain: &mut [u8], range: Range) -> bool {
    let mut bytes = [0; LEN];
    fill(random, &mut bytes);
    let bytes = front(&bytes, range.len);
    put(plain, range, bytes);
    write(store, range.first, bytes) == Ok(())
}

fn zeroes(store: &mut Disk, plain: &mut [u8], range: Range) -> bool {
    put(plain, range, &[0; LEN]);
    zero(store, range.first, range.count) == Ok(())
}

fn reads(store: &mut Disk, plain: &[u8], range: Range) -> bool {
    let mut room = [0xA5; LEN];
    let len = range.len.min(LEN);
    let out = &mut room[..len];
    read(store, range.first, out) == Ok(()) && *out == *part(plain, range)
}

// Compares with the range's own bytes, of which one is another in half of the cases.
fn compares(random: &mut Pcg32, store: &mut Disk, plain: &[u8], range: Range) -> bool {
    let mut bytes = [0; LEN];
    let all = Range { at: 0, ..range };
    put(&mut bytes, all, part(plain, range));
    let place = random.next_word() as usize % LEN;
    let differs = place < range.len && random.next_word() % 2 == 0;
    if differs {
        bytes[place] ^= 1;
    }
    compare(store, range.first, front(&bytes, range.len)) == Ok(!differs)
}

fn step(random: &mut Pcg32, store: &mut Disk, plain: &mut [u8]) -> bool {
    let range = pick_range(random);
    match random.next_word() % 5 {
        0 => zeroes(store, plain, range),
        1 => writes(random, store, plain, range),
        2 => reads(store, plain, range),
        3 => store.sync().is_ok(),
        _ => compares(random, store, plain, range),
    }
}

fn check_script(store: &mut Disk) -> Outcome {
    let mut random = Pcg32::new(SEED, 0);
    let mut plain = [0; LEN];
    for number in 0..STEPS {
        let agrees = step(&mut random, store, &mut plain);
        pass!(check(agrees, "the answer of this call").at_step(number));
    }
    let whole = Range {
        first: 0,
        count: UNITS as u64,
        at: 0,
        len: LEN,
    };
    let is_whole = store.blocks() == UNITS as u64 && reads(store, &plain, whole);
    check(is_whole, "the whole disk at the end")
}

#[test]
fn a_store_is_a_plain_list_of_bytes(rt: HostRuntime) -> Outcome {
    let mut store = Store::new(MemoryDisk::new(rt.alloc(), UNITS as u64)?);
    check_script(&mut store).in_script(SEED, 0)
}
