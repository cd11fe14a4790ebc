//! A disk in memory, which takes pieces of 128 units as they are first written, beside a plain list of its
//! units; over the ends of pieces, and of the tables that name them.
use super::checked::{make_room, read, write, zero};
use block_store::{MemoryDisk, Store, UNIT_LEN};
use rand_core::utils::NextWord;
use rand_pcg::Pcg32;
use std::alloc::{AllocError, Global};
use testkit_tables::{Outcome, Placed, check, pass};

// The units that are looked at, of three pieces and more.
const UNITS: usize = 400;

const STEPS: usize = 80;

const SEED: u64 = 0x7069_6563;

// Each unit has one byte throughout. Where they begin on the disk.
#[derive(Drop)]
struct Plain {
    first: u64,
    units: [u8; UNITS],
}

// Some of these units: the first, and how many.
#[derive(Clone, Copy)]
struct Range {
    first: usize,
    count: usize,
}

// Every other range begins at a piece, and every third is a piece.
fn pick_range(random: &mut Pcg32) -> Range {
    let mut first = random.next_word() as usize % UNITS;
    if random.next_word() % 2 == 0 {
        first -= first % 128;
    }
    let mut count = random.next_word() as usize % (UNITS - first + 1);
    if random.next_word() % 3 == 0 {
        count = 128.min(UNITS - first);
    }
    Range { first, count }
}

fn part(plain: &Plain, range: Range) -> &[u8] {
    plain
        .units
        .get(range.first..range.first.saturating_add(range.count))
        .unwrap_or(&[])
}

// The bytes of these units.
fn bytes_of(alloc: Global, units: &[u8]) -> Result<Vec<u8>, AllocError> {
    let mut bytes = Vec::new(alloc);
    for unit in units {
        bytes.extend_from_slice(&[*unit; UNIT_LEN])?;
    }
    Ok(bytes)
}

fn put(plain: &mut Plain, range: Range, random: &mut Pcg32, is_zero: bool) {
    for i in 0..range.count {
        let place = range.first.saturating_add(i);
        if place < UNITS {
            plain.units[place] = if is_zero {
                0
            } else {
                (random.next_word() % 256) as u8
            };
        }
    }
}

type Disk = Store<MemoryDisk>;

fn writes(
    alloc: Global,
    random: &mut Pcg32,
    store: &mut Disk,
    plain: &mut Plain,
    range: Range,
) -> Result<bool, AllocError> {
    let at = plain.first.saturating_add(range.first as u64);
    if random.next_word() % 2 == 0 && make_room(store, at, range.count as u64).is_err() {
        return Ok(false);
    }
    put(plain, range, random, false);
    let bytes = bytes_of(alloc, part(plain, range))?;
    Ok(write(store, at, &bytes) == Ok(()))
}

fn zeroes(random: &mut Pcg32, store: &mut Disk, plain: &mut Plain, range: Range) -> bool {
    let at = plain.first.saturating_add(range.first as u64);
    put(plain, range, random, true);
    zero(store, at, range.count as u64) == Ok(())
}

fn reads(alloc: Global, store: &mut Disk, plain: &Plain, range: Range) -> Result<bool, AllocError> {
    let at = plain.first.saturating_add(range.first as u64);
    let wanted = bytes_of(alloc, part(plain, range))?;
    let mut out = vec![in alloc; 0xA5; wanted.len()]?;
    let is_read = read(store, at, &mut out) == Ok(());
    Ok(is_read && out.as_slice() == wanted.as_slice())
}

fn step(
    alloc: Global,
    random: &mut Pcg32,
    store: &mut Disk,
    plain: &mut Plain,
) -> Result<bool, AllocError> {
    let range = pick_range(random);
    match random.next_word() % 3 {
        0 => Ok(zeroes(random, store, plain, range)),
        1 => writes(alloc, random, store, plain, range),
        _ => reads(alloc, store, plain, range),
    }
}

// Random calls over the units from `first` on, which end where the disk does.
fn check_script(alloc: Global, first: u64) -> Outcome {
    let mut random = Pcg32::new(SEED, first);
    let units = first.saturating_add(UNITS as u64);
    let mut store = Store::new(MemoryDisk::new(alloc, units)?);
    let mut plain = Plain {
        first,
        units: [0; UNITS],
    };
    let whole = Range {
        first: 0,
        count: UNITS,
    };
    for number in 0..STEPS {
        let agrees = step(alloc, &mut random, &mut store, &mut plain)?;
        pass!(check(agrees, "the answer of this call").at_step(number));
    }
    let is_whole = reads(alloc, &mut store, &plain, whole)?;
    check(is_whole, "all units at the end")
}

#[test]
fn pieces_are_a_plain_list_of_units(rt: HostRuntime) -> Outcome {
    check_script(rt.alloc(), 0).in_script(SEED, 0)
}

// A table names the pieces of 131,072 units.
#[test]
fn tables_are_a_plain_list_of_units(rt: HostRuntime) -> Outcome {
    check_script(rt.alloc(), 131_072 - 200).in_script(SEED, 1)
}

// Whether each byte of the unit is read to be this one.
fn has(store: &mut Disk, unit: u64, value: u8) -> bool {
    let mut out = [0xA5; UNIT_LEN];
    read(store, unit, &mut out) == Ok(()) && out == [value; UNIT_LEN]
}

#[test]
fn the_last_unit_of_the_largest_disk(rt: HostRuntime) -> Result<(), AllocError> {
    let units = 1 << 31;
    let mut store = Store::new(MemoryDisk::new(rt.alloc(), units)?);
    assert!(rt; store.blocks() == units);
    assert!(rt; has(&mut store, units - 1, 0));
    assert!(rt; write(&mut store, units - 1, &[7; UNIT_LEN]).is_ok());
    assert!(rt; has(&mut store, units - 1, 7));
    assert!(rt; has(&mut store, units - 2, 0));
    assert!(rt; write(&mut store, units, &[7; UNIT_LEN]).is_err());
    Ok(())
}
