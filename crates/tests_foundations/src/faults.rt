//! Each call of a disk failing in turn, under each call of a store. And a disk for which no memory is.
use super::checked::{Fault, compare, read, write, zero};
use block_store::{FailingDisk, MemoryDisk, Store, UNIT_LEN};
use std::alloc::{AllocError, Global};
use testkit_tables::{Outcome, Placed, check_steps, pass};

const UNITS: usize = 5;

const LEN: usize = UNITS * UNIT_LEN;

const RANGE_LEN: usize = 3 * UNIT_LEN;

// The bytes that the units have at first, one for each unit.
const BEFORE: [u8; UNITS] = [1, 2, 3, 4, 5];

// What is written to units 1 to 3, a byte for each.
const WRITTEN: [u8; 3] = [7, 8, 9];

#[derive(Clone, Copy)]
enum Call {
    Read,
    Write,
    Zero,
    // With the bytes that the units have.
    Compare,
    // With bytes that differ from the first unit on.
    CompareOther,
    Sync,
}

// How many calls of the disk pass before the one that fails; what the units have after the fault, and
// after the same call was made again; and what that call answers.
type Row = (Call, u64, [u8; UNITS], [u8; UNITS], bool);

const ROWS: &[Row] = &[
    (Call::Read, 0, BEFORE, BEFORE, true),
    (Call::Read, 1, BEFORE, BEFORE, true),
    (Call::Read, 2, BEFORE, BEFORE, true),
    (Call::Compare, 0, BEFORE, BEFORE, true),
    (Call::Compare, 1, BEFORE, BEFORE, true),
    (Call::Compare, 2, BEFORE, BEFORE, true),
    (Call::CompareOther, 0, BEFORE, BEFORE, false),
    (Call::CompareOther, 2, BEFORE, BEFORE, false),
    (Call::Write, 0, BEFORE, [1, 7, 8, 9, 5], true),
    (Call::Write, 1, [1, 7, 3, 4, 5], [1, 7, 8, 9, 5], true),
    (Call::Write, 2, [1, 7, 8, 4, 5], [1, 7, 8, 9, 5], true),
    (Call::Zero, 0, BEFORE, [1, 0, 0, 0, 5], true),
    (Call::Zero, 1, [1, 0, 3, 4, 5], [1, 0, 0, 0, 5], true),
    (Call::Zero, 2, [1, 0, 0, 4, 5], [1, 0, 0, 0, 5], true),
    (Call::Sync, 0, BEFORE, BEFORE, true),
];

type Disk = Store<FailingDisk<MemoryDisk>>;

// Units of which each has one byte throughout.
fn fill(units: &mut [u8], values: &[u8]) {
    for (unit, value) in units.chunks_exact_mut(UNIT_LEN).zip(values) {
        unit.fill(*value);
    }
}

fn has(store: &mut Disk, values: &[u8]) -> bool {
    let mut out = [0; LEN];
    let mut wanted = [0; LEN];
    fill(&mut wanted, values);
    read(store, 0, &mut out) == Ok(()) && out == wanted
}

// Three units of these bytes.
fn range(values: &[u8]) -> [u8; RANGE_LEN] {
    let mut bytes = [0; RANGE_LEN];
    fill(&mut bytes, values);
    bytes
}

fn reads(store: &mut Disk) -> Result<bool, Fault> {
    let mut out = [0; RANGE_LEN];
    read(store, 1, &mut out)?;
    Ok(out == range(&BEFORE[1..4]))
}

fn act(store: &mut Disk, call: Call) -> Result<bool, Fault> {
    match call {
        Call::Read => reads(store),
        Call::Write => write(store, 1, &range(&WRITTEN)).map(|_| true),
        Call::Zero => zero(store, 1, 3).map(|_| true),
        Call::Compare => compare(store, 1, &range(&BEFORE[1..4])),
        Call::CompareOther => compare(store, 1, &range(&WRITTEN)),
        Call::Sync => match store.sync() {
            Ok(()) => Ok(true),
            Err(fault) => Err(Fault::from(fault)),
        },
    }
}

// The row's call fails, and succeeds when it is made again.
fn check_once(store: &mut Disk, row: &Row) -> Outcome {
    let (call, _, torn, after, again) = row;
    let mut bytes = [0; LEN];
    fill(&mut bytes, &BEFORE);
    let steps = [
        write(store, 0, &bytes) == Ok(()),
        act(store, *call) == Err(Fault::Disk),
        has(store, torn),
        act(store, *call) == Ok(*again),
        has(store, after),
    ];
    check_steps(
        &steps,
        "the first write, the fault, the units then, the answer, the units then",
    )
}

// A disk of which the call fails that comes when so many have passed after the first write.
fn start(alloc: Global, passes: u64) -> Result<Disk, AllocError> {
    let disk = MemoryDisk::new(alloc, UNITS as u64)?;
    let passes = passes.saturating_add(UNITS as u64);
    Ok(Store::new(FailingDisk::new(disk, passes)))
}

fn check_row(alloc: Global, row: &Row) -> Outcome {
    let mut store = start(alloc, row.1)?;
    check_once(&mut store, row)
}

#[test]
fn each_call_fails_at_each_unit(rt: HostRuntime) -> Outcome {
    for (number, row) in ROWS.iter().enumerate() {
        pass!(check_row(rt.alloc(), row).in_row(number));
    }
    Ok(())
}

// More units than any memory has.
#[test]
fn more_units_than_there_is_memory(rt: HostRuntime) {
    assert!(rt; MemoryDisk::new(rt.alloc(), 1 << 60).is_err());
}
