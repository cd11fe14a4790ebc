//! The reading of a discovery log page.
use host_pages::{Discover, DiscoverFault, Progress};
use std::alloc::Global;
use std::test::Fail;
use testkit_edits::growths::tell;
use testkit_tables::{Outcome, Placed, check};

// What came of an answer, given again where it wanted memory; before that, the same is asked for as before it.
fn give(
    reading: &mut Discover,
    bytes: &[u8],
    refused: &mut u32,
) -> Result<Progress, DiscoverFault> {
    let before = reading.ask();
    let mut told = reading.answer(Ok(bytes));
    if told == Err(DiscoverFault::Memory) {
        *refused = refused.saturating_add(1);
        if reading.ask() != before || reading.page().is_some() {
            return told;
        }
        told = reading.answer(Ok(bytes));
    }
    told
}

// A header of this GENCTR, which counts 33 records.
fn header(genctr: u8) -> [u8; 1024] {
    let mut bytes = [0; 1024];
    bytes[0] = genctr;
    bytes[8] = 33;
    bytes
}

const RECORDS: &[u8; 32_768] = &[1; 32_768];

const LAST: &[u8; 1024] = &[2; 1024];

fn check_asking(reading: &mut Discover, bytes: &[u8], refused: &mut u32) -> Outcome {
    let told = give(reading, bytes, refused);
    check(told == Ok(Progress::Asking), "more is asked for")
}

// The records come in two reads. The first try fails, and the second has the page.
fn is_read(alloc: Global, refused: &mut u32) -> Outcome {
    let mut reading = Discover::new(alloc);
    for (row, bytes) in [
        &header(1)[..],
        RECORDS,
        LAST,
        &header(2),
        &header(2),
        RECORDS,
        LAST,
    ]
    .iter()
    .enumerate()
    {
        check_asking(&mut reading, bytes, refused).in_row(row)?;
    }
    let told = give(&mut reading, &header(2), refused);
    check(told == Ok(Progress::Done), "done")?;
    let page = reading
        .page()
        .map(|page| (page.genctr(), page.record_count()));
    check(page == Some((2, 33)), "the page")
}

#[test]
fn discovery_pages_are_read(rt: HostRuntime) -> Result<(), Fail> {
    let mut refused = 0u32;
    let outcome = is_read(rt.alloc(), &mut refused);
    tell(&rt, refused, outcome)
}
