//! Transfers: each takes its memory when it begins, and then no more.
use data_transfer::{Progress, Transfers};
use std::alloc::{AllocError, Global};
use std::test::Fail;
use testkit_edits::again;
use testkit_edits::growths::{tell, used};
use testkit_tables::{Outcome, check};

const CONN: usize = 5;

// Begins a transfer of four bytes; whether it gets that tag, or, where memory is wanted, there are as
// many transfers as before.
fn is_begun(transfers: &mut Transfers<u8>, cid: u16, ttag: u16) -> Result<bool, AllocError> {
    let before = transfers.count(CONN);
    if before >= 63 {
        return Ok(false);
    }
    let begun = transfers.begin(CONN, cid, b'c', 4);
    if begun.is_err() && (transfers.count(CONN) != before || transfers.has_command(CONN, cid)) {
        return Ok(false);
    }
    Ok(begun? == ttag)
}

fn comes(transfers: &mut Transfers<u8>, ttag: u16, cid: u16, offset: u32, bytes: &[u8]) -> bool {
    let datal = u32::try_from(bytes.len()).unwrap_or(0);
    let answer = transfers.data(CONN, ttag, cid, offset, datal, bytes);
    let is_last = offset as usize + bytes.len() == 4;
    answer
        == Ok(if is_last {
            Progress::Whole
        } else {
            Progress::More
        })
}

fn is_finished(transfers: &mut Transfers<u8>, ttag: u16, cid: u16, bytes: &[u8]) -> bool {
    match transfers.finish(CONN, ttag) {
        Some(whole) => {
            (whole.cid, whole.command) == (cid, b'c') && whole.data.as_slice() == bytes
        }
        None => false,
    }
}

// Begins a transfer, again where memory is wanted.
fn begin(transfers: &mut Transfers<u8>, cid: u16, ttag: u16, refused: &mut u32) -> bool {
    again!(*refused, AllocError, is_begun(transfers, cid, ttag)) == Ok(true)
}

// The first transfer makes the table of its connection too. The second is refused between two
// pieces of the first.
fn check_use(transfers: &mut Transfers<u8>, refused: &mut u32) -> Outcome {
    check(begin(transfers, 7, 0, refused), "the first transfer")?;
    check(comes(transfers, 0, 7, 0, b"ab"), "a piece of it")?;
    check(begin(transfers, 8, 1, refused), "the second")?;
    check(comes(transfers, 0, 7, 2, b"cd"), "the rest of the first")?;
    check(comes(transfers, 1, 8, 0, b"efgh"), "the second, whole")?;
    check(is_finished(transfers, 0, 7, b"abcd"), "the first has all")?;
    check(begin(transfers, 9, 0, refused), "the third, under its tag")?;
    check(is_finished(transfers, 1, 8, b"efgh"), "the second has all")?;
    transfers.drop_queue(CONN);
    check(begin(transfers, 9, 0, refused), "one more after the end")
}

fn use_new(alloc: Global, refused: &mut u32) -> Result<Outcome, AllocError> {
    let mut transfers = Transfers::new(alloc)?;
    Ok(check_use(&mut transfers, refused))
}

#[test]
fn transfers(rt: HostRuntime) -> Result<(), Fail> {
    let mut refused = 0u32;
    let mut inner = 0u32;
    let answer = again!(refused, AllocError, use_new(rt.alloc(), &mut inner));
    tell(&rt, refused.saturating_add(inner), used(answer))
}
