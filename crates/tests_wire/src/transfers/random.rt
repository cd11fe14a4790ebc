//! Random calls on transfers and on a plain list of them.
use super::plain::{self, Pdu, Plain};
use data_transfer::Transfers;
use rand_core::utils::NextWord;
use rand_pcg::Pcg32;
use std::alloc::{AllocError, Global};

const SEED: u64 = 0x7861_6665;

const RUNS: u64 = 6;

const STEPS: u32 = 3_000;

// The connections that are used, the first and the last among them.
const CONNS: [usize; 3] = [0, 5, 63];

// Bytes of which neighbours differ.
const BYTES: &[u8] =
    b"The quick brown fox jumps over the lazy dog; pack my box with five dozen jugs.";

fn below(random: &mut Pcg32, bound: u16) -> u16 {
    (random.next_word() % u32::from(bound.max(1))) as u16
}

fn pick_conn(random: &mut Pcg32) -> usize {
    CONNS[usize::from(below(random, 3)) % 3]
}

fn begins(
    alloc: Global,
    random: &mut Pcg32,
    transfers: &mut Transfers<u32>,
    list: &mut Vec<Plain>,
) -> Result<bool, AllocError> {
    let conn = pick_conn(random);
    let cid = below(random, 100);
    let asked = u32::from(below(random, 60));
    if conn >= 64 || transfers.count(conn) >= 63 {
        return Ok(plain::count(list, conn) >= 63);
    }
    let least = plain::least_tag(list, conn);
    let ttag = transfers.begin(conn, cid, plain::command_of(cid), asked)?;
    plain::begin(alloc, list, (conn, least), cid, asked)?;
    Ok(ttag == least)
}

// An H2CData that is right for a transfer of the list; one of nothing, where there is none.
fn right_pdu(random: &mut Pcg32, list: &[Plain]) -> Pdu<'static> {
    let number = random.next_word() as usize % list.len().max(1);
    let first = usize::from(below(random, 20));
    match list.get(number) {
        Some(plain) => {
            let left = plain.asked.saturating_sub(plain.bytes.len());
            let len = usize::from(below(random, 24)).min(left);
            let bytes = BYTES.get(first..first + len).unwrap_or(b"");
            Pdu {
                conn: plain.conn,
                ttag: plain.ttag,
                cid: plain.cid,
                offset: plain::length(&plain.bytes),
                datal: plain::length(bytes),
                bytes,
            }
        }
        None => Pdu {
            conn: 0,
            ttag: 0,
            cid: 0,
            offset: 0,
            datal: 0,
            bytes: b"",
        },
    }
}

// One field is another.
fn spoil(random: &mut Pcg32, pdu: Pdu<'static>) -> Pdu<'static> {
    let other = below(random, 70);
    match below(random, 6) {
        0 => Pdu { ttag: other, ..pdu },
        1 => Pdu { cid: other, ..pdu },
        2 => Pdu {
            datal: u32::from(other),
            ..pdu
        },
        3 => Pdu {
            offset: u32::from(other),
            ..pdu
        },
        4 => Pdu {
            datal: plain::length(BYTES),
            bytes: BYTES,
            ..pdu
        },
        _ => Pdu {
            conn: usize::from(other),
            ..pdu
        },
    }
}

// An H2CData that is right, or has one or two fields that may not be.
fn pick_pdu(random: &mut Pcg32, list: &[Plain]) -> Pdu<'static> {
    let mut pdu = right_pdu(random, list);
    for _ in 0..below(random, 8).saturating_sub(5) {
        pdu = spoil(random, pdu);
    }
    pdu
}

fn takes(
    random: &mut Pcg32,
    transfers: &mut Transfers<u32>,
    list: &mut Vec<Plain>,
) -> Result<bool, AllocError> {
    let pdu = pick_pdu(random, list);
    let checked = transfers.check(
        pdu.conn, pdu.ttag, pdu.cid, pdu.offset, pdu.datal, pdu.bytes,
    );
    let answer = transfers.data(
        pdu.conn, pdu.ttag, pdu.cid, pdu.offset, pdu.datal, pdu.bytes,
    );
    let expected = plain::data(list, pdu)?;
    Ok(answer == expected && checked == expected)
}

fn finishes(transfers: &mut Transfers<u32>, list: &mut Vec<Plain>, conn: usize, ttag: u16) -> bool {
    match (
        transfers.finish(conn, ttag),
        plain::finish(list, conn, ttag),
    ) {
        (Some(whole), Some(plain)) => {
            (whole.cid, whole.command) == (plain.cid, plain.command)
                && whole.data.as_slice() == plain.bytes.as_slice()
        }
        (None, None) => true,
        _ => false,
    }
}

fn looks_alike(random: &mut Pcg32, transfers: &Transfers<u32>, list: &[Plain]) -> bool {
    let conn = pick_conn(random);
    let ttag = below(random, 64);
    let cid = below(random, 100);
    let there = plain::place_of(list, conn, ttag).and_then(|place| list.get(place));
    conn < 64
        && transfers.count(conn) == plain::count(list, conn)
        && transfers.has_command(conn, cid) == plain::has_command(list, conn, cid)
        && transfers.command(conn, ttag).copied() == there.map(|plain| plain.command)
}

fn drops(random: &mut Pcg32, transfers: &mut Transfers<u32>, list: &mut Vec<Plain>) -> bool {
    let conn = pick_conn(random);
    transfers.drop_queue(conn);
    plain::drop_queue(list, conn);
    true
}

// Whether one random call on both is answered alike.
fn step(
    alloc: Global,
    random: &mut Pcg32,
    transfers: &mut Transfers<u32>,
    list: &mut Vec<Plain>,
) -> Result<bool, AllocError> {
    Ok(match below(random, 200) {
        0 => drops(random, transfers, list),
        1..=60 => begins(alloc, random, transfers, list)?,
        61..=90 => {
            let conn = pick_conn(random);
            finishes(transfers, list, conn, below(random, 64))
        }
        91..=100 => looks_alike(random, transfers, list),
        _ => takes(random, transfers, list)?,
    })
}

// What a run came to: the first step that was answered otherwise, and the most transfers that one
// connection had.
fn goes_on(
    alloc: Global,
    run: u64,
    transfers: &mut Transfers<u32>,
    list: &mut Vec<Plain>,
) -> Result<(Option<u32>, usize), AllocError> {
    let mut random = Pcg32::new(SEED, run);
    let mut most = 0;
    for number in 0..STEPS {
        if !step(alloc, &mut random, transfers, list)? {
            return Ok((Some(number), most));
        }
        most = most.max(plain::count(list, 5));
    }
    Ok((None, most))
}

fn run_of(alloc: Global, run: u64) -> Result<(Option<u32>, usize), AllocError> {
    let mut transfers = Transfers::new(alloc)?;
    let mut list = Vec::new(alloc);
    goes_on(alloc, run, &mut transfers, &mut list)
}

// In some run a connection has all 63 transfers.
#[test]
fn transfers_are_a_plain_list(rt: HostRuntime) -> Result<(), AllocError> {
    let mut most = 0;
    for run in 0..RUNS {
        let (wrong_step, count) = run_of(rt.alloc(), run)?;
        assert_eq!(rt; wrong_step, None, "seed {SEED}, run {run}");
        most = most.max(count);
    }
    assert_eq!(rt; most, 63);
    Ok(())
}
