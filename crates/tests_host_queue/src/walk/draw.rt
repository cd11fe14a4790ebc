//! PDUs that a controller sends at random: most of them in their place, some not.
use crate::walk::plain::{LAST, PLACES, Pending, Phase, Plain, SUCCESS};
use rand_core::utils::NextWord;
use rand_pcg::Pcg32;
use testkit_host_queues::pdus::Sent;

/// A number below a bound, which is not 0.
pub fn below(random: &mut Pcg32, bound: u32) -> u32 {
    random.next_word() % bound.max(1)
}

/// True once in `n` times.
pub fn rarely(random: &mut Pcg32, n: u32) -> bool {
    below(random, n) == 0
}

// A number, and rarely one that is by one or two higher.
fn about(random: &mut Pcg32, number: usize) -> u32 {
    let more = if rarely(random, 120) {
        below(random, 2).saturating_add(1)
    } else {
        0
    };
    (number.min(4096) as u32).saturating_add(more)
}

fn ic_resp(random: &mut Pcg32) -> Sent {
    Sent::IcResp(
        u16::from(rarely(random, 12)),
        if rarely(random, 12) {
            32
        } else {
            (below(random, 32) % 32) as u8
        },
        u8::from(rarely(random, 12)),
        if rarely(random, 8) {
            4_000u32.saturating_add(below(random, 200))
        } else {
            4_096u32.saturating_add(below(random, 9).saturating_mul(4))
        },
    )
}

// A success, or any other status.
fn status(random: &mut Pcg32) -> u16 {
    if rarely(random, 4) {
        (random.next_word() % 65_536) as u16
    } else {
        0
    }
}

// A command that is outstanding, most of the time.
fn command(random: &mut Pcg32, plain: &Plain) -> (u16, Pending) {
    let first = below(random, PLACES as u32) as usize;
    let none = Pending {
        out: 4,
        asked: 0,
        into: 4,
        came: 0,
    };
    for more in 0..PLACES {
        let cid = (first + more) % PLACES;
        if let Some(pending) = plain.commands.get(cid).copied().flatten() {
            return (cid as u16, pending);
        }
    }
    ((below(random, 6) % 6) as u16, none)
}

fn data(random: &mut Pcg32, cid: u16, pending: Pending) -> Sent {
    let left = pending.into.saturating_sub(pending.came).min(64);
    let is_rest = rarely(random, 2);
    let len = if is_rest {
        left
    } else {
        below(random, 1 + left as u32) as usize
    };
    let flags = match below(random, 60) {
        0 => SUCCESS,
        1..=5 => 0,
        6..=20 => LAST,
        _ if is_rest => LAST + SUCCESS,
        _ => LAST,
    };
    let carried = len.min(64) as u8;
    Sent::Data(
        flags,
        cid,
        about(random, pending.came),
        about(random, len),
        carried,
    )
}

fn request(random: &mut Pcg32, cid: u16, pending: Pending) -> Sent {
    let left = pending.out.saturating_sub(pending.asked).max(1).min(4096);
    let len = (below(random, left as u32) as usize).saturating_add(1);
    Sent::Request(
        cid,
        (below(random, 4) % 4) as u16,
        about(random, pending.asked),
        about(random, len),
    )
}

fn any_cid(random: &mut Pcg32, cid: u16) -> u16 {
    if rarely(random, 32) {
        (below(random, 7) % 7) as u16
    } else {
        cid
    }
}

/// A PDU for a queue that has come so far.
pub fn pdu(random: &mut Pcg32, plain: &Plain) -> Sent {
    let (cid, pending) = command(random, plain);
    let cid = any_cid(random, cid);
    match below(random, 120) {
        0 => Sent::Termination((below(random, 9) % 9) as u16, random.next_word()),
        1 => ic_resp(random),
        _ if plain.phase == Phase::Opened => ic_resp(random),
        2 => Sent::Response(cid, status(random), u64::from(random.next_word())),
        _ if plain.phase == Phase::Initialized => Sent::Response(
            cid,
            0,
            u64::from(random.next_word()),
        ),
        _ if pending.out > pending.asked => request(random, cid, pending),
        _ if pending.into > pending.came => data(random, cid, pending),
        3..=5 => data(random, cid, pending),
        6..=8 => request(random, cid, pending),
        _ => Sent::Response(cid, status(random), u64::from(random.next_word())),
    }
}
