//! In which turn an answer is given, also where there is no room for all bytes at once.
use crate::served::pdus::{ic_resp, property_get, refused_command};
use std::alloc::Global;
use testkit_edits::ic_req;
use testkit_tables::{Outcome, Placed, check, check_bytes, pass};
use testkit_targets::serving::{Rig, Scenario, Step, counted, holds_over};

// In so many turns a host is opened, and is given these bytes.
#[derive(Drop)]
struct Gives<'a> {
    turns: u64,
    bytes: &'a [u8],
}

impl Scenario for Gives<'_> {
    fn holds(&self, rig: &mut Rig) -> Outcome {
        let counts = rig.serve(self.turns);
        pass!(check(counts == counted(self.turns, 1, 0, 0), "what is counted"));
        check_bytes(rig.got(3), self.bytes)
    }
}

// Whether a host that sends this is given that, in so many turns.
fn check_given(alloc: Global, stream: &[u8], turns: u64, bytes: &[u8]) -> Outcome {
    let steps = [
        Step::Open { slot: 3, port: 1 },
        Step::Bytes {
            slot: 3,
            bytes: stream,
        },
    ];
    holds_over(alloc, &steps, &Gives { turns, bytes })
}

#[test]
fn an_answer_is_given_in_the_turn_after_its_bytes(rt: HostRuntime) -> Outcome {
    let request = ic_req(rt.alloc())?;
    pass!(check_given(rt.alloc(), &request, 2, b"").in_row(2));
    check_given(rt.alloc(), &request, 3, &ic_resp()).in_row(3)
}

// With their ICReq they are 36,128 bytes, more than a connection holds.
const COMMANDS: u16 = 500;

#[test]
fn bytes_beyond_the_room_come_later(rt: HostRuntime) -> Outcome {
    let mut stream = ic_req(rt.alloc())?;
    let mut answers = Vec::from_slice(rt.alloc(), &ic_resp())?;
    for cid in 0..COMMANDS {
        stream.extend_from_slice(&property_get(rt.alloc(), cid)?)?;
        answers.extend_from_slice(&refused_command(cid))?;
    }
    // A turn for the host, one for each PDU, and one to give the last answer.
    check_given(rt.alloc(), &stream, u64::from(COMMANDS) + 3, &answers)
}
