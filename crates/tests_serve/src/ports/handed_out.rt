//! What ports in memory hand out.
use nvt_ports::{MemoryPorts, PIECE_MAX, PortEvent, PortStep, Ports, SLOTS};
use std::alloc::{AllocError, Global};
use testkit_tables::{Outcome, Placed, check, check_bytes, pass};

// How much room each slot has in a call, what is next, and the bytes that stand in the buffer then.
type Row = (usize, PortEvent, &'static [u8]);

const ROWS: &[Row] = &[
    (9, PortEvent::Open { slot: 0, port: 1 }, b""),
    (3, PortEvent::Bytes { slot: 0, n: 3 }, b"abc"),
    (0, PortEvent::Nothing, b""),
    (9, PortEvent::Bytes { slot: 0, n: 2 }, b"de"),
    // The step is over, which is seen at the next call alone.
    (9, PortEvent::Nothing, b""),
    (9, PortEvent::Line { n: 7 }, b"host ad"),
    (9, PortEvent::Tick { ms: 120_000 }, b""),
    // A slot that is open, one that there is not, and one that is not open.
    (9, PortEvent::Nothing, b""),
    (9, PortEvent::Nothing, b""),
    (9, PortEvent::Nothing, b""),
    (9, PortEvent::Open { slot: 63, port: 2 }, b""),
    (9, PortEvent::End { slot: 0 }, b""),
    (9, PortEvent::Nothing, b""),
];

fn steps(alloc: Global) -> Result<Vec<PortStep>, AllocError> {
    let mut steps = Vec::with_capacity(alloc, 9)?;
    steps.push(PortStep::Open { slot: 0, port: 1 })?;
    steps.push(PortStep::Bytes {
        slot: 0,
        bytes: Vec::from_slice(alloc, b"abcde")?,
    })?;
    steps.push(PortStep::Line {
        bytes: Vec::from_slice(alloc, b"host ad")?,
    })?;
    steps.push(PortStep::Tick { ms: 120_000 })?;
    steps.push(PortStep::Open { slot: 0, port: 1 })?;
    steps.push(PortStep::Open {
        slot: SLOTS,
        port: 1,
    })?;
    steps.push(PortStep::End { slot: 5 })?;
    steps.push(PortStep::Open { slot: 63, port: 2 })?;
    steps.push(PortStep::End { slot: 0 })?;
    Ok(steps)
}

fn check_row(ports: &mut MemoryPorts, buf: &mut [u8; PIECE_MAX], row: &Row) -> Outcome {
    let (room, event, bytes) = row;
    let next = ports.next(&[*room; SLOTS], buf);
    pass!(check(next == *event, "what is next"));
    check_bytes(buf.get(..bytes.len()).unwrap_or(&[]), bytes)
}

#[test]
fn a_script_is_handed_out(rt: HostRuntime) -> Outcome {
    let mut ports = MemoryPorts::new(rt.alloc(), steps(rt.alloc())?)?;
    let mut buf = [0; PIECE_MAX];
    for (number, row) in ROWS.iter().enumerate() {
        pass!(check_row(&mut ports, &mut buf, row).in_row(number));
    }
    Ok(())
}

fn slot_used_again(alloc: Global) -> Result<Vec<PortStep>, AllocError> {
    let mut steps = Vec::with_capacity(alloc, 3)?;
    steps.push(PortStep::Open { slot: 4, port: 1 })?;
    steps.push(PortStep::Bytes {
        slot: 4,
        bytes: Vec::from_slice(alloc, b"late")?,
    })?;
    steps.push(PortStep::Open { slot: 4, port: 9 })?;
    Ok(steps)
}

#[test]
fn a_slot_that_is_closed_is_free_and_its_bytes_are_dropped(rt: HostRuntime) -> Outcome {
    let mut ports = MemoryPorts::new(rt.alloc(), slot_used_again(rt.alloc())?)?;
    let mut buf = [0; PIECE_MAX];
    let room = [PIECE_MAX; SLOTS];
    let opened = ports.next(&room, &mut buf);
    pass!(check(
        opened == PortEvent::Open { slot: 4, port: 1 },
        "the first connection"
    ));
    ports.close(4);
    pass!(check(
        ports.next(&room, &mut buf) == PortEvent::Nothing,
        "bytes of no connection"
    ));
    let opened = ports.next(&room, &mut buf);
    check(
        opened == PortEvent::Open { slot: 4, port: 9 },
        "the slot's next connection",
    )
}
