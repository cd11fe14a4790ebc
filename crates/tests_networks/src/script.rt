//! What hosts send, and what they are owed.
use crate::owed::{EDITS, owed_for};
use crate::pdus::{connect, enable, keep_alive, log_page};
use std::alloc::{AllocError, Global};
use testkit_edits::ic_req;

/// So many bytes that are sent, and as many as are owed for them.
#[derive(Clone, Copy)]
pub struct Span {
    pub sent: usize,
    pub owed: usize,
}

/// What a host sends, and what it is owed for it: an opening, and commands that are all as long.
#[derive(Drop)]
pub struct Script {
    pub sends: Vec<u8>,
    pub owed: Vec<u8>,
    pub opening: Span,
    pub command: Span,
    /// Whether the commands begin again behind the last one.
    pub repeats: bool,
    /// The places of the identifier of the controller, which depends on who else connected.
    pub free: (usize, usize),
}

const CAPSULE: usize = 72;

const RESPONSE: usize = 24;

const ICS: Span = Span {
    sent: 128,
    owed: 128,
};

// An ICReq, a Connect and a Property Set.
const CONNECTED: Span = Span {
    sent: 128 + CAPSULE + 1_024 + CAPSULE,
    owed: 128 + RESPONSE + RESPONSE,
};

/// As many commands as a queue has entries, so that its head is where it was.
pub const QUEUE: u16 = 64;

impl Script {
    /// Whether it connects to a controller.
    pub fn connects(&self) -> bool {
        self.opening.owed > ICS.owed
    }

    /// Nothing.
    pub fn mute(alloc: Global) -> Script {
        Script {
            sends: Vec::new(alloc),
            owed: Vec::new(alloc),
            opening: Span { sent: 0, owed: 0 },
            command: Span { sent: 0, owed: 0 },
            repeats: false,
            free: (0, 0),
        }
    }
}

fn opened(alloc: Global) -> Result<Vec<u8>, AllocError> {
    let mut sends = ic_req(alloc)?;
    sends.extend_from_slice(&connect(alloc)?)?;
    sends.extend_from_slice(&enable(alloc)?)?;
    Ok(sends)
}

/// Keep Alives before a Connect.
pub fn unconnected(alloc: Global, count: u16, repeats: bool) -> Result<Script, AllocError> {
    let mut sends = ic_req(alloc)?;
    for cid in 0..count {
        sends.extend_from_slice(&keep_alive(alloc, cid)?)?;
    }
    let owed = owed_for(alloc, &sends, u64::from(count))?;
    Ok(Script {
        sends,
        owed,
        opening: ICS,
        command: Span {
            sent: CAPSULE,
            owed: RESPONSE,
        },
        repeats,
        free: (0, 0),
    })
}

/// A Connect, and Keep Alives, which begin again.
pub fn connected(alloc: Global) -> Result<Script, AllocError> {
    let mut sends = opened(alloc)?;
    for cid in 0..QUEUE {
        sends.extend_from_slice(&keep_alive(alloc, cid)?)?;
    }
    let owed = owed_for(alloc, &sends, u64::from(QUEUE))?;
    Ok(Script {
        sends,
        owed,
        opening: CONNECTED,
        command: Span {
            sent: CAPSULE,
            owed: RESPONSE,
        },
        repeats: true,
        free: (136, 138),
    })
}

/// A Connect, and reads of so many bytes of the discovery log page each.
pub fn pages(alloc: Global, count: u16, len: u32) -> Result<Script, AllocError> {
    let mut sends = opened(alloc)?;
    for cid in 0..count {
        sends.extend_from_slice(&log_page(alloc, cid, len)?)?;
    }
    let owed = owed_for(alloc, &sends, u64::from(count))?;
    Ok(Script {
        sends,
        owed,
        opening: CONNECTED,
        command: Span {
            sent: CAPSULE,
            owed: RESPONSE,
        },
        repeats: false,
        free: (136, 138),
    })
}

/// A line of an edit, which is made again and again, and its reply.
pub fn lines(alloc: Global) -> Result<Script, AllocError> {
    let line = b"subsys set nqn.2026-01.test:a open\n";
    Ok(Script {
        sends: Vec::from_slice(alloc, line)?,
        owed: Vec::from_slice(alloc, b"ok\n")?,
        opening: Span { sent: 0, owed: 0 },
        command: Span { sent: 35, owed: 3 },
        repeats: true,
        free: (0, 0),
    })
}

// The lines of 12 hosts, each name as long as may be: more than one piece has room for.
fn host_lines(alloc: Global) -> Result<Vec<u8>, AllocError> {
    let mut lines = Vec::new(alloc);
    for letter in *b"abcdefghijkl" {
        lines.extend_from_slice(b"host add nqn.")?;
        lines.extend_from_slice(&[letter; 219])?;
        lines.push(b'\n')?;
    }
    Ok(lines)
}

/// The edits of a target of which much is shown.
pub fn much(alloc: Global) -> Result<Vec<u8>, AllocError> {
    let mut edits = Vec::from_slice(alloc, EDITS)?;
    edits.extend_from_slice(&host_lines(alloc)?)?;
    Ok(edits)
}

// The first lines that are shown of it: the lines of EDITS, in their order.
const SHOWN: &[u8] = b"subsys add nqn.2026-01.test:a SN-A open
ns add nqn.2026-01.test:a 1 0 512 512 0b5cfe8e-55b0-4f1c-9a3e-2f1d4a6b7c80 1
port add 1 ipv4 127.0.0.1 4420
link add 1 nqn.2026-01.test:a
";

/// A line that asks for the configuration, again and again, and what is shown of much.
pub fn shows(alloc: Global) -> Result<Script, AllocError> {
    let mut owed = Vec::from_slice(alloc, SHOWN)?;
    owed.extend_from_slice(&host_lines(alloc)?)?;
    owed.extend_from_slice(b"ok\n")?;
    let command = Span {
        sent: 5,
        owed: owed.len(),
    };
    Ok(Script {
        sends: Vec::from_slice(alloc, b"show\n")?,
        owed,
        opening: Span { sent: 0, owed: 0 },
        command,
        repeats: true,
        free: (0, 0),
    })
}
