//! Whether what a target sent to a host shows that a Connect succeeded.
ghost use Rattle.std.specs.Prelude.{◌≡◌, ◌↔◌, ◌<◌, ℕ, List, [], ◌++◌, IsTrue, true};
ghost use Rattle.nvt_ports.specs.Connects.{ShowsConnect, is_success, plen_of};
ghost use Rattle.nvt_ports.specs.Watching.{HasSeen, watched, with_byte};

// The length of a common header.
const HEADER_LEN: u32 = 8;

// The length of a CapsuleResp.
const RESPONSE_LEN: usize = 24;

const CAPSULE_RESP: u8 = 0x05;

/// Reads the bytes that a target sends on a connection, in any pieces, until they show that a Connect succeeded.
#[derive(Clone, Copy)]
pub struct ConnectWatch {
    // The first bytes of the PDU under way.
    front: [u8; 24],
    // How many of its bytes came.
    place: u32,
    is_connected: bool,
}

impl ConnectWatch {
    /// Before the first byte.
    pub fn new() -> ConnectWatch
        ensures { HasSeen result [] }
    {
        ConnectWatch {
            front: [0; RESPONSE_LEN],
            place: 0,
            is_connected: false,
        }
    }

    /// Whether the bytes so far show that a Connect succeeded.
    pub fn is_connected(&self) -> bool
        ensures told { result ≡ self.now.is_connected }
        ensures seen { (given : List ℕ) → HasSeen self.now given → (IsTrue result ↔ ShowsConnect given) }
    {
        self.is_connected
    }

    /// These bytes were taken to be sent, behind those before. Once a Connect succeeded it looks at none.
    pub fn given(&mut self, bytes: &[u8])
        ensures seen { (before : List ℕ) → HasSeen self.old before → HasSeen self.new (before ++ bytes.now) }
        ensures stays { self.old.is_connected ≡ true → self.new ≡ self.old }
    {
        for b in bytes {
            if self.is_connected {
                return;
            }
            self.take(*b);
        }
    }

    // A byte more.
    fn take(&mut self, b: u8)
        ensures { self.new ≡ watched (with_byte b self.old) }
    {
        let place = self.place as usize;
        if place < RESPONSE_LEN {
            self.front[place] = b;
        }
        self.place = self.place.saturating_add(1);
        if self.place >= HEADER_LEN && self.place == plen_of(&self.front) {
            self.is_connected = is_success(&self.front);
            self.place = 0;
        }
    }
}

// The length of a whole PDU that begins like that.
fn plen_of(front: &[u8; 24]) -> u32
    ensures { result ≡ plen_of front.now }
{
    u32::from(front[4])
        + 256 * u32::from(front[5])
        + 65_536 * u32::from(front[6])
        + 16_777_216 * u32::from(front[7])
}

// Whether that is a CapsuleResp that says success.
fn is_success(front: &[u8; 24]) -> bool
    ensures { result ≡ is_success front.now }
{
    plen_of(front) == RESPONSE_LEN as u32
        && front[0] == CAPSULE_RESP
        && front[22] == 0
        && front[23] == 0
}
