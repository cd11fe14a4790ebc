//! How many bytes are read of a host at a time.
ghost use Rattle.std.specs.Prelude.{◌≡◌, ◌≤◌, ◌<◌, false};

/// How many bytes are read of a host at a time: as many as there is room for and its portion has, but for the last byte
/// of the room. So a connection has room for a byte until the target ends it, which is how its end is seen. The last byte
/// is read where it is the only one, and the host was not offered anything that it did not take: then the target goes
/// on with what it holds in the same turn.
pub fn piece_len(room: usize, portion: usize, is_stuck: bool) -> usize
    ensures room { result ≤ room }
    ensures portion { result ≤ portion }
    ensures last { 0 < room → result ≡ room → is_stuck ≡ false }
    ensures some { 1 < room → 0 < portion → 0 < result }
{
    if room == 1 && !is_stuck {
        return 1.min(portion);
    }
    room.saturating_sub(1).min(portion)
}

/// The most bytes of a portion.
pub const PORTION_MAX: usize = 32_768;

const PORTION_MIN: usize = 1_024;

const PORTION_FIRST: usize = 4_096;

// A portion has so many PDUs, if they are as long as those of the one before it.
const PDUS: usize = 64;

const HEADER_LEN: u8 = 8;

// Behind which of its bytes the header of a PDU has its length, which is its end.
const BEFORE_LEN: u8 = 4;

/// How far the stream of a host was read: where in the header of a PDU, with as much of its length as came, or how many
/// bytes of it are still to come.
#[derive(Clone, Copy)]
pub struct StreamWalk {
    pub place: u8,
    pub len: [u8; 4],
    pub left: u32,
}

impl StreamWalk {
    ghost use Rattle.nvt_ports.specs.Portion.{at_first, begun_in, headed, walked};

    /// A PDU begins with the next byte.
    pub fn new() -> StreamWalk
        ensures { result ≡ at_first }
    {
        StreamWalk {
            place: 0,
            len: [0; 4],
            left: 0,
        }
    }

    /// How many PDUs begin in these bytes, which follow those before.
    pub fn read(&mut self, bytes: &[u8]) -> usize
        ensures begun { result ≡ begun_in self.old bytes.now }
        ensures walked { self.new ≡ walked self.old bytes.now }
    {
        let mut begun = 0;
        let mut at = 0;
        while at < bytes.len() {
            if self.left == 0 {
                if self.place == 0 {
                    begun += 1;
                }
                self.read_header(bytes[at]);
                at += 1;
            } else {
                let rest = bytes.len() - at;
                let n = (self.left as usize).min(rest);
                self.left -= n as u32;
                at += n;
            }
        }
        begun
    }

    // A byte of a header.
    fn read_header(&mut self, b: u8)
        ensures { self.new ≡ headed b self.old }
    {
        if self.place >= BEFORE_LEN && self.place < HEADER_LEN {
            self.len[usize::from(self.place - BEFORE_LEN)] = b;
        }
        if self.place < HEADER_LEN - 1 {
            self.place += 1;
            return;
        }
        self.place = 0;
        self.left = u32::from_le_bytes(self.len).saturating_sub(u32::from(HEADER_LEN));
    }
}

/// How many bytes are read of a host at a time, so that what one sends in many small PDUs leaves time for others: some
/// 64 PDUs, if those to come are as long as those that came.
#[derive(Clone, Copy)]
pub struct Portion {
    pub most: usize,
    ghost within: { 1024 ≤ most × most ≤ 32768 },
}

impl Portion {
    ghost use Rattle.nvt_ports.specs.Portion.{most_after};

    /// The first one.
    pub fn new() -> Portion
        ensures { result.most ≡ 4096 }
    {
        Portion {
            most: PORTION_FIRST,
        }
    }

    /// So many bytes were read, in which so many PDUs began. The next portion is at most twice as long.
    pub fn read(&mut self, len: usize, pdus: usize)
        requires { len ≤ 32768 }
        ensures { self.new.most ≡ most_after len pdus self.old.most }
    {
        let wanted = match (len * PDUS).checked_div(pdus) {
            Some(wanted) => wanted,
            None => PORTION_MAX,
        };
        let most = wanted.min(self.most * 2).min(PORTION_MAX);
        self.most = most.max(PORTION_MIN);
    }
}
