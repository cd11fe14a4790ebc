//! A plain program of a host's queue of four commands, with at most 8 bytes of data in a capsule. It holds no
//! bytes of data: each has so many.
use host_driver::HostFault;
use nvt_fields::{FatalErrorStatus, Status};
use testkit_host_queues::pdus::Sent;

/// How many commands may be outstanding.
pub const PLACES: usize = 4;

/// As many bytes of data as a capsule may have.
pub const IN_CAPSULE: usize = 8;

/// FLAGS of data: LAST_PDU, and SUCCESS.
pub const LAST: u8 = 4;

pub const SUCCESS: u8 = 8;

/// A command that is outstanding.
#[derive(Clone, Copy)]
pub struct Pending {
    /// The bytes that it sends as they are asked for, and how many were.
    pub out: usize,
    pub asked: usize,
    /// The bytes that it wants, and how many came.
    pub into: usize,
    pub came: usize,
}

#[derive(Clone, Copy, PartialEq, Eq)]
pub enum Phase {
    Opened,
    Initialized,
    Connected,
    Failed,
}

/// What a PDU tells.
#[derive(Clone, Copy, PartialEq, Eq)]
pub enum Tells {
    Nothing,
    Connects(u16),
    /// The command, its status, and how many bytes of data it is answered with.
    Answers(u16, Status, usize),
    Faults(HostFault),
}

/// What is sent at an event: of which type, and how many bytes in all.
#[derive(Clone, Copy, PartialEq, Eq)]
pub struct Bytes {
    pub kind: u8,
    pub len: usize,
}

/// What a PDU leads to.
#[derive(Clone, Copy, PartialEq, Eq)]
pub struct Owed {
    pub tells: Tells,
    pub sends: Option<Bytes>,
}

/// The queue.
#[derive(Clone, Copy)]
pub struct Plain {
    pub phase: Phase,
    // Data begin at a multiple of so many bytes.
    alignment: usize,
    pub commands: [Option<Pending>; PLACES],
}

const CONNECT: Pending = Pending {
    out: 0,
    asked: 0,
    into: 0,
    came: 0,
};

fn telling(tells: Tells) -> Owed {
    Owed { tells, sends: None }
}

/// The status that a status word has.
pub fn status_of(word: u16) -> Status {
    Status {
        sct: ((word / 512) % 8) as u8,
        sc: ((word / 2) % 256) as u8,
        dnr: word / 32_768 == 1,
    }
}

fn is_success(status: Status) -> bool {
    status.sct == 0 && status.sc == 0
}

// The header that goes back of a PDU.
fn header_len(pdu: Sent) -> usize {
    match pdu {
        Sent::IcResp(..) => 128,
        _ => 24,
    }
}

impl Plain {
    /// A queue that has sent its ICReq.
    pub fn new() -> Plain {
        Plain {
            phase: Phase::Opened,
            alignment: 4,
            commands: [Some(CONNECT), None, None, None],
        }
    }

    /// Where data begin behind a header of so many bytes.
    pub fn data_at(&self, header: usize) -> usize {
        header
            .div_ceil(self.alignment.max(1))
            .saturating_mul(self.alignment)
    }

    fn command(&self, cid: u16) -> Option<Pending> {
        self.commands.get(usize::from(cid)).copied().flatten()
    }

    /// Whether it is connected, and no command is outstanding.
    pub fn is_quiet(&self) -> bool {
        self.phase == Phase::Connected && self.commands.iter().all(|place| place.is_none())
    }

    fn set(&mut self, cid: u16, command: Option<Pending>) {
        if let Some(place) = self.commands.get_mut(usize::from(cid)) {
            *place = command;
        }
    }

    fn fault(&mut self, pdu: Sent, fes: FatalErrorStatus, fei: u32) -> Owed {
        self.phase = Phase::Failed;
        Owed {
            tells: Tells::Faults(HostFault::Fault { fes, fei }),
            sends: Some(Bytes {
                kind: 2,
                len: header_len(pdu).saturating_add(24),
            }),
        }
    }

    /// What a PDU leads to.
    pub fn take(&mut self, pdu: Sent) -> Owed {
        if self.phase == Phase::Failed {
            return telling(Tells::Faults(HostFault::Failed));
        }
        match pdu {
            Sent::Termination(fes, fei) => {
                self.phase = Phase::Failed;
                telling(Tells::Faults(HostFault::Term { fes, fei }))
            }
            Sent::IcResp(pfv, cpda, dgst, most) if self.phase == Phase::Opened => {
                self.initialize(pdu, pfv, cpda, dgst, most)
            }
            _ if self.phase == Phase::Opened => {
                self.fault(pdu, FatalErrorStatus::SequenceError, 0)
            }
            Sent::Response(cid, word, value) => self.respond(pdu, cid, status_of(word), value),
            Sent::Data(flags, cid, at, len, carried) => self.data(
                pdu,
                flags,
                cid,
                [at, len, u32::from(carried)],
            ),
            Sent::Request(cid, _, at, len) => self.request(pdu, cid, at as usize, len as usize),
            _ => self.fault(pdu, FatalErrorStatus::SequenceError, 0),
        }
    }

    fn initialize(&mut self, pdu: Sent, pfv: u16, cpda: u8, dgst: u8, most: u32) -> Owed {
        if pfv != 0 {
            return self.fault(pdu, FatalErrorStatus::UnsupportedParameter, 8);
        }
        if cpda > 31 {
            return self.fault(pdu, FatalErrorStatus::InvalidHeaderField, 10);
        }
        if dgst != 0 {
            return self.fault(pdu, FatalErrorStatus::UnsupportedParameter, 11);
        }
        if most < 4096 || most % 4 != 0 {
            return self.fault(pdu, FatalErrorStatus::InvalidHeaderField, 12);
        }
        self.phase = Phase::Initialized;
        self.alignment = usize::from(cpda).saturating_add(1).saturating_mul(4);
        Owed {
            tells: Tells::Nothing,
            sends: Some(Bytes {
                kind: 4,
                len: self.data_at(72).saturating_add(1024),
            }),
        }
    }

    fn respond(&mut self, pdu: Sent, cid: u16, status: Status, value: u64) -> Owed {
        let Some(command) = self.command(cid) else {
            return self.fault(pdu, FatalErrorStatus::InvalidHeaderField, 20);
        };
        if is_success(status) && command.came < command.into {
            return self.fault(pdu, FatalErrorStatus::SequenceError, 0);
        }
        if self.phase == Phase::Connected {
            self.set(cid, None);
            return telling(Tells::Answers(cid, status, command.came));
        }
        if is_success(status) {
            self.set(cid, None);
            self.phase = Phase::Connected;
            return telling(Tells::Connects((value % 65_536) as u16));
        }
        self.phase = Phase::Failed;
        telling(Tells::Faults(HostFault::Refused(status)))
    }

    // Its place, DATAL, and how many bytes there are.
    fn data(&mut self, pdu: Sent, flags: u8, cid: u16, numbers: [u32; 3]) -> Owed {
        let [at, len, carried] = numbers;
        let Some(mut command) = self.command(cid).filter(|command| command.into > 0) else {
            return self.fault(pdu, FatalErrorStatus::InvalidHeaderField, 8);
        };
        if len != carried {
            return self.fault(pdu, FatalErrorStatus::InvalidHeaderField, 16);
        }
        let end = command.came.saturating_add(len as usize);
        if at as usize != command.came || end > command.into {
            return self.fault(pdu, FatalErrorStatus::DataOutOfRange, 0);
        }
        if flags & SUCCESS == 0 {
            command.came = end;
            self.set(cid, Some(command));
            return telling(Tells::Nothing);
        }
        if flags & LAST == 0 {
            return self.fault(pdu, FatalErrorStatus::InvalidHeaderField, 1);
        }
        if end < command.into {
            return self.fault(pdu, FatalErrorStatus::SequenceError, 0);
        }
        self.set(cid, None);
        telling(Tells::Answers(cid, Status::SUCCESS, end))
    }

    fn request(&mut self, pdu: Sent, cid: u16, at: usize, len: usize) -> Owed {
        let Some(mut command) = self.command(cid).filter(|command| command.out > 0) else {
            return self.fault(pdu, FatalErrorStatus::InvalidHeaderField, 8);
        };
        let end = command.asked.saturating_add(len);
        if at != command.asked || end > command.out {
            return self.fault(pdu, FatalErrorStatus::DataOutOfRange, 0);
        }
        command.asked = end;
        self.set(cid, Some(command));
        Owed {
            tells: Tells::Nothing,
            sends: Some(Bytes {
                kind: 6,
                len: self.data_at(24).saturating_add(len),
            }),
        }
    }

    /// What a command with so many bytes to send, that wants so many, is answered, and what it sends.
    pub fn submit(&mut self, out: usize, into: usize) -> (Result<u16, HostFault>, Option<Bytes>) {
        if self.phase == Phase::Failed {
            return (Err(HostFault::Failed), None);
        }
        if self.phase != Phase::Connected {
            return (Err(HostFault::NotConnected), None);
        }
        let Some(cid) = self.commands.iter().position(|place| place.is_none()) else {
            return (Err(HostFault::QueueFull), None);
        };
        let is_asked_for = out > IN_CAPSULE;
        let command = Pending {
            out: if is_asked_for { out } else { 0 },
            asked: 0,
            into,
            came: 0,
        };
        self.set(cid as u16, Some(command));
        let len = if out > 0 && !is_asked_for {
            self.data_at(72).saturating_add(out)
        } else {
            72
        };
        (Ok(cid as u16), Some(Bytes { kind: 4, len }))
    }
}
