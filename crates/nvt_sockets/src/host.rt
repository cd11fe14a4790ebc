//! The host of a slot: its socket, and what it is to be sent.
ghost use Rattle.std.specs.Prelude.{◌≤◌, ◌<◌, ◌≡◌, ◌≢◌, IfOk, length, min, true};
ghost use Rattle.nvt_sockets.specs.HandsOut.{FitsPiece};

use crate::network::{Network, Received};
use nvt_ports::{
    ConnectWatch, GivenUp, Outbox, PortFault, Portion, Sending, StreamWalk, Taking, Tenure,
    TenureStanding, piece_len,
};
use std::alloc::{AllocError, Global};
use std::mem;

/// How far a host is.
#[derive(Drop)]
enum Peer<S> {
    /// There is none.
    Absent,
    /// It may send bytes, and is sent some.
    Open(S),
    /// It sends no more, and may read what it is sent.
    Ended(S),
    /// Nothing goes to it or comes from it any more.
    Reset,
}

/// What came of a call for a host.
#[derive(Clone, Copy)]
pub struct SentBytes {
    /// What became of the bytes that waited.
    pub sending: Sending,
    /// How many were taken since the call before.
    pub taken: usize,
    /// Whether its socket took some in this call.
    pub is_moving: bool,
}

/// A host, or none, with the bytes that were taken for it.
#[derive(Drop)]
pub struct HostSocket<S> {
    peer: Peer<S>,
    walk: StreamWalk,
    portion: Portion,
    outbox: Outbox,
    // Whether not all was taken that was offered last.
    is_stuck: bool,
    connects: ConnectWatch,
    tenure: Tenure,
}

impl<S: Drop> HostSocket<S> {
    ghost use Rattle.nvt_sockets.specs.Host.{has_socket};
    ghost use Rattle.nvt_ports.specs.Kept.{room_of};
    ghost use Rattle.nvt_ports.specs.Outbox.{standing_of};
    ghost use Rattle.nvt_ports.specs.Sending.{Decides};

    /// None yet.
    pub fn new(alloc: Global) -> Result<HostSocket<S>, AllocError> {
        Ok(HostSocket {
            peer: Peer::Absent,
            walk: StreamWalk::new(),
            portion: Portion::new(),
            outbox: Outbox::new(alloc)?,
            is_stuck: false,
            connects: ConnectWatch::new(),
            tenure: Tenure::new(),
        })
    }

    /// One that has connected.
    pub fn open(&mut self, stream: S) {
        self.forget();
        self.peer = Peer::Open(stream);
    }

    /// Closes its socket, and forgets what is kept.
    pub fn forget(&mut self) {
        self.peer = Peer::Absent;
        self.walk = StreamWalk::new();
        self.portion = Portion::new();
        self.outbox.clear();
        self.is_stuck = false;
        self.connects = ConnectWatch::new();
        self.tenure = Tenure::new();
    }

    pub fn is_absent(&self) -> bool {
        matches!(self.peer, Peer::Absent)
    }

    /// Whether it is there, and may read what it is sent.
    pub fn has_socket(&self) -> bool
        ensures { result ≡ has_socket self.now.peer }
    {
        matches!(self.peer, Peer::Open(_) | Peer::Ended(_))
    }

    /// Whether something is kept for it.
    pub fn keeps(&self) -> bool {
        !self.outbox.is_empty()
    }

    /// Whether it sends no more.
    pub fn is_ended(&self) -> bool {
        matches!(self.peer, Peer::Ended(_))
    }

    /// Reads some of what it sent, where there is so much room for it.
    pub fn read<N: Network<Stream = S>>(
        &mut self,
        network: &mut N,
        room: usize,
        buf: &mut [u8],
    ) -> Received
        ensures room { FitsPiece room result }
        ensures buf { FitsPiece (length buf.old) result }
    {
        let most = piece_len(room, self.portion.most, self.is_stuck).min(buf.len());
        let received = self.receive(network, &mut buf[..most]);
        if let Received::Bytes(n) = received {
            let pdus = self.walk.read(&buf[..n]);
            self.portion.read(n, pdus);
        }
        received
    }

    /// Reads what it sent. Its end is told once, that it was reset each time.
    pub fn receive<N: Network<Stream = S>>(&mut self, network: &mut N, piece: &mut [u8]) -> Received
        ensures { FitsPiece (length piece.new) result }
    {
        let received = match &self.peer {
            Peer::Open(stream) => network.read(stream, piece),
            Peer::Reset => Received::Reset,
            Peer::Absent | Peer::Ended(_) => Received::Nothing,
        };
        match received {
            Received::End => self.end(),
            Received::Reset | Received::Gone => self.reset(),
            Received::Nothing | Received::Bytes(_) => {}
        }
        received
    }

    fn end(&mut self) {
        self.peer = match mem::replace(&mut self.peer, Peer::Reset) {
            Peer::Open(stream) => Peer::Ended(stream),
            other => other,
        };
    }

    fn reset(&mut self) {
        self.peer = Peer::Reset;
        self.outbox.clear();
    }

    /// Takes the first of these bytes, and answers how many: they are kept, or sent where they are many and nothing is
    /// kept. Fails where it was reset.
    pub fn give<N: Network<Stream = S>>(
        &mut self,
        network: &mut N,
        bytes: &[u8],
    ) -> Result<usize, PortFault>
        ensures within { IfOk result (λ n. n ≤ length bytes.now) }
        ensures kept { has_socket self.old.peer ≡ true → 0 < length bytes.now → length bytes.now < 65536
            → result ≡ Ok (min (length bytes.now) (room_of self.old.outbox.kept)) }
    {
        match &self.peer {
            Peer::Absent => return Ok(0),
            Peer::Reset => return Err(PortFault),
            Peer::Open(_) | Peer::Ended(_) => {}
        }
        let waited = self.waits();
        let taken = self.take(network, bytes)?;
        self.is_stuck = taken < bytes.len();
        self.connects.given(&bytes[..taken]);
        if !waited && self.waits() {
            self.tenure.moved();
        }
        Ok(taken)
    }

    // Whether bytes wait that its socket did not take.
    fn waits(&self) -> bool {
        self.is_stuck || self.keeps()
    }

    fn take<N: Network<Stream = S>>(
        &mut self,
        network: &mut N,
        bytes: &[u8],
    ) -> Result<usize, PortFault>
        ensures within { IfOk result (λ n. n ≤ length bytes.now) }
        ensures kept { 0 < length bytes.now → length bytes.now < 65536
            → result ≡ Ok (min (length bytes.now) (room_of self.old.outbox.kept)) }
    {
        match self.outbox.taking(bytes.len()) {
            Taking::Nothing => Ok(0),
            Taking::Kept => Ok(self.outbox.keep(bytes)),
            Taking::Directly => {
                let sent = self.write(network, bytes);
                if let Ok(n) = sent {
                    self.outbox.sent_directly(n);
                }
                sent
            }
        }
    }

    // Writes as many of the first bytes as go at once.
    fn write<N: Network<Stream = S>>(
        &mut self,
        network: &mut N,
        bytes: &[u8],
    ) -> Result<usize, PortFault>
        ensures { IfOk result (λ n. n ≤ length bytes.now) }
    {
        let written = match &self.peer {
            Peer::Open(stream) | Peer::Ended(stream) => network.write(stream, bytes),
            Peer::Absent | Peer::Reset => Err(PortFault),
        };
        match written {
            Ok(0) => {}
            Ok(_) => self.tenure.moved(),
            Err(PortFault) => self.reset(),
        }
        written
    }

    /// A call begins: what is kept is sent, is joined with more, or waits.
    pub fn call<N: Network<Stream = S>>(&mut self, network: &mut N, is_answered: bool) -> SentBytes
        ensures sending { Decides result.sending (standing_of is_answered self.old.outbox) }
        ensures taken { result.taken ≡ self.old.outbox.taken }
        ensures stays { result.sending ≢ Sending.Now → self.new.outbox.kept ≡ self.old.outbox.kept }
    {
        let taken = self.outbox.taken;
        let sending = self.outbox.call(is_answered);
        let is_moving = sending == Sending::Now && self.send(network);
        SentBytes {
            sending,
            taken,
            is_moving,
        }
    }

    // Sends what is kept, as far as it goes, and answers whether some went.
    fn send<N: Network<Stream = S>>(&mut self, network: &mut N) -> bool {
        let written = match &self.peer {
            Peer::Open(stream) | Peer::Ended(stream) => network.write(
                stream,
                self.outbox.waiting(),
            ),
            Peer::Absent | Peer::Reset => Err(PortFault),
        };
        match written {
            Ok(n) => {
                self.outbox.sent(n);
                if n > 0 {
                    self.tenure.moved();
                }
                n > 0
            }
            Err(PortFault) => {
                self.reset();
                false
            }
        }
    }

    /// The time is this, in ms: whether it is given up, its connection being ended by the target or not.
    pub fn tick(&mut self, ms: u64, is_ended: bool) -> Option<GivenUp> {
        if !self.has_socket() {
            return None;
        }
        let standing = TenureStanding {
            is_connected: self.connects.is_connected(),
            waits: self.waits(),
            is_ended,
        };
        self.tenure.tick(ms, standing)
    }

    /// Tells it that nothing more is sent.
    pub fn shut<N: Network<Stream = S>>(&mut self, network: &mut N) {
        if let Peer::Open(stream) = &self.peer {
            if network.shut(stream).is_err() {
                self.reset();
            }
        }
    }
}
