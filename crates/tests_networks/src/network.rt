//! A network without sockets: hosts that behave as they are told, and a time that is counted.
ghost use Rattle.std.specs.Prelude.{◌≤◌, IfOk, length};
ghost use Rattle.nvt_sockets.specs.HandsOut.{FitsPiece};

use crate::host::Host;
use nvt_ports::PortFault;
use nvt_sockets::{Channel, Network, Received};
use std::io;
use std::net::{IpAddr, Ipv4Addr, SocketAddr};
use std::rc::Rc;

/// The port for lines of edits.
pub const CONTROL: u16 = 4_421;

/// The listener for hosts, or the one for lines of edits.
#[derive(Drop)]
pub struct Listener {
    is_control: bool,
}

/// The stream of a host, by its number.
#[derive(Drop)]
pub struct Stream {
    is_editor: bool,
    number: usize,
    held: Rc<()>,
}

// So many bytes for an editor take a microsecond more.
const BYTES_PER_MICRO: u64 = 16;

/// Hosts and editors. Each read, write, accept and print takes a microsecond, and a sleep as long as it says. What goes to
/// an editor takes as much longer as it is long, as what is shown to one takes long to make.
#[derive(Drop)]
pub struct ScriptedNetwork<'a> {
    hosts: Vec<Host<'a>>,
    editors: Vec<Host<'a>>,
    now: u64,
    // What was printed on standard error, as far as there is room.
    told: Vec<u8>,
}

impl<'a> ScriptedNetwork<'a> {
    /// With these hosts, and those that send lines of edits.
    pub fn new(hosts: Vec<Host<'a>>, editors: Vec<Host<'a>>, told: Vec<u8>) -> ScriptedNetwork<'a> {
        ScriptedNetwork {
            hosts,
            editors,
            now: 0,
            told,
        }
    }

    /// Whether this line was printed on standard error.
    pub fn has_told(&self, line: &[u8]) -> bool {
        self.told
            .split(|byte| *byte == b'\n')
            .any(|each| each == line)
    }

    pub fn hosts(&self) -> &[Host<'a>] {
        &self.hosts
    }

    pub fn editors(&self) -> &[Host<'a>] {
        &self.editors
    }

    /// The time, in microseconds.
    pub fn now(&self) -> u64 {
        self.now
    }

    fn count(&mut self) -> u64 {
        self.now = self.now.saturating_add(1);
        self.now
    }

    fn count_bytes(&mut self, bytes: &[u8]) -> u64 {
        let more = bytes.len() as u64 / BYTES_PER_MICRO;
        self.now = self.count().saturating_add(more);
        self.now
    }

    fn host_of(&mut self, stream: &Stream) -> Option<&mut Host<'a>> {
        if stream.is_editor {
            self.editors.get_mut(stream.number)
        } else {
            self.hosts.get_mut(stream.number)
        }
    }
}

// Opens the first that is due.
fn open_next(hosts: &mut Vec<Host<'_>>, now: u64) -> Option<(usize, Rc<()>)> {
    let number = hosts.iter().position(|host| host.is_due(now))?;
    let held = hosts.get_mut(number)?.open(now)?;
    Some((number, held))
}

impl Network for ScriptedNetwork<'_> {
    type Listener = Listener;

    type Stream = Stream;

    fn listen(&mut self, address: SocketAddr) -> io::Result<Listener> {
        Ok(Listener {
            is_control: address.port() == CONTROL,
        })
    }

    fn accept(&mut self, listener: &Listener) -> Option<(Stream, SocketAddr)> {
        let now = self.count();
        let is_editor = listener.is_control;
        let opened = if is_editor {
            open_next(&mut self.editors, now)
        } else {
            open_next(&mut self.hosts, now)
        };
        let (number, held) = opened?;
        let stream = Stream {
            is_editor,
            number,
            held,
        };
        Some((
            stream,
            SocketAddr::new(IpAddr::V4(Ipv4Addr::LOCALHOST), 1_024),
        ))
    }

    fn read(&mut self, stream: &Stream, piece: &mut [u8]) -> Received
        ensures { FitsPiece (length piece.new) result }
    {
        let now = self.count();
        match self.host_of(stream) {
            Some(host) => host.give(now, piece),
            None => Received::Nothing,
        }
    }

    fn write(&mut self, stream: &Stream, bytes: &[u8]) -> Result<usize, PortFault>
        ensures { IfOk result (λ n. n ≤ length bytes.now) }
    {
        let now = if stream.is_editor {
            self.count_bytes(bytes)
        } else {
            self.count()
        };
        match self.host_of(stream) {
            Some(host) => host.take(now, bytes),
            None => Err(PortFault),
        }
    }

    fn shut(&mut self, _stream: &Stream) -> Result<(), PortFault> {
        Ok(())
    }

    fn micros(&mut self) -> u64 {
        self.now
    }

    fn sleep(&mut self, micros: u64) {
        self.now = self.now.saturating_add(micros);
    }

    fn print(&mut self, channel: Channel, bytes: &[u8]) -> io::Result<usize>
        ensures { IfOk result (λ n. n ≤ length bytes.now) }
    {
        self.count();
        if channel == Channel::Error {
            let room = self.told.capacity() - self.told.len();
            let _ = self.told.extend_from_slice(&bytes[..bytes.len().min(room)]);
        }
        Ok(bytes.len())
    }
}
