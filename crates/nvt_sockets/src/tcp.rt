//! The TCP sockets, the clock and the standard streams of this machine.
ghost use Rattle.std.specs.Prelude.{◌≤◌, IfOk, length};
ghost use Rattle.nvt_sockets.specs.HandsOut.{FitsPiece};

use crate::keep_alive::keep_alive;
use crate::network::{Channel, Network, Received};
use crate::standard_streams::print_some;
use mio::net::{TcpListener, TcpStream};
use nvt_ports::{PortFault, Timer};
use std::io::{self, ErrorKind, Read, Write};
use std::net::{Net, Shutdown, SocketAddr};
use std::rt::Clock;
use std::thread;
use std::time::Duration;

/// The network of this machine.
#[derive(Drop)]
pub struct Tcp<R> {
    rt: R,
    timer: Timer,
}

impl<R: Net + Clock + Drop> Tcp<R> {
    /// Its time begins now. Fails where the clock cannot be read.
    pub fn new(rt: R) -> io::Result<Tcp<R>> {
        let timer = Timer::new(&rt)?;
        Ok(Tcp { rt, timer })
    }
}

impl<R: Net + Clock + Drop> Network for Tcp<R> {
    type Listener = TcpListener;

    type Stream = TcpStream;

    fn listen(&mut self, address: SocketAddr) -> io::Result<TcpListener> {
        TcpListener::bind(&self.rt, address)
    }

    // It sends without delay, and is asked now and then whether it is still there.
    fn accept(&mut self, listener: &TcpListener) -> Option<(TcpStream, SocketAddr)> {
        let (stream, peer) = listener.accept().ok()?;
        stream.set_nodelay(true).ok()?;
        keep_alive(&stream);
        Some((stream, peer))
    }

    fn read(&mut self, mut stream: &TcpStream, piece: &mut [u8]) -> Received
        ensures { FitsPiece (length piece.new) result }
    {
        if piece.is_empty() {
            return Received::Nothing;
        }
        match stream.read(piece) {
            Ok(0) => Received::End,
            Ok(n) => Received::Bytes(n),
            Err(error) if is_passing(&error) => Received::Nothing,
            Err(error) if is_unanswered(&error) => Received::Gone,
            Err(_) => Received::Reset,
        }
    }

    fn write(&mut self, mut stream: &TcpStream, bytes: &[u8]) -> Result<usize, PortFault>
        ensures { IfOk result (λ n. n ≤ length bytes.now) }
    {
        match stream.write(bytes) {
            Ok(n) => Ok(n),
            Err(error) if is_passing(&error) => Ok(0),
            Err(_) => Err(PortFault),
        }
    }

    fn shut(&mut self, stream: &TcpStream) -> Result<(), PortFault> {
        stream.shutdown(Shutdown::Write).map_err(|_| PortFault)
    }

    fn micros(&mut self) -> u64 {
        self.timer.micros(&self.rt)
    }

    fn sleep(&mut self, micros: u64) {
        thread::sleep(&self.rt, Duration::from_micros(micros));
    }

    fn print(&mut self, channel: Channel, bytes: &[u8]) -> io::Result<usize>
        ensures { IfOk result (λ n. n ≤ length bytes.now) }
    {
        print_some(channel, bytes)
    }
}

// Whether a call is only to be made again.
fn is_passing(error: &io::Error) -> bool {
    matches!(error.kind(), ErrorKind::WouldBlock | ErrorKind::Interrupted)
}

// Whether the peer did not answer, or is not to be reached.
fn is_unanswered(error: &io::Error) -> bool {
    matches!(
        error.kind(),
        ErrorKind::TimedOut | ErrorKind::HostUnreachable | ErrorKind::NetworkUnreachable
    )
}
