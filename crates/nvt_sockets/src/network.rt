//! What ports over sockets stand on: sockets that never wait, a clock, pauses, and lines for whoever started the program.
ghost use Rattle.std.specs.Prelude.{◌≤◌, IfOk, length};
ghost use Rattle.nvt_sockets.specs.HandsOut.{FitsPiece};

use nvt_ports::PortFault;
use std::io;
use std::net::SocketAddr;

/// What came of a read.
#[derive(Clone, Copy, PartialEq, Eq)]
pub enum Received {
    Nothing,
    /// So many bytes, which stand at the front of the buffer.
    Bytes(usize),
    /// The peer sends no more.
    End,
    /// Nothing is to be read or sent any more.
    Reset,
    /// The same, since the peer did not answer when it was asked whether it is there.
    Gone,
}

/// Where a line is printed.
#[derive(Clone, Copy, PartialEq, Eq)]
pub enum Channel {
    /// Standard output.
    Output,
    /// Standard error.
    Error,
}

/// Sockets, a clock and places to print to. No call waits but `sleep`.
pub trait Network {
    type Listener: Drop;

    type Stream: Drop;

    /// Listens at this address.
    fn listen(&mut self, address: SocketAddr) -> io::Result<Self::Listener>;

    /// The next connection of a listener, if one waits, and the address of its peer.
    fn accept(&mut self, listener: &Self::Listener) -> Option<(Self::Stream, SocketAddr)>;

    /// Reads what is there, as far as there is room.
    fn read(&mut self, stream: &Self::Stream, piece: &mut [u8]) -> Received
        ensures { FitsPiece (length piece.new) result };

    /// Writes as many of the first bytes as go at once, and answers how many.
    fn write(&mut self, stream: &Self::Stream, bytes: &[u8]) -> Result<usize, PortFault>
        ensures { IfOk result (λ n. n ≤ length bytes.now) };

    /// Tells the peer that nothing more is sent.
    fn shut(&mut self, stream: &Self::Stream) -> Result<(), PortFault>;

    /// The microseconds since the ports were opened. They never fall.
    fn micros(&mut self) -> u64;

    fn sleep(&mut self, micros: u64);

    /// Prints as many of the first bytes as go at once, and answers how many.
    fn print(&mut self, channel: Channel, bytes: &[u8]) -> io::Result<usize>
        ensures { IfOk result (λ n. n ≤ length bytes.now) };
}
