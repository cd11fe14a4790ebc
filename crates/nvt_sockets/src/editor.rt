//! A connection for lines of edits.
ghost use Rattle.std.specs.Prelude.{◌≡◌, ◌≤◌, IfOk, length};
ghost use Rattle.nvt_sockets.specs.HandsOut.{FitsLine};
ghost use Rattle.nvt_sockets.specs.Piece.{HoldsPiece};

use crate::network::{Network, Received};
use bytes::BytesMut;
use config_saved::{PieceEnd, SavedReply};
use nvt_ports::{LINE_LIMIT, LineSplitter, PortFault, SendBuffer};
use std::alloc::{AllocError, Global};

/// Longer than any reply, of which one is kept at most, or a piece of one.
pub const REPLY_MAX: usize = 2_048;

/// What comes of a try to take a line.
#[derive(Clone, Copy)]
pub enum Heard {
    Nothing,
    /// Bytes came, or it is closed.
    Something,
    /// A line of so many bytes, which stands at the front of the buffer.
    Line(usize),
    /// More of a configuration was shown, which began at this time, in microseconds.
    Shown { since: u64 },
}

/// A connection for lines of edits, or none.
#[derive(Drop)]
pub struct Editor<S> {
    peer: Option<S>,
    lines: LineSplitter,
    replies: SendBuffer,
    // What is left of the reply to `show`, while it is not all in `replies`.
    shown: Option<SavedReply>,
    ghost room: { replies.capacity ≡ 2_048 },
}

/// A buffer for pieces of replies, of which an editor keeps each byte.
pub fn make_piece(alloc: Global) -> Result<BytesMut, AllocError>
    ensures { IfOk result HoldsPiece }
{
    let mut piece = BytesMut::with_capacity(alloc, REPLY_MAX)?;
    // It may have more room than was asked for, which is passed over.
    let more = piece.capacity() - REPLY_MAX;
    piece.advance_mut(more);
    piece.advance(more);
    Ok(piece)
}

impl<S: Drop> Editor<S> {
    /// None yet.
    pub fn new(alloc: Global) -> Result<Editor<S>, AllocError> {
        Ok(Editor {
            peer: None,
            lines: LineSplitter::new(alloc)?,
            replies: SendBuffer::new(alloc, REPLY_MAX)?,
            shown: None,
        })
    }

    pub fn is_absent(&self) -> bool {
        self.peer.is_none()
    }

    /// One has connected; the one that was there is closed.
    pub fn open(&mut self, stream: S) {
        self.close();
        self.peer = Some(stream);
    }

    // What came without LF at its end is no line.
    fn close(&mut self) {
        self.peer = None;
        self.lines.clear();
        self.replies.clear();
        self.shown = None;
    }

    /// Takes its next line, or goes on with what it is shown. Where it does not read its replies, neither is done. It is
    /// closed once it sends no more and its lines are answered. The piece is used, and holds nothing of worth then.
    pub fn take_line<N: Network<Stream = S>>(
        &mut self,
        network: &mut N,
        buf: &mut [u8],
        piece: &mut BytesMut,
    ) -> Heard
        requires buf { 1025 ≤ length buf.old }
        requires piece { HoldsPiece piece.old }
        ensures line { FitsLine (length buf.new) result }
        ensures piece { HoldsPiece piece.new }
    {
        self.send(network);
        if !self.replies.is_empty() {
            return Heard::Nothing;
        }
        if self.shown.is_some() {
            let since = network.micros();
            return if self.show_more(network, piece) {
                Heard::Shown { since }
            } else {
                Heard::Nothing
            };
        }
        if let Some(n) = self.lines.next_line(buf) {
            return Heard::Line(n);
        }
        if !self.receive(network, buf) {
            return Heard::Nothing;
        }
        match self.lines.next_line(buf) {
            Some(n) => Heard::Line(n),
            None => Heard::Something,
        }
    }

    /// Reads what it sent, where nothing of it waits, and answers whether something came. It is closed where that is its
    /// end. The buffer is used, and holds nothing then.
    pub fn hear<N: Network<Stream = S>>(&mut self, network: &mut N, buf: &mut [u8]) -> bool
        requires { 1025 ≤ length buf.old }
    {
        let waits = self.lines.room() < LINE_LIMIT
            || !self.replies.is_empty()
            || self.shown.is_some();
        !waits && self.receive(network, buf)
    }

    // Reads what there is room for, and answers whether something came, its end too.
    fn receive<N: Network<Stream = S>>(&mut self, network: &mut N, buf: &mut [u8]) -> bool
        requires { 1025 ≤ length buf.old }
    {
        let room = self.lines.room();
        let received = match &self.peer {
            Some(stream) => network.read(stream, &mut buf[..room]),
            None => Received::Nothing,
        };
        match received {
            Received::Nothing => return false,
            Received::Bytes(n) => {
                self.lines.receive(&buf[..n]);
            }
            Received::End | Received::Reset | Received::Gone => self.close(),
        }
        true
    }

    /// Answers the line that was taken last; LF follows.
    pub fn reply<N: Network<Stream = S>>(&mut self, network: &mut N, text: &[u8]) {
        self.replies.keep(text);
        self.replies.keep(b"\n");
        self.send(network);
    }

    /// Answers the line that was taken last by this, of which a first piece is sent.
    pub fn show<N: Network<Stream = S>>(
        &mut self,
        network: &mut N,
        reply: SavedReply,
        piece: &mut BytesMut,
    )
        requires { HoldsPiece piece.old }
        ensures { HoldsPiece piece.new }
    {
        self.shown = Some(reply);
        self.show_more(network, piece);
    }

    // Sends the next piece of what it is shown, where nothing else is kept, and answers whether there is one. Where no memory
    // is for it, that is tried again in the next turn: whoever keeps the text would take one that ends too early for the
    // whole.
    fn show_more<N: Network<Stream = S>>(&mut self, network: &mut N, piece: &mut BytesMut) -> bool
        requires { HoldsPiece piece.old }
        ensures { HoldsPiece piece.new }
    {
        if !self.replies.is_empty() {
            return false;
        }
        piece.truncate(0);
        if let Some(reply) = &mut self.shown {
            if reply.write(piece) == PieceEnd::Whole {
                self.shown = None;
            }
        }
        if piece.is_empty() {
            return false;
        }
        self.keep_piece(piece.as_slice());
        self.send(network);
        true
    }

    // Keeps a piece, each byte of it, where nothing else is kept.
    fn keep_piece(&mut self, piece: &[u8])
        requires empty { length self.old.replies.waiting ≡ 0 }
        requires fits { length piece.now ≤ 2_048 }
        ensures { self.new.replies.waiting ≡ piece.now }
    {
        self.replies.clear();
        self.replies.keep(piece);
    }

    // Sends what is kept, as far as it goes.
    fn send<N: Network<Stream = S>>(&mut self, network: &mut N) {
        if self.replies.is_empty() {
            return;
        }
        let sent = match &self.peer {
            Some(stream) => network.write(stream, self.replies.waiting()),
            None => Err(PortFault),
        };
        match sent {
            Ok(n) => self.replies.sent(n),
            Err(PortFault) => self.close(),
        }
    }
}
