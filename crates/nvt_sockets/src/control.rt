//! The control port: its listener, the connections that lines of edits come from, and the configuration that they are shown.
ghost use Rattle.std.specs.Prelude.{◌<◌, ◌≤◌, ◌≡◌, IfOk, IfSome, length};
ghost use Rattle.nvt_sockets.specs.HandsOut.{FitsLine};
ghost use Rattle.nvt_sockets.specs.Piece.{HoldsPiece};

use crate::editor::{Editor, Heard, make_piece};
use crate::network::Network;
use bytes::BytesMut;
use config_saved::{SavedReply, is_show};
use nvt_config::Config;
use nvt_ports::{EDITORS_MAX, Seats};
use std::alloc::{AllocError, Global};
use std::io;
use std::net::{IpAddr, Ipv4Addr, SocketAddr};

/// The control port, on this machine alone.
#[derive(Drop)]
pub struct Control<L, S> {
    socket: L,
    editors: Vec<Editor<S>>,
    seats: Seats,
    // Whose line was handed out last, until it is answered.
    asking: Option<usize>,
    // A copy of the configuration that stands; none where no memory was for it.
    standing: Option<Config>,
    // Where a piece of what is shown is written before it is kept.
    piece: BytesMut,
    ghost whole: { length editors.items ≡ 16 },
    ghost room: { HoldsPiece piece },
}

/// The address of a control port.
pub fn control_address(port: u16) -> SocketAddr {
    SocketAddr::new(IpAddr::V4(Ipv4Addr::LOCALHOST), port)
}

impl<L: Drop, S: Drop> Control<L, S> {
    /// Listens. Fails where the port cannot be listened to, or memory runs out.
    pub fn open<N: Network<Listener = L, Stream = S>>(
        network: &mut N,
        alloc: Global,
        port: u16,
    ) -> io::Result<Control<L, S>> {
        let socket = network.listen(control_address(port))?;
        Ok(Control {
            socket,
            editors: make_editors(alloc)?,
            seats: Seats::new(),
            asking: None,
            standing: None,
            piece: make_piece(alloc)?,
        })
    }

    /// From here on this configuration stands.
    pub fn refresh(&mut self, config: &Config) {
        // The old copy goes first, so that there is never memory for two at a time.
        self.standing = None;
        self.standing = config.try_clone().ok();
    }

    /// The next connection gets a place, where one waits; answers whether one did. Where all places are taken, those who
    /// closed theirs leave them, and if none did, the one that was silent longest is closed. The buffer is used, and holds
    /// nothing then.
    pub fn accept<N: Network<Listener = L, Stream = S>>(
        &mut self,
        network: &mut N,
        buf: &mut [u8],
    ) -> bool
        requires { 1025 ≤ length buf.old }
    {
        let Some((stream, _)) = network.accept(&self.socket) else {
            return false;
        };
        if self.free_place().is_none() {
            self.hear_all(network, buf);
        }
        let place = match self.free_place() {
            Some(place) => place,
            None => self.seats.silent_longest(),
        };
        self.editors[place].open(stream);
        self.seats.heard(place);
        if self.asking == Some(place) {
            self.asking = None;
        }
        true
    }

    // Reads what each sent of which nothing waits, its end too.
    fn hear_all<N: Network<Listener = L, Stream = S>>(&mut self, network: &mut N, buf: &mut [u8])
        requires { 1025 ≤ length buf.old }
    {
        for place in 0..EDITORS_MAX {
            if self.editors[place].hear(network, buf) {
                self.seats.heard(place);
            }
        }
    }

    fn free_place(&self) -> Option<usize>
        ensures { IfSome result (λ place. place < 16) }
    {
        for place in 0..EDITORS_MAX {
            if self.editors[place].is_absent() {
                return Some(place);
            }
        }
        None
    }

    /// Takes the next line of the connection in this place, or goes on with what it is shown. A line that asks for the
    /// configuration is answered here, and not handed out.
    pub fn take_line<N: Network<Listener = L, Stream = S>>(
        &mut self,
        network: &mut N,
        place: usize,
        buf: &mut [u8],
    ) -> Heard
        requires { 1025 ≤ length buf.old }
        ensures { FitsLine (length buf.new) result }
    {
        if place >= EDITORS_MAX {
            return Heard::Nothing;
        }
        let heard = self.editors[place].take_line(network, buf, &mut self.piece);
        match heard {
            Heard::Nothing => {}
            Heard::Something | Heard::Shown { .. } => self.seats.heard(place),
            Heard::Line(n) => {
                self.seats.heard(place);
                if is_show(&buf[..n]) {
                    let since = network.micros();
                    self.show(network, place);
                    return Heard::Shown { since };
                }
                self.asking = Some(place);
            }
        }
        heard
    }

    // Begins to show the configuration that stands to the connection in this place.
    fn show<N: Network<Listener = L, Stream = S>>(&mut self, network: &mut N, place: usize)
        requires { place < 16 }
    {
        let reply = SavedReply::to_show(self.standing.as_ref());
        self.editors[place].show(network, reply, &mut self.piece);
    }

    /// Answers the line that was taken last, on its own connection.
    pub fn reply<N: Network<Listener = L, Stream = S>>(&mut self, network: &mut N, text: &[u8]) {
        if let Some(place) = self.asking.take() {
            if place < EDITORS_MAX {
                self.editors[place].reply(network, text);
            }
        }
    }
}

fn make_editors<S: Drop>(alloc: Global) -> Result<Vec<Editor<S>>, AllocError>
    ensures { IfOk result (λ editors. length editors.items ≡ 16) }
{
    let mut editors = Vec::with_capacity(alloc, EDITORS_MAX)?;
    for _ in 0..EDITORS_MAX {
        editors.push(Editor::new(alloc)?)?;
    }
    Ok(editors)
}
