//! A link over a TCP socket.
ghost use Rattle.std.specs.Prelude.{◌≡◌, ◌≢◌, ◌≤◌, IfOk, length};

use host_link::{Link, LinkFault};
use mio::net::TcpStream;
use nvt_ports::{Pause, Timer};
use std::io::{self, ErrorKind, Read, Write};
use std::net::{Net, SocketAddr};
use std::rt::Clock;
use std::thread;
use std::time::Duration;

/// A link over a TCP socket, which sends without delay. Where nothing was sent or received for some milliseconds, a
/// call of `receive` in which nothing comes sleeps, from 50 microseconds up to a millisecond.
#[derive(Drop)]
pub struct TcpLink<R> {
    rt: R,
    stream: TcpStream,
    pause: Pause,
    timer: Timer,
    // Whether something was sent since the last call of `receive`.
    has_sent: bool,
    // How many calls failed.
    faults: u64,
}

impl<R: Net + Clock + Drop> TcpLink<R> {
    /// Begins to connect. That it is refused is the answer of a later call.
    pub fn connect(rt: R, address: SocketAddr) -> io::Result<TcpLink<R>> {
        let stream = TcpStream::connect(&rt, address)?;
        stream.set_nodelay(true)?;
        let timer = Timer::new(&rt)?;
        Ok(TcpLink {
            rt,
            stream,
            pause: Pause::new(),
            timer,
            has_sent: false,
            faults: 0,
        })
    }

    // Bytes came.
    fn wake(&mut self)
        ensures { self.new.faults ≡ self.old.faults }
    {
        self.pause = Pause::new();
        self.has_sent = false;
    }

    // Nothing came.
    fn rest(&mut self)
        ensures { self.new.faults ≡ self.old.faults }
    {
        if self.has_sent {
            self.wake();
            return;
        }
        let now = if self.pause.is_timed() {
            self.timer.micros(&self.rt)
        } else {
            0
        };
        if let Some(micros) = self.pause.after_vain(now) {
            thread::sleep(&self.rt, Duration::from_micros(micros));
        }
    }

    // A call failed.
    fn fail(&mut self) -> LinkFault
        ensures { self.new.faults ≢ self.old.faults }
    {
        self.faults = self.faults.wrapping_add(1);
        LinkFault
    }
}

impl<R: Net + Clock + Drop> Link for TcpLink<R> {
    ghost use Rattle.std.specs.Prelude.{◌≤◌, IfOk, None, length};
    ghost use Rattle.host_link.specs.Link.{LinkState, ReceiveAnswers, SendAnswers};

    ghost state = { λ link. record { told = None; faults = link.faults } };

    fn send(&mut self, bytes: &[u8]) -> Result<usize, LinkFault> {
        if bytes.is_empty() {
            return Ok(0);
        }
        match write_to(&self.stream, bytes) {
            Ok(n) => {
                self.has_sent |= n > 0;
                Ok(n)
            }
            Err(error) if is_passing(&error) => Ok(0),
            Err(_) => Err(self.fail()),
        }
    }

    fn receive(&mut self, buffer: &mut [u8]) -> Result<usize, LinkFault> {
        match read_from(&self.stream, buffer) {
            // Where there is room, no byte is the end of the stream.
            Ok(0) if !buffer.is_empty() => Err(self.fail()),
            Ok(n) => {
                self.wake();
                Ok(n)
            }
            Err(error) if is_passing(&error) => {
                self.rest();
                Ok(0)
            }
            Err(_) => Err(self.fail()),
        }
    }
}

fn write_to(mut stream: &TcpStream, bytes: &[u8]) -> io::Result<usize>
    ensures { IfOk result (λ n. n ≤ length bytes.now) }
{
    stream.write(bytes)
}

fn read_from(mut stream: &TcpStream, buffer: &mut [u8]) -> io::Result<usize>
    ensures { IfOk result (λ n. n ≤ length buffer.new) }
{
    stream.read(buffer)
}

// Whether a call is only to be made again.
fn is_passing(error: &io::Error) -> bool {
    matches!(error.kind(), ErrorKind::WouldBlock | ErrorKind::Interrupted)
}
