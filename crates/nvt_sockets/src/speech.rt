//! Lines for whoever started the program, which stop nobody.
ghost use Rattle.std.specs.Prelude.{◌≤◌, length};
ghost use Rattle.nvt_sockets.specs.Speech.{Takes};

use crate::journal::Log;
use crate::network::{Channel, Network};
use nvt_ports::SendBuffer;
use std::alloc::{AllocError, Global};
use std::io;

// As many bytes as a pipe that takes any takes at once.
const PIECE_MAX: usize = 4_096;

const OUTPUT_ROOM: usize = 4_096;

// The log of a second in which many hosts connect.
const ERROR_ROOM: usize = 65_536;

// More pieces than there may be.
const PIECES_MAX: usize = 64;

/// The lines that wait to be printed, to each channel some. A line that is said and finds no room is lost, and so are all
/// where they cannot be written. It allocates when it is made, and never again.
#[derive(Drop)]
pub struct Speech {
    output: SendBuffer,
    error: SendBuffer,
    log: Log,
    is_lost: bool,
}

impl Speech {
    ghost use Rattle.nvt_sockets.specs.Speech.{Offers};

    /// Nothing is to be printed yet.
    pub fn new(alloc: Global, log: Log) -> Result<Speech, AllocError> {
        Ok(Speech {
            output: SendBuffer::new(alloc, OUTPUT_ROOM)?,
            error: SendBuffer::new(alloc, ERROR_ROOM)?,
            log,
            is_lost: false,
        })
    }

    /// Prints a line, with its end, as soon as may be.
    pub fn say(&mut self, channel: Channel, line: &[u8]) {
        if !self.offer(channel, line) {
            self.is_lost = true;
        }
    }

    /// Prints a line, with its end, as soon as may be, where there is room for it; answers whether there is. Where nothing
    /// is told, it is taken and not printed.
    pub fn offer(&mut self, channel: Channel, line: &[u8]) -> bool
        ensures { Offers channel line.now result self.old self.new }
    {
        match (channel, self.log) {
            (Channel::Output, _) => take(&mut self.output, line),
            (Channel::Error, Log::Printed) => take(&mut self.error, line),
            (Channel::Error, Log::Quiet) => true,
        }
    }

    /// Whether nothing waits to be printed.
    pub fn is_silent(&self) -> bool {
        self.output.is_empty() && self.error.is_empty()
    }

    /// Prints what goes at once. Fails where that cannot be written.
    pub fn go_on<N: Network>(&mut self, network: &mut N) -> io::Result<()> {
        let output = print(network, Channel::Output, &mut self.output);
        let error = print(network, Channel::Error, &mut self.error);
        self.is_lost |= output.is_err() || error.is_err();
        output?;
        error
    }

    /// Whether all that was said was printed.
    pub fn is_whole(&self) -> bool {
        !self.is_lost && self.is_silent()
    }
}

// Takes a line where there is room for all of it, and answers whether there is.
fn take(waiting: &mut SendBuffer, line: &[u8]) -> bool
    ensures { Takes line.now result waiting.old waiting.new }
{
    if waiting.room() < line.len() {
        return false;
    }
    waiting.keep(line);
    true
}

// What cannot be written is lost.
fn print<N: Network>(
    network: &mut N,
    channel: Channel,
    waiting: &mut SendBuffer,
) -> io::Result<()> {
    for _ in 0..PIECES_MAX {
        if waiting.is_empty() {
            return Ok(());
        }
        let len = waiting.len().min(PIECE_MAX);
        match network.print(channel, &waiting.waiting()[..len]) {
            Ok(0) => return Ok(()),
            Ok(n) => waiting.sent(n),
            Err(error) => {
                waiting.clear();
                return Err(error);
            }
        }
    }
    Ok(())
}
