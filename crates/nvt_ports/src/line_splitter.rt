//! The lines of a stream, whatever pieces it comes in.
ghost use Rattle.std.specs.Prelude.{◌≡◌, ◌+◌, ◌-◌, ◌<◌, ◌≤◌, ◌==◌, ◌++◌, length, take, drop, min, vec_len, vec_capacity, IfOk, IfSome, true};
ghost use Rattle.nvt_ports.specs.Splitting.{line_end};

use crate::front::remove_first;
use std::alloc::{AllocError, Global};
use std::marker::Model;

/// The most bytes of a line that are handed out: 1,024, and one more of a line that is too long.
pub const LINE_LIMIT: usize = 1_025;

const LF: u8 = b'\n';

/// The bytes of a stream that are not handed out yet, as lines that end with LF. Of a line that is longer than 1,024
/// bytes the first 1,025 are handed out, and the rest is passed over. It allocates when it is made, and never again.
#[derive(Drop)]
pub struct LineSplitter {
    bytes: Vec<u8>,
    // Whether what comes up to the next LF is the rest of a line that was handed out.
    skips: bool,
}

impl Model for LineSplitter {
    ghost use Rattle.std.specs.Prelude.{◌≤◌, vec_len, vec_capacity};
    ghost use Rattle.nvt_ports.specs.Splitting.{Splitting};

    ghost Value = { Splitting };

    ghost view = { λ s. record { held = s.bytes.items; skips = s.skips } };

    ghost invariant = { λ s. (vec_len s.bytes ≤ 1025) × (1025 ≤ vec_capacity s.bytes) };
}

impl LineSplitter {
    ghost use Rattle.nvt_ports.specs.Splitting.{HandsBeginningOut, HandsLineOut, begun, passed_over};

    /// The beginning of a stream.
    pub fn new(alloc: Global) -> Result<LineSplitter, AllocError>
        ensures { IfOk result (λ splitter. splitter ≡ begun) }
    {
        Ok(LineSplitter {
            bytes: Vec::with_capacity(alloc, LINE_LIMIT)?,
            skips: false,
        })
    }

    /// Begins another stream.
    pub fn clear(&mut self)
        ensures { self.new ≡ begun }
    {
        self.bytes.clear();
        self.skips = false;
    }

    /// How many more bytes it has room for: none only where a line can be handed out.
    pub fn room(&self) -> usize
        ensures { result + length self.now.held ≡ 1025 }
    {
        LINE_LIMIT - self.bytes.len()
    }

    /// Takes as many of the first bytes as there is room for, and answers how many.
    pub fn receive(&mut self, bytes: &[u8]) -> usize
        ensures taken { result ≡ min (length bytes.now) (1025 - length self.old.held) }
        ensures held { self.new ≡ record self.old { held = self.old.held ++ take result bytes.now } }
    {
        let taken = bytes.len().min(self.room());
        self.bytes.extend_from_slice(&bytes[..taken]).unwrap();
        taken
    }

    /// Writes the next line, without its LF, to the front of this buffer, and answers its length; none where its LF has
    /// not come, and it is not too long.
    pub fn next_line(&mut self, out: &mut [u8]) -> Option<usize>
        requires { 1025 ≤ length out.old }
        ensures line { HandsLineOut (passed_over self.old) out.new result self.new }
        ensures len { IfSome result (λ n. n ≤ 1025) }
    {
        if self.skips {
            self.pass_over();
        }
        match line_end(&self.bytes) {
            Some(end) => {
                self.hand_out_line(end, out);
                Some(end)
            }
            None => self.hand_out_beginning(out),
        }
    }

    // Passes over the rest of a line that was handed out.
    fn pass_over(&mut self)
        requires { self.old.skips ≡ true }
        ensures { self.new ≡ passed_over self.old }
    {
        match line_end(&self.bytes) {
            Some(end) => {
                remove_first(&mut self.bytes, end + 1);
                self.skips = false;
            }
            None => self.bytes.clear(),
        }
    }

    // Hands out the line that ends here.
    fn hand_out_line(&mut self, end: usize, out: &mut [u8])
        requires end { end < length self.old.held }
        requires out { 1025 ≤ length out.old }
        ensures line { take end out.new ≡ take end self.old.held }
        ensures after { self.new ≡ record self.old { held = drop (end + 1) self.old.held } }
    {
        let line = &self.bytes.as_slice()[..end];
        out[..end].copy_from_slice(line);
        remove_first(&mut self.bytes, end + 1);
    }

    // Hands out the beginning of a line that is too long.
    fn hand_out_beginning(&mut self, out: &mut [u8]) -> Option<usize>
        requires { 1025 ≤ length out.old }
        ensures line { HandsBeginningOut (length self.old.held == 1025) self.old out.new result self.new }
        ensures len { IfSome result (λ n. n ≤ 1025) }
    {
        if self.bytes.len() != LINE_LIMIT {
            return None;
        }
        out[..LINE_LIMIT].copy_from_slice(&self.bytes);
        self.bytes.clear();
        self.skips = true;
        Some(LINE_LIMIT)
    }
}

// Where the first LF stands.
fn line_end(bytes: &[u8]) -> Option<usize>
    ensures place { result ≡ line_end bytes.now }
    ensures within { IfSome result (λ at. at < length bytes.now) }
{
    bytes.iter().position(|b| *b == LF)
}
