//! The lines of a file.
ghost use Rattle.std.specs.Prelude.{position, ◌≡◌, ◌==◌, ◌<◌, ◌≤◌, ◌∷◌, length};
ghost use Rattle.std.specs.List.{position_or_len};
ghost use Rattle.config_text.specs.Lines.{lines_of};

use std::marker::Model;

/// The lines of some bytes: LF ends each, and the last may lack it. No bytes have no lines. A contract
/// sees the lines that are left.
#[derive(Drop)]
pub struct Lines<'a> {
    rest: &'a [u8],
}

impl<'a> Model for Lines<'a> {
    ghost use Rattle.std.specs.Prelude.{ℕ, List};
    ghost use Rattle.config_text.specs.Lines.{lines_of};

    ghost Value = { List (List ℕ) };

    ghost view = { λ s. lines_of s.rest.now };
}

impl<'a> Lines<'a> {
    pub fn of(bytes: &'a [u8]) -> Lines<'a>
        ensures { result ≡ lines_of bytes.now }
    {
        Lines { rest: bytes }
    }
}

impl<'a> Iterator for Lines<'a> {
    ghost use Rattle.std.specs.Iterator.{YieldsFirstBy, item_count};

    type Item = &'a [u8];

    ghost next_gives = { YieldsFirstBy (λ line. line.now) (λ lines. lines) };

    ghost remaining = { item_count (λ lines. lines) };

    fn next(&mut self) -> Option<&'a [u8]> {
        if self.rest.is_empty() {
            return None;
        }
        let (line, rest) = first_line(self.rest);
        self.rest = rest;
        Some(line)
    }
}

// The line at the front, and what follows its end.
fn first_line(bytes: &[u8]) -> (&[u8], &[u8])
    requires { 0 < length bytes.now }
    ensures { lines_of bytes.now ≡ result.0.now ∷ lines_of result.1.now }
{
    let len = find_byte(bytes, b'\n');
    if len < bytes.len() {
        (&bytes[..len], &bytes[len + 1..])
    } else {
        (bytes, &[])
    }
}

/// The place of the first byte that is this one, or the length where none is.
pub fn find_byte(bytes: &[u8], byte: u8) -> usize
    ensures place { result ≡ position_or_len (λ b. b == byte) bytes.now }
    ensures within { result ≤ length bytes.now }
{
    match position_of(bytes, byte) {
        Some(i) => i,
        None => bytes.len(),
    }
}

fn position_of(bytes: &[u8], byte: u8) -> Option<usize>
    ensures { result ≡ position (λ b. b == byte) bytes.now }
{
    bytes.iter().position(|b| *b == byte)
}
