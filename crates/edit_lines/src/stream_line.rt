//! The lines of a script of connections.

ghost use Rattle.std.specs.Prelude.{◌≡◌, ◌≢◌, ◌^◌, ◌<◌, ◌∷◌, ◌++◌, ◌↔◌, ◌==◌, ℕ, List};
ghost use Rattle.std.specs.Prelude.{IfNone, IfSome, IsTrue, MatchOption, codes, length};
ghost use Rattle.std.specs.List.{AllPass, position_or_len};
ghost use Rattle.hex.specs.Hex.{is_hex_digit};
ghost use Rattle.config_text.specs.Number.{IsNumber};
ghost use Rattle.edit_lines.specs.StreamLine.{IsHex, IsStreamLine, Says};

use config_text::{find_byte, read_number};

/// One line of a script.
#[derive(Clone, Copy)]
pub enum StreamLine<'a> {
    /// `open PORT`: a host connects to the port.
    Open { port: u16 },
    /// `rx K HEX`: these bytes come on connection K, as pairs of hex digits of either case.
    Receive { connection: u64, hex: &'a [u8] },
    /// `end K`: the host's end of connection K goes away.
    End { connection: u64 },
    /// `tick MS`: the clock is set, in ms.
    Tick { ms: u64 },
    /// `edit LINE`: an edit is made.
    Edit { line: &'a [u8] },
}

/// What the line says; nothing where it has another form.
pub fn read_stream_line(line: &[u8]) -> Option<StreamLine<'_>>
    ensures some { IfSome result (Says line.now) }
    ensures none { IfNone result (¬ IsStreamLine line.now) }
{
    if let Some(word) = after(line, b"open ") {
        return read_open(word);
    }
    if let Some(rest) = after(line, b"rx ") {
        return read_receive(rest);
    }
    if let Some(word) = after(line, b"tick ") {
        let ms = read_number(word)?;
        return Some(StreamLine::Tick { ms });
    }
    if let Some(text) = after(line, b"edit ") {
        return Some(StreamLine::Edit { line: text });
    }
    let word = after(line, b"end ")?;
    let connection = read_number(word)?;
    Some(StreamLine::End { connection })
}

fn read_open(word: &[u8]) -> Option<StreamLine<'_>>
    ensures some { IfSome result (Says (codes "open " ++ word.now)) }
    ensures none { IfNone result ((port : ℕ) → IsNumber word.now port → ¬ (port < 2 ^ 16)) }
{
    let port = read_number(word)?;
    if port > 65_535 {
        return None;
    }
    Some(StreamLine::Open { port: port as u16 })
}

fn read_receive(rest: &[u8]) -> Option<StreamLine<'_>>
    ensures some { IfSome result (Says (codes "rx " ++ rest.now)) }
    ensures none { IfNone result ((word hex : List ℕ) (k : ℕ) →
        rest.now ≡ word ++ 32 ∷ hex → IsNumber word k → ¬ IsHex hex) }
{
    let (word, hex) = split_at_space(rest)?;
    let connection = read_number(word)?;
    if !is_hex(hex) {
        return None;
    }
    Some(StreamLine::Receive { connection, hex })
}

// What stands before the first space, and what follows it.
fn split_at_space(text: &[u8]) -> Option<(&[u8], &[u8])>
    ensures { MatchOption result
        ((word rest : List ℕ) → text.now ≢ word ++ 32 ∷ rest)
        (λ parts. (text.now ≡ parts.0.now ++ 32 ∷ parts.1.now)
        × (length parts.0.now ≡ position_or_len (λ b. b == 32) text.now)) }
{
    let len = find_byte(text, b' ');
    if len < text.len() {
        Some((&text[..len], &text[len + 1..]))
    } else {
        None
    }
}

fn is_hex(text: &[u8]) -> bool
    ensures { IsTrue result ↔ IsHex text.now }
{
    !text.is_empty() && text.len() % 2 == 0 && are_hex_digits(text)
}

fn are_hex_digits(text: &[u8]) -> bool
    ensures { IsTrue result ↔ AllPass is_hex_digit text.now }
{
    text.iter().all(|b| b.is_ascii_hexdigit())
}

// What follows the prefix.
fn after<'a>(line: &'a [u8], prefix: &[u8]) -> Option<&'a [u8]>
    ensures { MatchOption result
        ((rest : List ℕ) → line.now ≢ prefix.now ++ rest)
        (λ rest. line.now ≡ prefix.now ++ rest.now) }
{
    line.strip_prefix(prefix)
}
