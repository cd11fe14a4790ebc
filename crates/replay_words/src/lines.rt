//! The lines of a replay that open and close connections and carry bytes.
ghost use Rattle.std.specs.Prelude.{◌≡◌, ◌≢◌, ◌==◌, ◌++◌, ℕ, List, MatchOption, IsTrue, ◌↔◌, length};
ghost use Rattle.std.specs.List.{before_first, after_first, position_or_len};
ghost use Rattle.replay_words.specs.Lines.{SaysPrinted, SaysScript};

use config_text::{find_byte, read_number};

/// A line that a replay prints.
#[derive(Clone, Copy)]
pub enum PrintedLine<'a> {
    /// `K open`
    Open { number: u64 },
    /// `K closed`
    Closed { number: u64 },
    /// `K pdu HEX`
    Pdu { number: u64, hex: &'a [u8] },
    Other,
}

/// A line of a script.
#[derive(Clone, Copy)]
pub enum ScriptLine<'a> {
    /// `rx K HEX`: the host sends bytes.
    Receive { number: u64, hex: &'a [u8] },
    /// `end K`: the host's end goes away.
    End { number: u64 },
    Other,
}

/// What a printed line says.
pub fn read_printed(line: &[u8]) -> PrintedLine<'_>
    ensures { SaysPrinted line.now result }
{
    let (word, rest) = split_word(line);
    let Some(number) = read_number(word) else {
        return PrintedLine::Other;
    };
    if let Some(hex) = after(rest, b"pdu ") {
        return PrintedLine::Pdu { number, hex };
    }
    if is_text(rest, b"open") {
        return PrintedLine::Open { number };
    }
    if is_text(rest, b"closed") {
        return PrintedLine::Closed { number };
    }
    PrintedLine::Other
}

/// What a line of a script says.
pub fn read_script(line: &[u8]) -> ScriptLine<'_>
    ensures { SaysScript line.now result }
{
    if let Some(rest) = after(line, b"rx ") {
        let (word, hex) = split_word(rest);
        return match read_number(word) {
            Some(number) => ScriptLine::Receive { number, hex },
            None => ScriptLine::Other,
        };
    }
    let Some(word) = after(line, b"end ") else {
        return ScriptLine::Other;
    };
    match read_number(word) {
        Some(number) => ScriptLine::End { number },
        None => ScriptLine::Other,
    }
}

// What stands before the first space, and what follows it.
fn split_word(text: &[u8]) -> (&[u8], &[u8])
    ensures word { result.0.now ≡ before_first (λ b. b == 32) text.now }
    ensures rest { result.1.now ≡ after_first (λ b. b == 32) text.now }
{
    let len = find_byte(text, b' ');
    let (word, rest) = text.split_at(len);
    match rest {
        [] => (word, rest),
        [_, after @ ..] => (word, after),
    }
}

fn is_text(text: &[u8], word: &[u8]) -> bool
    ensures { IsTrue result ↔ (text.now ≡ word.now) }
{
    text == word
}

// What follows the prefix.
fn after<'a>(line: &'a [u8], prefix: &[u8]) -> Option<&'a [u8]>
    ensures { MatchOption result
        ((rest : List ℕ) → line.now ≢ prefix.now ++ rest)
        (λ rest. line.now ≡ prefix.now ++ rest.now) }
{
    line.strip_prefix(prefix)
}
