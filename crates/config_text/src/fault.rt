//! What is wrong with a line.
ghost use Rattle.std.specs.Prelude.{◌≡◌, ◌≤◌, Some, length};
ghost use Rattle.config_text.specs.Fault.{reply_of_line_fault, word_of_kind};

use arrayvec::ArrayString;
use itoa::Buffer;
use std::error::Error;
use std::fmt;

// Room for the longest text, with a column of 40 digits.
const TEXT_MAX: usize = 64;

/// What is wrong with a line, at the first faulty word from the left; or that there was no memory for
/// what it says. Its text is the reply to the line.
#[derive(Clone, Copy, Debug, PartialEq, Eq)]
pub struct LineFault {
    /// How many bytes stand before the word; the line's length where a word is missing, and 0 where
    /// the line is too long or there is no memory.
    pub column: usize,
    pub kind: LineFaultKind,
}

/// What is wrong with a word, or with the line.
#[derive(Clone, Copy, Debug, PartialEq, Eq)]
pub enum LineFaultKind {
    /// The line has more than 1,024 bytes.
    TooLong,
    /// There is no byte in the word.
    Empty,
    /// No edit begins so.
    UnknownWord,
    /// The line ends before the edit does.
    Missing,
    /// The word is no decimal number from 0 to 2^64 - 1 without leading zeros.
    BadNumber,
    /// The word is no name of 5 to 223 bytes.
    BadNqn,
    /// The word is no UUID of 36 characters, hyphenated and in lower case.
    BadUuid,
    /// The word is none of those that may stand here, or it has a byte outside 21h to 7Eh.
    BadWord,
    /// The line goes on after the edit's end.
    Extra,
    /// The line says an edit, for which there was no memory.
    Memory,
}

impl Error for LineFault {}

impl LineFault {
    /// Its text.
    pub fn text(&self) -> ArrayString<TEXT_MAX>
        ensures { result.bytes ≡ reply_of_line_fault self.now }
    {
        let mut column = Buffer::new();
        let mut text = ArrayString::new();
        text.push_str("line ");
        text.push_str(column.format(self.column));
        text.push_str(" ");
        text.push_str(self.kind.word());
        text
    }
}

impl fmt::Display for LineFault {
    ghost output = { λ fault. Some (reply_of_line_fault fault) };

    fn fmt<W: fmt::Write>(&self, f: &mut fmt::Formatter<W>) -> fmt::Result {
        f.write_str(self.text().as_str())
    }
}

impl LineFaultKind {
    /// Its name.
    pub fn word(&self) -> &'static str
        ensures word { result.now ≡ word_of_kind self.now }
        ensures len { length result.now ≤ 11 }
    {
        match self {
            LineFaultKind::TooLong => "TooLong",
            LineFaultKind::Empty => "Empty",
            LineFaultKind::UnknownWord => "UnknownWord",
            LineFaultKind::Missing => "Missing",
            LineFaultKind::BadNumber => "BadNumber",
            LineFaultKind::BadNqn => "BadNqn",
            LineFaultKind::BadUuid => "BadUuid",
            LineFaultKind::BadWord => "BadWord",
            LineFaultKind::Extra => "Extra",
            LineFaultKind::Memory => "Memory",
        }
    }
}
