//! The reply to a line of edits that is refused.

ghost use Rattle.std.specs.Prelude.{◌≡◌, Some};
ghost use Rattle.config_lists.specs.Fault.{reply_of};
ghost use Rattle.edit_lines.specs.Reply.{text_of_reply};

use arrayvec::ArrayString;
use config_lists::EditFault;
use config_text::LineFault;
use std::error::Error;
use std::fmt;

// Room for the longest text.
const TEXT_MAX: usize = 64;

/// The reply to a line of edits that is refused.
#[derive(Clone, Copy, Debug, PartialEq, Eq)]
pub enum Reply {
    /// The line is no edit's.
    Line(LineFault),
    /// The edit is refused.
    Edit(EditFault),
}

impl Error for Reply {}

impl Reply {
    /// Its text, without a line's end.
    pub fn text(&self) -> ArrayString<TEXT_MAX>
        ensures { result.bytes ≡ text_of_reply self.now }
    {
        match self {
            Reply::Line(fault) => fault.text(),
            Reply::Edit(fault) => text_of_refusal(fault),
        }
    }
}

/// The text of the refusal of an edit, without a line's end.
pub fn text_of_refusal(fault: &EditFault) -> ArrayString<TEXT_MAX>
    ensures { result.bytes ≡ reply_of fault.now }
{
    let (wrong, of) = fault.parts();
    let mut text = ArrayString::new();
    text.push_str(wrong);
    text.push_str(of);
    text
}

impl fmt::Display for Reply {
    ghost output = { λ reply. Some (text_of_reply reply) };

    fn fmt<W: fmt::Write>(&self, f: &mut fmt::Formatter<W>) -> fmt::Result {
        f.write_str(self.text().as_str())
    }
}
