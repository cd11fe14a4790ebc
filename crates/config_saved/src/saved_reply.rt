//! The reply to a line that asks for the saved text.
ghost use Rattle.std.specs.Prelude.{◌≡◌, ◌↔◌, IsTrue, codes};
ghost use Rattle.std.specs.Option.{option_copied};
ghost use Rattle.config_saved.specs.Pieces.{IsReplyTo, WritesLast, WritesLines, WritesReply, edits_of_text};

use crate::saved_text::{PieceEnd, SavedText};
use bytes::BytesMut;
use nvt_config::Config;
use std::alloc::AllocError;
use std::marker::Model;

/// Whether a line, without its end, asks for the saved text of the configuration that stands.
pub fn is_show(line: &[u8]) -> bool
    ensures { IsTrue result ↔ (line.now ≡ codes "show") }
{
    line == b"show".as_slice()
}

/// What is left of the reply to a line that asks for the saved text: the text and `ok`, or `refused Memory`
/// alone. A contract sees the edits whose lines are left, and the last line while it is.
#[derive(Drop)]
pub struct SavedReply {
    text: Option<SavedText>,
    last: &'static [u8],
}

impl Model for SavedReply {
    ghost use Rattle.config_saved.specs.Pieces.{Reply, edits_of_text};

    ghost Value = { Reply };

    ghost view = { λ reply. record { edits = edits_of_text reply.text; last = reply.last.now } };
}

impl SavedReply {
    /// The whole reply, where this configuration stands: its text, as it is now, whatever edits come. Where no
    /// memory is for a copy, or was for the one that is known, it is refused.
    pub fn to_show(standing: Option<&Config>) -> SavedReply
        ensures { IsReplyTo (option_copied standing.entry) result }
    {
        let copy = match standing {
            Some(config) => config.try_clone(),
            None => Err(AllocError),
        };
        match copy {
            Ok(config) => SavedReply {
                text: Some(SavedText::of(config)),
                last: b"ok\n",
            },
            Err(AllocError) => SavedReply {
                text: None,
                last: b"refused Memory\n",
            },
        }
    }

    /// Appends what is left, up to the first line that does not fit the buffer, or for which no memory is;
    /// answers which it was. The configuration is let go with its last line.
    pub fn write(&mut self, out: &mut BytesMut) -> PieceEnd
        ensures { WritesReply self.old self.new out.old out.new result }
    {
        match write_text(&mut self.text, out) {
            PieceEnd::Whole => write_last(&mut self.last, out),
            end => end,
        }
    }
}

// Appends lines of the text, which is let go where all are written.
fn write_text(text: &mut Option<SavedText>, out: &mut BytesMut) -> PieceEnd
    ensures { WritesLines (edits_of_text text.old) (edits_of_text text.new) out.old out.new result }
{
    let Some(lines) = text else {
        return PieceEnd::Whole;
    };
    let end = lines.write_lines(out);
    if end == PieceEnd::Whole {
        *text = None;
    }
    end
}

// Appends the last line, where it fits.
fn write_last(last: &mut &'static [u8], out: &mut BytesMut) -> PieceEnd
    ensures { WritesLast last.old.now last.new.now out.old out.new result }
{
    if out.capacity() - out.len() < last.len() {
        return PieceEnd::Full;
    }
    out.extend_reserved(last);
    *last = b"";
    PieceEnd::Whole
}
