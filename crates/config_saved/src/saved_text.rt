//! The saved text of a configuration, in pieces.
ghost use Rattle.std.specs.Prelude.{◌≡◌, ◌++◌, None};
ghost use Rattle.config_saved.specs.Saved.{saved_edits};
ghost use Rattle.config_saved.specs.Pieces.{WritesLine, WritesLines};
ghost use Rattle.config_saved.specs.Walk.{TakesFirst, edits_due, edits_left};

use crate::edits_left::EditsLeft;
use crate::write::append_line;
use bytes::BytesMut;
use config_lists::Edit;
use config_text::Full;
use nvt_config::Config;
use std::alloc::AllocError;
use std::marker::Model;

/// Why a piece of a text ends where it does.
#[derive(Clone, Copy, Debug, PartialEq, Eq)]
pub enum PieceEnd {
    /// Nothing is left.
    Whole,
    /// The next line does not fit the buffer's spare room.
    Full,
    /// No memory is for the next line.
    Memory,
}

/// What is left of the saved text of a configuration, which is written in pieces of whole lines. It owns the
/// configuration, so that nothing else that happens changes the text. A piece costs what it writes: where
/// the text goes on is kept. A contract sees the edits whose lines are left.
#[derive(Drop)]
pub struct SavedText {
    config: Config,
    left: EditsLeft,
    // The edit whose line did not fit the last piece.
    unwritten: Option<Edit>,
}

impl Model for SavedText {
    ghost use Rattle.std.specs.Prelude.{◌++◌, List};
    ghost use Rattle.config_lists.specs.declared.edit.Edit.{Edit};
    ghost use Rattle.config_saved.specs.Walk.{edits_due, edits_left};

    ghost Value = { List Edit };

    ghost view = { λ text. edits_due text.unwritten ++ edits_left text.config text.left };
}

impl SavedText {
    /// All of it.
    pub fn of(config: Config) -> SavedText
        ensures { result ≡ saved_edits config }
    {
        SavedText {
            config,
            left: EditsLeft::all(),
            unwritten: None,
        }
    }

    /// Appends the lines that are left, each with its end, up to the first that does not fit the buffer, or for
    /// which no memory is; answers which it was. Those lines are left then.
    pub fn write_lines(&mut self, out: &mut BytesMut) -> PieceEnd
        ensures { WritesLines self.old self.new out.old out.new result }
    {
        loop {
            if let Some(end) = self.write_line(out) {
                return end;
            }
        }
    }

    // Appends the next line; answers why not, where it does not.
    fn write_line(&mut self, out: &mut BytesMut) -> Option<PieceEnd>
        ensures { WritesLine self.old self.new out.old out.new result }
    {
        let edit = match next_edit(&mut self.unwritten, &mut self.left, &self.config) {
            Ok(Some(edit)) => edit,
            Ok(None) => return Some(PieceEnd::Whole),
            Err(AllocError) => return Some(PieceEnd::Memory),
        };
        match append_line(&edit, out) {
            Ok(()) => None,
            Err(Full) => {
                self.unwritten = Some(edit);
                Some(PieceEnd::Full)
            }
        }
    }
}

// The edit that was taken and not written, else the next one.
fn next_edit(
    unwritten: &mut Option<Edit>,
    left: &mut EditsLeft,
    config: &Config,
) -> Result<Option<Edit>, AllocError>
    ensures edit { TakesFirst (edits_due unwritten.old ++ edits_left config.now left.old)
        (edits_left config.now left.new) result }
    ensures none { unwritten.new ≡ None }
{
    match unwritten.take() {
        Some(edit) => Ok(Some(edit)),
        None => left.next(config),
    }
}
