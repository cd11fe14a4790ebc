//! The output of a replay, with words behind each PDU.
ghost use Rattle.std.specs.Io.KnownBytes.{Appends, Keeps, WriteAppends};
ghost use Rattle.std.specs.Io.{WritesAtMost};
ghost use Rattle.std.specs.Prelude.{◌∷◌, ◌++◌, ℕ, List, ◌≡◌, ◌≤◌, [], length, take, IfOk, OnErr, OnOk};
ghost use Rattle.std.specs.Prelude.{None, replicate, Option, Ok};
ghost use Rattle.replay_words.specs.Explained.{Passes, WasHeard, kept, words_behind};
ghost use Rattle.replay_words.specs.Notes.{HearsLine, Noted, NotesLine};
ghost use Rattle.replay_words.specs.Told.{Tells};

use crate::notes::{Note, Notes};
use config_text::find_byte;
use std::alloc::{AllocError, Global};
use std::io::{self, Write};

// As much of a line as a note needs: a number, ` pdu ` and the digits of 8,192 bytes.
const LINE_HEAD: usize = 20 + 5 + 16384;

// No note is longer.
const NOTE_MAX: usize = 2048;

/// Passes on what is written to it, byte for byte, but for ` # ` and words behind each line `K pdu
/// HEX`, and writes lines for the PDUs of hosts that it hears. After an error it is not known how
/// much of the note at a line's end was passed on.
#[derive(Drop)]
pub struct Explained<'a, W: Write> {
    out: &'a mut W,
    notes: Notes,
    // The first bytes of the line that is being written.
    line: Vec<u8>,
    note: Vec<u8>,
}

impl<'a, W: Write> Explained<'a, W> {
    /// Explains what is written from here on to `out`.
    pub fn new(alloc: Global, out: &'a mut W) -> Result<Explained<'a, W>, AllocError>
        ensures line { IfOk result (λ explained. explained.line.items ≡ []) }
        ensures notes { IfOk result (λ explained. explained.notes ≡ replicate 64 None) }
        ensures out { IfOk result (λ explained. explained.out.now ≡ out.old) }
    {
        let notes = Notes::new(alloc)?;
        let line = Vec::with_capacity(alloc, LINE_HEAD)?;
        let note = Vec::with_capacity(alloc, NOTE_MAX)?;
        Ok(Explained {
            out,
            notes,
            line,
            note,
        })
    }

    /// Hears a line of the script, without its end, before it is played, and writes a line `K host # `
    /// and words for each PDU that it completes of what the host of connection K sends. After an
    /// error nothing was heard, and it is not known how much of these lines was written.
    pub fn hears_line(&mut self, line: &[u8]) -> io::Result<()>
        ensures heard { OnOk result
            (Tells (W.contents self.old.out.now) (W.contents self.new.out.now)
            (HearsLine line.now self.old.notes self.new.notes)) }
        ensures was_heard { OnOk result (WasHeard line.now self.new.notes) }
        ensures line { self.new.line ≡ self.old.line }
        ensures err { OnErr result (self.new.notes ≡ self.old.notes) }
    {
        self.notes.hears_line(line, self.out)
    }

    // Passes on the end of a line, behind the words of its note.
    fn end_line(&mut self) -> io::Result<()>
        ensures line { OnOk result (self.new.line.items ≡ []) }
        ensures noted { OnOk result ((note : Option Noted)
            × NotesLine self.old.line.items self.old.notes self.new.notes (Ok note)
            × Appends (W.contents self.old.out.now) (W.contents self.new.out.now)
            (words_behind note ++ 10 ∷ [])) }
    {
        let note = self.notes.note(&self.line)?;
        self.note.clear();
        write_words(&mut self.note, note)?;
        self.note.push(b'\n')?;
        self.line.clear();
        self.out.write_all(&self.note)
    }

    // Keeps what the note on the line may need.
    fn keep(&mut self, piece: &[u8]) -> Result<(), AllocError>
        ensures line { OnOk result (self.new.line.items ≡ kept self.old.line.items piece.now) }
        ensures notes { self.new.notes ≡ self.old.notes }
        ensures out { self.new.out ≡ self.old.out }
    {
        let room = LINE_HEAD.saturating_sub(self.line.len());
        let kept = room.min(piece.len());
        self.line.extend_from_slice(&piece[..kept])
    }

    // Passes on a part of a line, or the end of one.
    fn pass(&mut self, buf: &[u8]) -> io::Result<usize>
        ensures bound { IfOk result (λ n. n ≤ length buf.now) }
        ensures passed { IfOk result (λ n. Passes self.old.line.items self.new.line.items
            self.old.notes self.new.notes (take n buf.now)
            (W.contents self.old.out.now) (W.contents self.new.out.now)) }
        ensures end { (rest : List ℕ) → buf.now ≡ 10 ∷ rest → IfOk result (λ n. n ≡ 1) }
    {
        let len = find_byte(buf, b'\n');
        if len > 0 {
            let (piece, _) = buf.split_at(len);
            let taken = self.out.write(piece)?;
            let (passed, _) = piece.split_at(taken);
            self.keep(passed)?;
            return Ok(taken);
        }
        if buf.is_empty() {
            return Ok(0);
        }
        self.end_line()?;
        Ok(1)
    }
}

impl<W: Write> Write for Explained<'_, W> {
    fn write(&mut self, buf: &[u8]) -> io::Result<usize>
        ensures bound { WritesAtMost result buf.now }
        ensures bytes { WriteAppends None None result buf.now }
        ensures passed { IfOk result (λ n. Passes self.old.line.items self.new.line.items
            self.old.notes self.new.notes (take n buf.now)
            (W.contents self.old.out.now) (W.contents self.new.out.now)) }
        ensures end { (rest : List ℕ) → buf.now ≡ 10 ∷ rest → IfOk result (λ n. n ≡ 1) }
    {
        self.pass(buf)
    }

    fn flush(&mut self) -> io::Result<()>
        ensures bytes { Keeps None None }
        ensures out { Keeps (W.contents self.old.out.now) (W.contents self.new.out.now) }
        ensures line { self.new.line ≡ self.old.line }
        ensures notes { self.new.notes ≡ self.old.notes }
    {
        self.out.flush()
    }
}

// Appends the words of a note, if there is one.
fn write_words(text: &mut Vec<u8>, note: Option<Note>) -> io::Result<()>
    ensures { OnOk result (text.new.items ≡ text.old.items ++ words_behind note) }
{
    match note {
        Some(note) => {
            let described = note.described();
            write!(text, " # {described}")
        }
        None => Ok(()),
    }
}
