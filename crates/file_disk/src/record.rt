//! A list of calls that only clauses read. Its two first functions are proved by hand, since no memory
//! holds what they set; no other proof is.
ghost use Rattle.std.specs.Prelude.{◌≡◌, ◌≤◌, List, [], ◌∷◌, length, map, take, IfOk, MatchResult};
ghost use Rattle.std.specs.Borrow.{ftrue};
ghost use Rattle.file_disk.specs.Call.{read, unread, written, unwritten, synced, unsynced};
ghost use Rattle.file_disk.specs.Note.{Note, note_of, call_of};

use std::io;
use std::marker::{Model, PhantomData};

// The kinds of calls, as `call_by` of specs/Note.antt tells them.
const READ: u64 = 0;

const UNREAD: u64 = 1;

const WRITTEN: u64 = 2;

const UNWRITTEN: u64 = 3;

const SYNCED: u64 = 4;

const UNSYNCED: u64 = 5;

/// The calls of the system on one open file, the newest first. No memory holds them.
#[derive(Drop)]
pub struct Record {
    marker: PhantomData<u8>,
    pub ghost notes: { List Note },
}

impl Model for Record {
    ghost also_owns = { λ _. ftrue };
}

impl Record {
    /// The record of a file on which no call was made.
    pub(crate) fn new() -> Record
        ensures { result.notes ≡ [] }
    {
        Record {
            marker: PhantomData,
        }
    }

    /// Notes one more call: its kind, an offset and a count in bytes, and bytes.
    pub(crate) fn note(&mut self, _numbers: &[u64], _bytes: &[u8])
        ensures { self.new.notes ≡ note_of _numbers.now _bytes.now ∷ self.old.notes }
    {}

    /// Notes a read at that offset into `out`, with its answer.
    pub(crate) fn note_read(&mut self, offset: u64, out: &[u8], answer: &io::Result<usize>)
        requires { IfOk answer.now (λ count. count ≤ length out.now) }
        ensures { MatchResult answer.now
            (λ count. map call_of self.new.notes ≡ read offset (take count out.now) ∷ map call_of self.old.notes)
            (λ _. map call_of self.new.notes ≡ unread offset (length out.now) ∷ map call_of self.old.notes) }
    {
        match answer {
            Ok(count) => self.note(&[READ, offset, 0], &out[..*count]),
            Err(_) => self.note(&[UNREAD, offset, out.len() as u64], &[]),
        }
    }

    /// Notes a write of these bytes at that offset, with its answer.
    pub(crate) fn note_write(&mut self, offset: u64, bytes: &[u8], answer: &io::Result<usize>)
        requires { IfOk answer.now (λ count. count ≤ length bytes.now) }
        ensures { MatchResult answer.now
            (λ count. map call_of self.new.notes ≡ written offset (take count bytes.now) ∷ map call_of self.old.notes)
            (λ _. map call_of self.new.notes ≡ unwritten offset (length bytes.now) ∷ map call_of self.old.notes) }
    {
        match answer {
            Ok(count) => self.note(&[WRITTEN, offset, 0], &bytes[..*count]),
            Err(_) => self.note(&[UNWRITTEN, offset, bytes.len() as u64], &[]),
        }
    }

    /// Notes a sync with its answer.
    pub(crate) fn note_sync(&mut self, answer: &io::Result<()>)
        ensures { MatchResult answer.now
            (λ _. map call_of self.new.notes ≡ synced ∷ map call_of self.old.notes)
            (λ _. map call_of self.new.notes ≡ unsynced ∷ map call_of self.old.notes) }
    {
        match answer {
            Ok(()) => self.note(&[SYNCED, 0, 0], &[]),
            Err(_) => self.note(&[UNSYNCED, 0, 0], &[]),
        }
    }
}
