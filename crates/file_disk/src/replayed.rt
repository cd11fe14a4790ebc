//! A file as its calls tell of it.
ghost use Rattle.std.specs.Prelude.{◌≡◌, ◌⊎◌, ◌<◌, ◌≤◌, ℕ, false, [], ◌∷◌, length, take, IfOk, MatchResult};
ghost use Rattle.file_disk.specs.Call.{read, unread, written, unwritten, synced, unsynced};
ghost use Rattle.file_disk.specs.Held.{units_held};
ghost use Rattle.file_disk.specs.Replay.{replay, after_call};

use crate::calls::FileCalls;
use crate::start::Start;
use block_store::UNIT_LEN;
use std::io;
use std::marker::{Model, PhantomData};

/// An open file, of which clauses see what its calls and their answers make of what it held. Once a
/// sync or a write within a unit has failed it is dead: no call is made on it then.
#[derive(Drop)]
pub(crate) struct ReplayedFile<C: FileCalls, S: Start> {
    calls: C,
    start: PhantomData<S>,
    // Which file of `S`. Only clauses read it.
    number: u64,
    // How many units of the file count. Only clauses read it.
    units: u64,
    is_dead: bool,
    // Whether something was written since the latest sync that succeeded.
    is_dirty: bool,
}

impl<C: FileCalls, S: Start> Model for ReplayedFile<C, S> {
    ghost use Rattle.std.specs.Prelude.{◌≡◌, false};
    ghost use Rattle.file_disk.specs.Held.{units_held};
    ghost use Rattle.file_disk.specs.Replay.{Replayed, replay};

    ghost Value = { Replayed };

    ghost view = { λ file. replay (units_held (S.held file.number) file.units) (C.history file.calls) };

    ghost invariant = { λ file. let now = replay (units_held (S.held file.number) file.units) (C.history file.calls) in
        (file.is_dead ≡ now.is_dead) × (file.is_dirty ≡ false → now.synced ≡ now.contents) };
}

impl<C: FileCalls, S: Start> ReplayedFile<C, S> {
    /// The file of that number, of so many units, on which one call was made: it was synced.
    pub(crate) fn new(calls: C, number: u64, units: u64) -> ReplayedFile<C, S>
        requires { C.history calls ≡ synced ∷ [] }
        ensures { result ≡ replay (units_held (S.held number) units) (synced ∷ []) }
    {
        ReplayedFile {
            calls,
            start: PhantomData,
            number,
            units,
            is_dead: false,
            is_dirty: false,
        }
    }

    /// The file whose calls these are.
    pub(crate) fn calls(&self) -> &C
        ensures { (number : ℕ) × (units : ℕ) × (self.now ≡ replay (units_held (S.held number) units) (C.history result.now)) }
    {
        &self.calls
    }

    /// The same, handed back.
    pub(crate) fn into_calls(self) -> C
        ensures { (number : ℕ) × (units : ℕ) × (self ≡ replay (units_held (S.held number) units) (C.history result)) }
    {
        self.calls
    }

    /// Whether no call may be made any more.
    pub(crate) fn is_dead(&self) -> bool
        ensures { result ≡ self.now.is_dead }
    {
        self.is_dead
    }

    /// Reads some bytes from that offset on into the front of `out`, and answers how many.
    pub(crate) fn read_some(&mut self, offset: u64, out: &mut [u8]) -> io::Result<usize>
        requires alive { self.old.is_dead ≡ false }
        requires some { 0 < length out.old }
        ensures count { IfOk result (λ count. (0 < count) × (count ≤ length out.old)) }
        ensures read { MatchResult result
            (λ count. self.new ≡ after_call (read offset (take count out.new)) self.old)
            (λ _. self.new ≡ after_call (unread offset (length out.old)) self.old) }
    {
        self.calls.read_at(offset, out)
    }

    /// Writes a front of the bytes at that offset, and answers how many. A failure within a unit is
    /// its last call.
    pub(crate) fn write_some(&mut self, offset: u64, bytes: &[u8]) -> io::Result<usize>
        requires alive { self.old.is_dead ≡ false }
        requires some { 0 < length bytes.now }
        ensures count { IfOk result (λ count. (0 < count) × (count ≤ length bytes.now)) }
        ensures written { MatchResult result
            (λ count. self.new ≡ after_call (written offset (take count bytes.now)) self.old)
            (λ _. self.new ≡ after_call (unwritten offset (length bytes.now)) self.old) }
    {
        self.is_dirty = true;
        let answer = self.calls.write_at(offset, bytes);
        if answer.is_err() {
            self.is_dead = !(offset % UNIT_LEN as u64 == 0);
        }
        answer
    }

    /// Makes what was written last. A failure is its last call: the system may have dropped what was
    /// written, and does not say so again.
    pub(crate) fn sync(&mut self) -> io::Result<()>
        requires alive { self.old.is_dead ≡ false }
        ensures synced { MatchResult result
            (λ _. (self.new ≡ after_call synced self.old) ⊎ ((self.old.synced ≡ self.old.contents) × (self.new ≡ self.old)))
            (λ _. self.new ≡ after_call unsynced self.old) }
    {
        if !self.is_dirty {
            return Ok(());
        }
        let answer = self.calls.sync();
        match answer {
            Ok(()) => self.is_dirty = false,
            Err(_) => self.is_dead = true,
        }
        answer
    }
}
