//! A file in memory, for tests.
ghost use Rattle.std.specs.Prelude.{◌≡◌, ◌≢◌, ◌↔◌, ◌+◌, ◌<◌, ◌≤◌, [], length, map, IfOk, IsOk};
ghost use Rattle.file_disk.specs.Note.{call_of};

use crate::calls::FileCalls;
use crate::record::Record;
use std::alloc::{AllocError, Global};
use std::io;

/// How a file in memory answers a call.
#[derive(Clone, Copy, Debug, PartialEq, Eq)]
pub enum Answer {
    /// As it is asked.
    Whole,
    /// With so many bytes at most, and one at least.
    Short(usize),
    /// With an error. It does nothing.
    Fault,
    /// Falsely: a read turns one bit of its first byte, and what else there is does nothing.
    Lie,
}

/// A file in memory, of which calls can fail, come short or lie, and whose machine can lose power.
#[derive(Drop)]
pub struct MemoryFile {
    bytes: Vec<u8>,
    // As the latest sync found them.
    kept: Vec<u8>,
    answers: Vec<Answer>,
    calls: usize,
    log: Record,
    ghost same: { length kept.items ≡ length bytes.items },
}

impl MemoryFile {
    /// A file of so many bytes, all zeros. The first calls are answered so, in this order, and all
    /// later ones as they are asked.
    pub fn new(alloc: Global, length: usize, answers: Vec<Answer>) -> Result<MemoryFile, AllocError>
        ensures { IfOk result (λ file. map call_of file.log.notes ≡ []) }
    {
        let bytes = vec![in alloc; 0; length]?;
        let kept = vec![in alloc; 0; length]?;
        Ok(MemoryFile {
            bytes,
            kept,
            answers,
            calls: 0,
            log: Record::new(),
        })
    }

    /// How many calls were made.
    pub fn calls(&self) -> usize {
        self.calls
    }

    /// The file as it is opened after its process ended: with all bytes that were written. It answers
    /// as it is asked.
    pub fn after_exit(self) -> MemoryFile
        ensures bytes { result.bytes.items ≡ self.bytes.items }
        ensures kept { result.kept.items ≡ self.kept.items }
        ensures fresh { map call_of result.log.notes ≡ [] }
    {
        let mut file = self;
        file.answers.clear();
        file.calls = 0;
        file.log = Record::new();
        file
    }

    /// The file as it is opened after its machine lost power: with the bytes that the latest sync
    /// found. It answers as it is asked.
    pub fn after_power_loss(self) -> MemoryFile
        ensures bytes { result.bytes.items ≡ self.kept.items }
        ensures fresh { map call_of result.log.notes ≡ [] }
    {
        let mut file = self.after_exit();
        file.restore();
        file
    }

    fn restore(&mut self)
        ensures bytes { self.new.bytes.items ≡ self.old.kept.items }
        ensures log { self.new.log ≡ self.old.log }
    {
        self.bytes.copy_from_slice(&self.kept);
    }

    fn next_answer(&mut self) -> Answer
        ensures log { self.new.log ≡ self.old.log }
    {
        let answer = self.answers.get(self.calls).copied();
        self.calls = self.calls.saturating_add(1);
        answer.unwrap_or(Answer::Whole)
    }
}

// How many of the bytes from that offset on are read or written, of so many that are asked for.
fn count_of(length: usize, answer: Answer, offset: u64, asked: usize) -> io::Result<usize>
    requires { 0 < asked }
    ensures count { IfOk result (λ count. (0 < count) × (count ≤ asked) × (offset + count ≤ length)) }
    ensures works { IsOk result ↔ (answer ≢ Answer.Fault) × (offset < length) }
{
    if answer == Answer::Fault {
        return Err(io::ErrorKind::Other.into());
    }
    let start = offset as usize;
    if start >= length {
        return Err(io::ErrorKind::UnexpectedEof.into());
    }
    let most = asked.min(length - start);
    match answer {
        Answer::Short(count) => Ok(count.clamp(1, most)),
        _ => Ok(most),
    }
}

impl FileCalls for MemoryFile {
    ghost history = { λ file. map call_of file.log.notes };

    fn read_at(&mut self, offset: u64, out: &mut [u8]) -> io::Result<usize> {
        let answer = self.next_answer();
        let count = count_of(self.bytes.len(), answer, offset, out.len());
        if let Ok(count) = count {
            let start = offset as usize;
            out[..count].copy_from_slice(&self.bytes[start..start + count]);
            if answer == Answer::Lie {
                out[0] ^= 1;
            }
        }
        self.log.note_read(offset, out, &count);
        count
    }

    fn write_at(&mut self, offset: u64, bytes: &[u8]) -> io::Result<usize> {
        let answer = self.next_answer();
        let count = count_of(self.bytes.len(), answer, offset, bytes.len());
        if let Ok(count) = count
            && answer != Answer::Lie
        {
            let start = offset as usize;
            self.bytes[start..start + count].copy_from_slice(&bytes[..count]);
        }
        self.log.note_write(offset, bytes, &count);
        count
    }

    fn sync(&mut self) -> io::Result<()> {
        let answer = match self.next_answer() {
            Answer::Fault => Err(io::ErrorKind::Other.into()),
            Answer::Lie => Ok(()),
            Answer::Whole | Answer::Short(_) => {
                self.kept.copy_from_slice(&self.bytes);
                Ok(())
            }
        };
        self.log.note_sync(&answer);
        answer
    }
}
