//! A file of the operating system. Each method makes one call of the system that counts, and notes it
//! with its answer. No proof says that the call which is noted was made: whoever trusts a clause on what
//! such a file has reads the methods here.
ghost use Rattle.std.specs.Prelude.{◌≡◌, ◌<◌, ◌≤◌, [], length, map, IfOk};
ghost use Rattle.file_disk.specs.Note.{call_of};

use crate::calls::FileCalls;
use crate::record::Record;
use std::os::unix::fs::FileExt;
use std::{fs, io};

/// How often a call is made again that a signal interrupted. Only signals without end come to it.
const MAX_TRIES: u32 = 1 << 20;

/// An open file of the operating system.
#[derive(Drop)]
pub struct HostFile {
    file: fs::File,
    log: Record,
}

impl HostFile {
    /// This file, of which no call is noted yet.
    pub(crate) fn new(file: fs::File) -> HostFile
        ensures { result.log.notes ≡ [] }
    {
        HostFile {
            file,
            log: Record::new(),
        }
    }
}

// Reads some bytes, again where a signal interrupts the call. No byte is the end of the file.
fn read_some(file: &fs::File, offset: u64, out: &mut [u8]) -> io::Result<usize>
    ensures { IfOk result (λ count. (0 < count) × (count ≤ length out.old)) }
{
    for _ in 0..MAX_TRIES {
        match file.read_at(out, offset) {
            Ok(0) => return Err(io::ErrorKind::UnexpectedEof.into()),
            Ok(count) => return Ok(count),
            Err(error) if error.kind() == io::ErrorKind::Interrupted => {}
            Err(error) => return Err(error),
        }
    }
    Err(io::ErrorKind::Interrupted.into())
}

// Writes some bytes, again where a signal interrupts the call.
fn write_some(file: &fs::File, offset: u64, bytes: &[u8]) -> io::Result<usize>
    ensures { IfOk result (λ count. (0 < count) × (count ≤ length bytes.now)) }
{
    for _ in 0..MAX_TRIES {
        match file.write_at(bytes, offset) {
            Ok(0) => return Err(io::ErrorKind::WriteZero.into()),
            Ok(count) => return Ok(count),
            Err(error) if error.kind() == io::ErrorKind::Interrupted => {}
            Err(error) => return Err(error),
        }
    }
    Err(io::ErrorKind::Interrupted.into())
}

impl FileCalls for HostFile {
    ghost history = { λ file. map call_of file.log.notes };

    fn read_at(&mut self, offset: u64, out: &mut [u8]) -> io::Result<usize> {
        let answer = read_some(&self.file, offset, out);
        self.log.note_read(offset, out, &answer);
        answer
    }

    fn write_at(&mut self, offset: u64, bytes: &[u8]) -> io::Result<usize> {
        let answer = write_some(&self.file, offset, bytes);
        self.log.note_write(offset, bytes, &answer);
        answer
    }

    // The length of the file never changes, so its data alone has to last. The library makes the call
    // again where a signal interrupts it.
    fn sync(&mut self) -> io::Result<()> {
        let answer = self.file.sync_data();
        self.log.note_sync(&answer);
        answer
    }
}
