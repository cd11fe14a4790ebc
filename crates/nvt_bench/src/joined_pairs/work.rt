//! The commands that are measured.
use crate::joined_pairs::commands::{read, write};
use crate::joined_pairs::pair::does_times;
use std::alloc::Global;
use std::fmt;

/// A command that a host does again and again, 31 at a time.
#[derive(Clone, Copy)]
pub enum PairWork {
    /// A Read of 4 KiB.
    Read,
    /// A Write of 128 KiB that are asked for.
    LongestWrite,
}

impl fmt::Display for PairWork {
    fn fmt<W: fmt::Write>(&self, f: &mut fmt::Formatter<W>) -> fmt::Result {
        f.write_str(match self {
            PairWork::Read => "Reads of 4 KiB",
            PairWork::LongestWrite => "Writes of 128 KiB by R2T",
        })
    }
}

/// Joins a host to a target over a disk in memory, and does a command so many times on one I/O queue; whether each time
/// it is answered with success, and as many bytes as are to be.
pub fn pair_runs(alloc: Global, work: PairWork, times: u32) -> bool {
    match work {
        PairWork::Read => does_times(alloc, &read(alloc, 1), times),
        PairWork::LongestWrite => match write(alloc, 32) {
            Ok(command) => does_times(alloc, &command, times),
            Err(_) => false,
        },
    }
}
