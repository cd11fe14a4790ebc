//! The files that arguments name.

ghost use Rattle.std.specs.Prelude.{◌^◌, ◌≤◌, IfErr, IfOk, length};
ghost use Rattle.edit_lines.specs.Fault.{IsOfRun};

use edit_lines::ReplayFault;
use std::alloc::Global;
use std::fs::File;
use std::io::{ErrorKind, Read};
use std::rt::Files;

const FILE_MAX: usize = 1 << 26;

/// The bytes of a file, of at most 2^26. One that cannot be read or is longer is `Io`.
pub fn read_file<R: Files>(rt: &R, alloc: Global, path: &str) -> Result<Vec<u8>, ReplayFault>
    ensures ok { IfOk result (λ bytes. length bytes.items ≤ 2 ^ 26) }
    ensures fault { IfErr result IsOfRun }
{
    read_file_into(rt, Vec::new(alloc), path)
}

/// The same, read into this vector, behind what it holds, which counts too.
pub fn read_file_into<R: Files>(
    rt: &R,
    mut bytes: Vec<u8>,
    path: &str,
) -> Result<Vec<u8>, ReplayFault>
    ensures ok { IfOk result (λ bytes. length bytes.items ≤ 2 ^ 26) }
    ensures fault { IfErr result IsOfRun }
{
    let Ok(file) = File::open(rt, path) else {
        return Err(ReplayFault::Io);
    };
    match file.take(FILE_MAX as u64 + 1).read_to_end(&mut bytes) {
        Ok(_) if bytes.len() <= FILE_MAX => Ok(bytes),
        Err(error) if error.kind() == ErrorKind::OutOfMemory => Err(ReplayFault::Memory),
        _ => Err(ReplayFault::Io),
    }
}
