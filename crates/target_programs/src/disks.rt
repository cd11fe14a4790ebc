//! The disks that arguments ask for.

ghost use Rattle.std.specs.Prelude.{IfOk};
ghost use Rattle.target_programs.specs.Disks.{EachIsSo, HasSize, Opens};

use crate::command_fault::CommandFault;
use crate::served_disk::ServedDisk;
use block_store::MemoryDisk;
use file_disk::{FileDisk, HostFile, OpenError, Start, measure, open};
use std::alloc::{AllocError, Global};
use std::fs::File;
use std::rt::Files;

/// A disk that arguments ask for. Edits number disks in their order, from 0 on.
#[derive(Drop)]
pub enum DiskArgument {
    /// In memory, of so many units of 512 bytes, of zeros at first.
    Memory(u64),
    /// The file or block device of this path.
    File(String),
}

/// A disk in memory, or in a file that held what `S` says.
pub(crate) type OpenedDisk<S> = ServedDisk<MemoryDisk, FileDisk<HostFile, S>>;

/// The size of each disk in units of 512 bytes. A file is looked at and not locked.
pub(crate) fn disk_sizes<R: Files<File = File> + AllocGlobal>(
    rt: &R,
    disks: &[DiskArgument],
) -> Result<Vec<u64>, CommandFault>
    ensures { IfOk result (λ sizes. EachIsSo HasSize disks.now sizes.items) }
{
    let mut sizes = Vec::new(rt.alloc());
    for disk in disks {
        let size = disk_size(rt, disk)?;
        match sizes.push(size) {
            Ok(()) => {}
            Err(failed) => return Err(CommandFault::from(AllocError::from(failed))),
        }
    }
    Ok(sizes)
}

fn disk_size<R: Files<File = File> + AllocGlobal>(
    rt: &R,
    disk: &DiskArgument,
) -> Result<u64, CommandFault>
    ensures { IfOk result (HasSize disk.now) }
{
    match disk {
        DiskArgument::Memory(units) => Ok(*units),
        DiskArgument::File(path) => match measure(rt, path.as_str()) {
            Ok(units) => Ok(units),
            Err(error) => Err(unusable(rt.alloc(), path.as_str(), error)),
        },
    }
}

/// The disks, of which those in files are locked. `S` says what these held.
pub(crate) fn opened_disks<R: Files<File = File> + AllocGlobal, S: Start>(
    rt: &R,
    disks: &[DiskArgument],
) -> Result<Vec<OpenedDisk<S>>, CommandFault>
    ensures { IfOk result (λ opened. EachIsSo Opens disks.now opened.items) }
{
    let mut opened = Vec::new(rt.alloc());
    for disk in disks {
        let disk = opened_disk(rt, opened.len() as u64, disk)?;
        match opened.push(disk) {
            Ok(()) => {}
            Err(failed) => return Err(CommandFault::from(AllocError::from(failed))),
        }
    }
    Ok(opened)
}

fn opened_disk<R: Files<File = File> + AllocGlobal, S: Start>(
    rt: &R,
    number: u64,
    disk: &DiskArgument,
) -> Result<OpenedDisk<S>, CommandFault>
    ensures { IfOk result (Opens disk.now) }
{
    match disk {
        DiskArgument::Memory(units) => {
            Ok(ServedDisk::Memory(MemoryDisk::new(rt.alloc(), *units)?))
        }
        DiskArgument::File(path) => match open(rt, path.as_str(), number) {
            Ok(disk) => Ok(ServedDisk::File(disk)),
            Err(error) => Err(unusable(rt.alloc(), path.as_str(), error)),
        },
    }
}

// The fault of a file that is no disk, or cannot be used.
fn unusable(alloc: Global, path: &str, error: OpenError) -> CommandFault {
    match String::from_str(alloc, path) {
        Ok(path) => CommandFault::Disk { path, error },
        Err(error) => CommandFault::from(error),
    }
}
