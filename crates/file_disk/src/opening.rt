//! Files and block devices are opened as disks.
ghost use Rattle.std.specs.Prelude.{◌≡◌, ◌≢◌, ◌↔◌, ◌*◌, ◌/◌, ◌%◌, ◌<◌, ◌≤◌, ◌^◌, [], ◌∷◌, IfOk, IsErrOf};
ghost use Rattle.file_disk.specs.Call.{synced};
ghost use Rattle.file_disk.specs.Held.{units_held};
ghost use Rattle.file_disk.specs.Replay.{replay};

use crate::disk::FileDisk;
use crate::host::HostFile;
use crate::start::Start;
use block_store::UNIT_LEN;
use std::fs::{File, OpenOptions, TryLockError};
use std::io::{Seek, SeekFrom};
use std::os::fd::AsRawFd;
use std::os::unix::fs::FileTypeExt;
use std::rt::Files;
use std::{fs, io};
use thiserror::Error;

/// The units that a disk in a file has at most: 512 TiB.
pub const MAX_UNITS: u64 = 1 << 40;

/// A file is no disk, or cannot be opened.
#[derive(Debug, Drop, Error)]
pub enum OpenError {
    /// What the system answered.
    #[error("{0}")]
    Io(#[from] io::Error),
    /// It is a folder, a terminal, a pipe or a socket.
    #[error("a disk is a regular file or a block device, and this is neither")]
    NoDisk,
    /// Another target has it open.
    #[error("another target uses this disk")]
    InUse,
    /// It has no byte.
    #[error("a disk has at least one unit of 512 bytes: this is empty")]
    Empty,
    /// It has so many bytes.
    #[error("a disk has whole units of 512 bytes: this has {0} bytes")]
    PartOfUnit(u64),
    /// It has so many units.
    #[error("a disk has at most 1099511627776 units of 512 bytes: this has {0}")]
    TooLong(u64),
}

/// The units of so many bytes.
fn units_in(bytes: u64) -> Result<u64, OpenError>
    ensures units { IfOk result (λ units. (units * 512 ≡ bytes) × (0 < units) × (units ≤ 2 ^ 40)) }
    ensures empty { IsErrOf result OpenError.Empty ↔ (bytes ≡ 0) }
    ensures part { IsErrOf result (OpenError.PartOfUnit bytes) ↔ (bytes % 512 ≢ 0) }
    ensures long { IsErrOf result (OpenError.TooLong (bytes / 512)) ↔ ((bytes % 512 ≡ 0) × (2 ^ 40 < bytes / 512)) }
{
    let units = bytes / UNIT_LEN as u64;
    if bytes == 0 {
        Err(OpenError::Empty)
    } else if bytes % UNIT_LEN as u64 != 0 {
        Err(OpenError::PartOfUnit(bytes))
    } else if units > MAX_UNITS {
        Err(OpenError::TooLong(units))
    } else {
        Ok(units)
    }
}

// Refuses what is neither a regular file nor a block device.
fn refuse_no_disk(kind: fs::FileType) -> Result<(), OpenError> {
    if kind.is_file() || kind.is_block_device() {
        Ok(())
    } else {
        Err(OpenError::NoDisk)
    }
}

// Opens the file, and refuses what is no disk: before, since to open a pipe may wait, and again, since
// another may have come in its place.
fn open_kept<R: Files<File = File>>(
    rt: &R,
    path: &str,
    options: &OpenOptions,
) -> Result<File, OpenError> {
    refuse_no_disk(fs::metadata(rt, path)?.file_type())?;
    let mut file = options.open(rt, path)?;
    // What is meant for a standard stream that was closed must not land in the disk.
    if file.as_raw_fd() <= 2 {
        file = file.try_clone()?;
    }
    refuse_no_disk(file.metadata()?.file_type())?;
    Ok(file)
}

// The units of an open file. The length of a block device is where it ends.
fn measure_open(file: &File) -> Result<u64, OpenError>
    ensures { IfOk result (λ units. (0 < units) × (units ≤ 2 ^ 40)) }
{
    let mut file = file;
    units_in(file.seek(SeekFrom::End(0))?)
}

/// The number of units of the file or block device at this path. It is opened for reading alone, and
/// not locked.
pub fn measure<R: Files<File = File>>(rt: &R, path: &str) -> Result<u64, OpenError>
    ensures { IfOk result (λ units. (0 < units) × (units ≤ 2 ^ 40)) }
{
    let mut options = OpenOptions::new();
    options.read(true);
    measure_open(&open_kept(rt, path, &options)?)
}

/// The disk in the file or block device at this path, the file of that number of `S`. It is not made,
/// cut or lengthened, and no other target opens it while this disk stands.
pub fn open<R: Files<File = File>, S: Start>(
    rt: &R,
    path: &str,
    number: u64,
) -> Result<FileDisk<HostFile, S>, OpenError>
    ensures units { IfOk result (λ disk. (0 < disk.units) × (disk.units ≤ 2 ^ 40)) }
    ensures opened { IfOk result (λ disk. disk.file ≡ replay (units_held (S.held number) disk.units) (synced ∷ [])) }
    ensures faults { IfOk result (λ disk. disk.faults ≡ 0) }
{
    let mut options = OpenOptions::new();
    options.read(true);
    options.write(true);
    let file = open_kept(rt, path, &options)?;
    match file.try_lock() {
        Ok(()) => {}
        Err(TryLockError::WouldBlock) => return Err(OpenError::InUse),
        Err(TryLockError::Error(error)) => return Err(OpenError::Io(error)),
    }
    let units = measure_open(&file)?;
    match FileDisk::new(HostFile::new(file), number, units) {
        Ok(disk) => Ok(disk),
        Err((error, _)) => Err(OpenError::Io(error)),
    }
}
