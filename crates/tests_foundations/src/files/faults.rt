//! Calls that fail.
use super::checked::{LEN, TestDisk, has, read, start, write, zero};
use block_store::{Disk, UNIT_LEN};
use file_disk::{Answer, FileDisk, MemoryFile, Unknown};
use std::test::Fail;

// Whether each call is a fault, and none is made of the system.
fn is_dead(disk: &mut TestDisk) -> bool {
    let calls = disk.file().calls();
    let mut out = [0; LEN];
    read(disk, 0, &mut out).is_err()
        && write(disk, 0, &[[1; UNIT_LEN]]).is_err()
        && zero(disk, 0, 1).is_err()
        && disk.sync().is_err()
        && disk.file().calls() == calls
}

#[test]
fn a_write_that_fails_between_units_leaves_a_front(rt: HostRuntime) -> Result<(), Fail> {
    let answers = [Answer::Whole, Answer::Short(512), Answer::Fault];
    let mut disk = start(rt.alloc(), &answers)?;
    assert!(rt; write(&mut disk, 1, &[[7; UNIT_LEN], [8; UNIT_LEN]]).is_err());
    assert!(rt; has(&mut disk, [0, 7, 0, 0]));
    assert!(rt; write(&mut disk, 1, &[[9; UNIT_LEN], [8; UNIT_LEN]]).is_ok());
    assert!(rt; has(&mut disk, [0, 9, 8, 0]));
    Ok(())
}

#[test]
fn a_write_that_fails_within_a_unit_is_the_last_call(rt: HostRuntime) -> Result<(), Fail> {
    let answers = [Answer::Whole, Answer::Short(700), Answer::Fault];
    let mut disk = start(rt.alloc(), &answers)?;
    assert!(rt; write(&mut disk, 1, &[[7; UNIT_LEN], [8; UNIT_LEN]]).is_err());
    assert_eq!(rt; disk.file().calls(), 3);
    assert!(rt; is_dead(&mut disk));
    Ok(())
}

#[test]
fn a_sync_that_fails_is_the_last_call(rt: HostRuntime) -> Result<(), Fail> {
    let answers = [Answer::Whole, Answer::Whole, Answer::Fault];
    let mut disk = start(rt.alloc(), &answers)?;
    assert!(rt; write(&mut disk, 0, &[[7; UNIT_LEN]]).is_ok());
    assert!(rt; disk.sync().is_err());
    assert_eq!(rt; disk.file().calls(), 3);
    assert!(rt; is_dead(&mut disk));
    Ok(())
}

#[test]
fn a_read_that_fails_is_made_again(rt: HostRuntime) -> Result<(), Fail> {
    let answers = [Answer::Whole, Answer::Short(100), Answer::Fault];
    let mut disk = start(rt.alloc(), &answers)?;
    let mut out = [0; LEN];
    assert!(rt; read(&mut disk, 0, &mut out).is_err());
    assert!(rt; has(&mut disk, [0, 0, 0, 0]));
    Ok(())
}

#[test]
fn the_end_of_the_file_is_a_fault(rt: HostRuntime) -> Result<(), Fail> {
    let alloc = rt.alloc();
    let file = MemoryFile::new(alloc, 1000, Vec::new(alloc))?;
    let Ok(mut disk) = FileDisk::<MemoryFile, Unknown>::new(file, 0, 4) else {
        return Err(Fail::new("no disk"));
    };
    let mut out = [0; UNIT_LEN];
    assert!(rt; read(&mut disk, 0, &mut out).is_ok());
    assert!(rt; read(&mut disk, 1, &mut out).is_err());
    assert!(rt; read(&mut disk, 3, &mut out).is_err());
    Ok(())
}

#[test]
fn a_file_that_cannot_be_synced_is_handed_back(rt: HostRuntime) -> Result<(), Fail> {
    let alloc = rt.alloc();
    let mut answers = Vec::new(alloc);
    answers.push(Answer::Fault)?;
    let file = MemoryFile::new(alloc, LEN, answers)?;
    match FileDisk::<MemoryFile, Unknown>::new(file, 0, 4) {
        Ok(_) => Err(Fail::new("a disk")),
        Err((_, file)) => {
            assert_eq!(rt; file.calls(), 1);
            Ok(())
        }
    }
}
