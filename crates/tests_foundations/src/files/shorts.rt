//! Calls that come short, and calls that are not made.
use super::checked::{LEN, has, in_file, read, start, write, zero};
use block_store::{Disk, UNIT_LEN};
use file_disk::{Answer, FileDisk, MemoryFile, Unknown};
use std::test::Fail;

#[test]
fn a_range_is_one_call(rt: HostRuntime) -> Result<(), Fail> {
    let mut disk = start(rt.alloc(), &[])?;
    assert!(rt; write(&mut disk, 1, &[[7; UNIT_LEN], [8; UNIT_LEN]]).is_ok());
    assert_eq!(rt; disk.file().calls(), 2);
    assert!(rt; has(&mut disk, [0, 7, 8, 0]));
    assert_eq!(rt; disk.file().calls(), 3);
    Ok(())
}

#[test]
fn short_calls_go_on_at_the_next_byte(rt: HostRuntime) -> Result<(), Fail> {
    let answers = [
        Answer::Whole,
        Answer::Short(100),
        Answer::Short(500),
        Answer::Whole,
        Answer::Short(1),
        Answer::Short(1000),
    ];
    let mut disk = start(rt.alloc(), &answers)?;
    assert!(rt; write(&mut disk, 1, &[[7; UNIT_LEN], [8; UNIT_LEN]]).is_ok());
    assert_eq!(rt; disk.file().calls(), 4);
    assert!(rt; has(&mut disk, [0, 7, 8, 0]));
    assert_eq!(rt; disk.file().calls(), 7);
    Ok(())
}

#[test]
fn a_unit_is_written_and_read(rt: HostRuntime) -> Result<(), Fail> {
    let mut disk = start(rt.alloc(), &[])?;
    let mut out = [0; UNIT_LEN];
    if disk.blocks() > 2 {
        assert!(rt; disk.write(2, &[9; UNIT_LEN]).is_ok());
    }
    if disk.blocks() > 2 {
        assert!(rt; disk.read(2, &mut out).is_ok());
    }
    assert!(rt; out == [9; UNIT_LEN]);
    assert!(rt; has(&mut disk, [0, 0, 9, 0]));
    Ok(())
}

#[test]
fn nothing_written_is_not_synced(rt: HostRuntime) -> Result<(), Fail> {
    let mut disk = start(rt.alloc(), &[])?;
    assert!(rt; disk.sync().is_ok());
    assert_eq!(rt; disk.file().calls(), 1);
    assert!(rt; write(&mut disk, 0, &[[7; UNIT_LEN]]).is_ok());
    assert!(rt; disk.sync().is_ok());
    assert!(rt; disk.sync().is_ok());
    assert_eq!(rt; disk.file().calls(), 3);
    Ok(())
}

#[test]
fn zeros_are_written_in_parts_of_64_kib(rt: HostRuntime) -> Result<(), Fail> {
    let alloc = rt.alloc();
    let file = MemoryFile::new(alloc, 300 * UNIT_LEN, Vec::new(alloc))?;
    let Ok(mut disk) = FileDisk::<MemoryFile, Unknown>::new(file, 0, 300) else {
        return Err(Fail::new("no disk"));
    };
    let sevens = vec![in alloc; [7; UNIT_LEN]; 300]?;
    assert!(rt; write(&mut disk, 0, &sevens).is_ok());
    assert!(rt; zero(&mut disk, 1, 298).is_ok());
    assert_eq!(rt; disk.file().calls(), 5);
    let mut out = vec![in alloc; 1; 300 * UNIT_LEN]?;
    assert!(rt; read(&mut disk, 0, &mut out).is_ok());
    for (place, byte) in out.iter().enumerate() {
        let is_at_an_end = place < 512 || place >= 153_088;
        assert_eq!(rt; *byte, if is_at_an_end { 7 } else { 0 }, "at {place}");
    }
    Ok(())
}

#[test]
fn what_is_synced_outlives_power(rt: HostRuntime) -> Result<(), Fail> {
    for (keeps, wanted) in [(true, [7, 8, 0, 0]), (false, [7, 0, 0, 0])] {
        let mut disk = start(rt.alloc(), &[])?;
        assert!(rt; write(&mut disk, 0, &[[7; UNIT_LEN]]).is_ok());
        assert!(rt; disk.sync().is_ok());
        assert!(rt; write(&mut disk, 1, &[[8; UNIT_LEN]]).is_ok());
        let file = disk.into_file();
        let file = if keeps {
            file.after_exit()
        } else {
            file.after_power_loss()
        };
        let mut again = in_file(file)?;
        assert!(rt; has(&mut again, wanted));
    }
    Ok(())
}

#[test]
fn a_lie_is_a_read_of_other_bytes(rt: HostRuntime) -> Result<(), Fail> {
    let mut disk = start(rt.alloc(), &[Answer::Whole, Answer::Lie])?;
    let mut out = [0; LEN];
    assert!(rt; read(&mut disk, 0, &mut out).is_ok());
    assert_eq!(rt; out[0], 1);
    assert!(rt; has(&mut disk, [0, 0, 0, 0]));
    Ok(())
}
