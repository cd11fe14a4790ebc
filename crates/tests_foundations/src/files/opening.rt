//! Disks in files of the system.
use super::checked::{has, read, write};
use block_store::{Disk, UNIT_LEN};
use file_disk::{FileDisk, HostFile, OpenError, Unknown, measure, open};
use std::fs;
use std::test::Fail;

const FOLDER: &str = "file_disk_test";

const PATH: &str = "file_disk_test/disk";

const REFUSED_FOLDER: &str = "file_disk_test_refused";

const REFUSED_PATH: &str = "file_disk_test_refused/disk";

fn open_disk(rt: &HostRuntime, path: &str) -> Result<FileDisk<HostFile, Unknown>, OpenError> {
    open::<_, Unknown>(rt, path, 0)
}

// The text of the refusal.
fn refusal(rt: &HostRuntime, path: &str) -> Result<String, Fail> {
    match open_disk(rt, path) {
        Ok(_) => Err(Fail::new("a disk")),
        Err(error) => Ok(format!(in rt.alloc(); "{error}")?),
    }
}

#[test]
fn a_file_is_written_and_read_again(rt: HostRuntime) -> Result<(), Fail> {
    let _ = fs::remove_dir_all(&rt, FOLDER);
    fs::create_dir(&rt, FOLDER)?;
    fs::write(&rt, PATH, [0; 2048].as_slice())?;
    let mut disk = open_disk(&rt, PATH)?;
    assert_eq!(rt; disk.blocks(), 4);
    assert!(rt; write(&mut disk, 1, &[[7; UNIT_LEN], [8; UNIT_LEN]]).is_ok());
    assert!(rt; disk.sync().is_ok());
    assert!(rt; has(&mut disk, [0, 7, 8, 0]));
    assert_eq!(rt;
        refusal(&rt, PATH)?.as_str(),
        "another target uses this disk"
    );
    assert_eq!(rt; measure(&rt, PATH)?, 4);
    drop(disk);
    let mut again = open_disk(&rt, PATH)?;
    assert!(rt; has(&mut again, [0, 7, 8, 0]));
    assert_eq!(rt; fs::metadata(&rt, PATH)?.len(), 2048);
    fs::remove_dir_all(&rt, FOLDER)?;
    Ok(())
}

#[test]
fn what_is_no_disk_is_refused(rt: HostRuntime) -> Result<(), Fail> {
    let _ = fs::remove_dir_all(&rt, REFUSED_FOLDER);
    fs::create_dir(&rt, REFUSED_FOLDER)?;
    fs::write(&rt, REFUSED_PATH, [0; 1000].as_slice())?;
    assert_eq!(rt;
        refusal(&rt, REFUSED_PATH)?.as_str(),
        "a disk has whole units of 512 bytes: this has 1000 bytes"
    );
    fs::write(&rt, REFUSED_PATH, b"".as_slice())?;
    assert_eq!(rt;
        refusal(&rt, REFUSED_PATH)?.as_str(),
        "a disk has at least one unit of 512 bytes: this is empty"
    );
    for path in [REFUSED_FOLDER, "/dev/null"] {
        assert_eq!(rt;
            refusal(&rt, path)?.as_str(),
            "a disk is a regular file or a block device, and this is neither"
        );
        assert!(rt; matches!(measure(&rt, path), Err(OpenError::NoDisk)));
    }
    assert!(rt;
        matches!(
            open_disk(&rt, "file_disk_test_refused/none"),
            Err(OpenError::Io(_))
        )
    );
    assert!(rt; !fs::exists(&rt, "file_disk_test_refused/none")?);
    fs::remove_dir_all(&rt, REFUSED_FOLDER)?;
    Ok(())
}

#[test]
fn a_disk_that_is_too_long_says_so(rt: HostRuntime) -> Result<(), Fail> {
    let error = OpenError::TooLong(1_099_511_627_777);
    assert_eq!(rt;
        format!(in rt.alloc(); "{error}")?.as_str(),
        "a disk has at most 1099511627776 units of 512 bytes: this has 1099511627777"
    );
    Ok(())
}
