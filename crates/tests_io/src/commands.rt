//! Commands on blocks 1 to 3: the calls of its disk that each makes, and how it is answered.
use block_store::Disk;
use testkit_targets::queues::{
    COMPARE_FAILURE, Command, Driver, Opcode, READ_ERROR, SMALL, SUCCESS, WRITE_FAULT, fill, part,
    put,
};

pub const BLOCKS: usize = 6;

pub const LEN: usize = BLOCKS * 512;

// The bytes of each block at first, and what is written to blocks 1 to 3.
const BEFORE: [u8; BLOCKS] = [1, 2, 3, 4, 5, 6];

const WRITTEN: [u8; 3] = [7, 8, 9];

/// How often a disk was read, written and synced, and how many writes came after the latest sync.
#[derive(Clone, Copy, PartialEq, Eq)]
pub struct Calls {
    pub reads: u8,
    pub writes: u8,
    pub syncs: u8,
    pub unsynced: u8,
}

pub const NONE: Calls = Calls {
    reads: 0,
    writes: 0,
    syncs: 0,
    unsynced: 0,
};

const READS: Calls = Calls { reads: 3, ..NONE };

const SYNC: Calls = Calls { syncs: 1, ..NONE };

const WRITES: Calls = Calls {
    writes: 3,
    unsynced: 3,
    ..NONE
};

const SYNCED_WRITES: Calls = Calls {
    writes: 3,
    syncs: 1,
    ..NONE
};

/// How a command comes: with FUA, or without; its data in its capsule, or asked for; and what it compares as it stands on
/// the disk, or different from the first block on.
#[derive(Clone, Copy, PartialEq, Eq)]
pub enum How {
    Plain,
    Fua,
    AskedFor,
    AskedForFua,
    Different,
    DifferentAskedFor,
}

impl How {
    fn has_fua(self) -> bool {
        self == How::Fua || self == How::AskedForFua
    }

    fn is_asked_for(self) -> bool {
        self == How::AskedFor || self == How::AskedForFua || self == How::DifferentAskedFor
    }

    fn is_different(self) -> bool {
        self == How::Different || self == How::DifferentAskedFor
    }
}

/// A command, how it comes, and the calls that the disk gets for it.
pub type Row = (Opcode, How, Calls);

pub const ROWS: [Row; 14] = [
    (Opcode::Read, How::Plain, READS),
    (Opcode::Read, How::Fua, READS),
    (Opcode::Compare, How::Plain, READS),
    (Opcode::Compare, How::Fua, READS),
    (Opcode::Compare, How::AskedFor, READS),
    (Opcode::Compare, How::Different, READS),
    (Opcode::Compare, How::DifferentAskedFor, READS),
    (Opcode::Write, How::Plain, WRITES),
    (Opcode::Write, How::Fua, SYNCED_WRITES),
    (Opcode::Write, How::AskedFor, WRITES),
    (Opcode::Write, How::AskedForFua, SYNCED_WRITES),
    (Opcode::WriteZeroes, How::Plain, WRITES),
    (Opcode::WriteZeroes, How::Fua, SYNCED_WRITES),
    (Opcode::Flush, How::Plain, SYNC),
];

/// All blocks as they are at first.
pub fn before() -> [u8; LEN] {
    let mut bytes = [0u8; LEN];
    fill(&mut bytes, &BEFORE);
    bytes
}

/// What is written to three blocks.
pub fn written() -> [u8; 1536] {
    let mut bytes = [0u8; 1536];
    fill(&mut bytes, &WRITTEN);
    bytes
}

/// All blocks once the command of a row was done.
pub fn after(row: &Row) -> [u8; LEN] {
    let mut bytes = before();
    match row.0 {
        Opcode::Write => put(&mut bytes, 512, &written()),
        Opcode::WriteZeroes => put(&mut bytes, 512, &[0; 1536]),
        Opcode::Flush | Opcode::Read | Opcode::Compare => {}
    }
    bytes
}

/// Whether a host connects, and writes all blocks as they are to be at first.
pub fn begins<D: Disk + Drop>(driver: &mut Driver<D>) -> bool {
    let all = Command::of(Opcode::Write, 1, 0, 6);
    driver.begin(&[SMALL]) && driver.writes(0, &all, &before())
}

// Whether the command of a row is answered with these data, or none, and this status.
fn is_answered<D: Disk + Drop>(
    driver: &mut Driver<D>,
    row: &Row,
    read: &[u8],
    status: [u8; 2],
) -> bool {
    let (opcode, how, _) = *row;
    let command = Command::of(opcode, 1, 1, 3).with_fua(how.has_fua());
    let (before, written) = (before(), written());
    let data: &[u8] = match opcode {
        Opcode::Read | Opcode::Flush | Opcode::WriteZeroes => &[],
        Opcode::Compare if !how.is_different() => part(&before, 512, 1536),
        Opcode::Compare | Opcode::Write => &written,
    };
    if how.is_asked_for() {
        driver.answers_data(0, &command, data, status)
    } else {
        driver.answers(0, &command, data, read, status)
    }
}

/// Whether the command of a row is answered as one at which the disk failed.
pub fn fails<D: Disk + Drop>(driver: &mut Driver<D>, row: &Row) -> bool {
    let fault = match row.0 {
        Opcode::Read | Opcode::Compare => READ_ERROR,
        Opcode::Flush | Opcode::Write | Opcode::WriteZeroes => WRITE_FAULT,
    };
    is_answered(driver, row, &[], fault)
}

/// Whether it is answered as one at which the disk did not fail.
pub fn is_done<D: Disk + Drop>(driver: &mut Driver<D>, row: &Row) -> bool {
    let before = before();
    let read: &[u8] = match row.0 {
        Opcode::Read => part(&before, 512, 1536),
        Opcode::Flush | Opcode::Write | Opcode::Compare | Opcode::WriteZeroes => &[],
    };
    let status = if row.1.is_different() {
        COMPARE_FAILURE
    } else {
        SUCCESS
    };
    is_answered(driver, row, read, status)
}
