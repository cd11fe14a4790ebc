//! A plain slow program of transfers: a list of all of them, each found by looking from the beginning.
use data_transfer::{DataFault, Progress};
use std::alloc::{AllocError, Global};

/// A transfer, and where it stands.
#[derive(Drop)]
pub struct Plain {
    pub conn: usize,
    pub ttag: u16,
    pub cid: u16,
    pub command: u32,
    pub asked: usize,
    pub bytes: Vec<u8>,
}

/// An H2CData, and where it goes.
#[derive(Clone, Copy)]
pub struct Pdu<'a> {
    pub conn: usize,
    pub ttag: u16,
    pub cid: u16,
    pub offset: u32,
    pub datal: u32,
    pub bytes: &'a [u8],
}

/// The command that goes with an identifier.
pub fn command_of(cid: u16) -> u32 {
    u32::from(cid) * 3
}

/// How many bytes these are.
pub fn length(bytes: &[u8]) -> u32 {
    u32::try_from(bytes.len()).unwrap_or(u32::MAX)
}

/// The place in the list of what stands there.
pub fn place_of(list: &[Plain], conn: usize, ttag: u16) -> Option<usize> {
    list.iter()
        .position(|plain| plain.conn == conn && plain.ttag == ttag)
}

/// How many a connection has.
pub fn count(list: &[Plain], conn: usize) -> usize {
    list.iter().filter(|plain| plain.conn == conn).count()
}

/// Whether a connection has one of that command.
pub fn has_command(list: &[Plain], conn: usize, cid: u16) -> bool {
    list.iter()
        .any(|plain| plain.conn == conn && plain.cid == cid)
}

/// The first tag that no transfer of the connection has.
pub fn least_tag(list: &[Plain], conn: usize) -> u16 {
    for ttag in 0..u16::MAX {
        if place_of(list, conn, ttag).is_none() {
            return ttag;
        }
    }
    u16::MAX
}

/// A transfer is begun under that tag.
pub fn begin(
    alloc: Global,
    list: &mut Vec<Plain>,
    place: (usize, u16),
    cid: u16,
    asked: u32,
) -> Result<(), AllocError> {
    list.push(Plain {
        conn: place.0,
        ttag: place.1,
        cid,
        command: command_of(cid),
        asked: asked as usize,
        bytes: Vec::new(alloc),
    })?;
    Ok(())
}

// What is wrong with an H2CData for that transfer.
fn fault(plain: &Plain, pdu: Pdu<'_>) -> Option<DataFault> {
    let so_far = plain.bytes.len() as u64;
    let end = u64::from(pdu.offset).saturating_add(u64::from(pdu.datal));
    let wrong = [
        (plain.cid != pdu.cid, DataFault::OtherCommand),
        (
            pdu.datal as usize != pdu.bytes.len(),
            DataFault::LengthMismatch,
        ),
        (pdu.datal > 16_384, DataFault::TooLong),
        (u64::from(pdu.offset) != so_far, DataFault::OutOfRange),
        (end > plain.asked as u64, DataFault::OutOfRange),
    ];
    for (is_wrong, fault) in wrong {
        if is_wrong {
            return Some(fault);
        }
    }
    None
}

fn take(plain: &mut Plain, pdu: Pdu<'_>) -> Result<Result<Progress, DataFault>, AllocError> {
    if let Some(fault) = fault(plain, pdu) {
        return Ok(Err(fault));
    }
    for byte in pdu.bytes {
        plain.bytes.push(*byte)?;
    }
    if plain.bytes.len() < plain.asked {
        Ok(Ok(Progress::More))
    } else {
        Ok(Ok(Progress::Whole))
    }
}

/// An H2CData comes. What it is answered.
pub fn data(list: &mut [Plain], pdu: Pdu<'_>) -> Result<Result<Progress, DataFault>, AllocError> {
    for plain in list {
        if plain.conn == pdu.conn && plain.ttag == pdu.ttag {
            return take(plain, pdu);
        }
    }
    Ok(Err(DataFault::UnknownTag))
}

/// Takes out what stands there, if it is whole.
pub fn finish(list: &mut Vec<Plain>, conn: usize, ttag: u16) -> Option<Plain> {
    let place = place_of(list, conn, ttag)?;
    let is_whole = list
        .get(place)
        .is_some_and(|plain| plain.bytes.len() == plain.asked);
    if is_whole && place < list.len() {
        Some(list.remove(place))
    } else {
        None
    }
}

/// Drops all of a connection.
pub fn drop_queue(list: &mut Vec<Plain>, conn: usize) {
    list.retain(|plain| plain.conn != conn);
}
