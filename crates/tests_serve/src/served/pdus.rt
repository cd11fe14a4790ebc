//! PDUs of hosts, and what a target answers them, typed from the formats.
use std::alloc::{AllocError, Global};
use testkit_edits::{capsule, ic_req};

/// The answer to an ICReq without wishes.
pub fn ic_resp() -> [u8; 128] {
    let mut pdu = [0; 128];
    pdu[0] = 0x01;
    pdu[2] = 0x80;
    pdu[4] = 0x80;
    pdu[13] = 0x40;
    pdu
}

/// The response to a command before the Connect: Command Sequence Error, Do Not Retry, SQHD 0.
pub fn refused_command(cid: u16) -> [u8; 24] {
    let [low, high] = cid.to_le_bytes();
    let mut pdu = [0; 24];
    pdu[0] = 0x05;
    pdu[2] = 0x18;
    pdu[4] = 0x18;
    pdu[20] = low;
    pdu[21] = high;
    pdu[22] = 0x18;
    pdu[23] = 0x80;
    pdu
}

/// A Property Get of CAP.
pub fn property_get(alloc: Global, cid: u16) -> Result<Vec<u8>, AllocError> {
    let [low, high] = cid.to_le_bytes();
    let mut entry = [0; 64];
    entry[0] = 0x7F;
    entry[1] = 0x40;
    entry[2] = low;
    entry[3] = high;
    entry[4] = 0x04;
    entry[40] = 0x01;
    capsule(alloc, &entry, &[])
}

/// What a host sends: an ICReq, and the commands 1 and 2.
pub fn pieces(alloc: Global) -> Result<Vec<Vec<u8>>, AllocError> {
    let mut pieces = Vec::with_capacity(alloc, 3)?;
    pieces.push(ic_req(alloc)?)?;
    pieces.push(property_get(alloc, 1)?)?;
    pieces.push(property_get(alloc, 2)?)?;
    Ok(pieces)
}

/// What it is answered for so many of these pieces.
pub fn answers(alloc: Global, count: u64) -> Result<Vec<u8>, AllocError> {
    let mut wanted = Vec::new(alloc);
    if count > 0 {
        wanted.extend_from_slice(&ic_resp())?;
    }
    for cid in 1..3 {
        if u64::from(cid) < count {
            wanted.extend_from_slice(&refused_command(cid))?;
        }
    }
    Ok(wanted)
}
