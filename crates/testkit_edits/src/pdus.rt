//! PDUs that a host sends.
use std::alloc::{AllocError, Global};

/// An ICReq with both digests asked for.
pub fn ic_req(alloc: Global) -> Result<Vec<u8>, AllocError> {
    let mut pdu = [0u8; 128];
    pdu[2] = 128;
    pdu[4] = 128;
    pdu[11] = 3;
    Vec::from_slice(alloc, &pdu)
}

/// A capsule with this entry and data, at most 20,000 bytes.
pub fn capsule(alloc: Global, entry: &[u8; 64], data: &[u8]) -> Result<Vec<u8>, AllocError> {
    let plen = (72 + data.len().min(20_000) as u32).to_le_bytes();
    let pdo = if data.is_empty() { 0 } else { 72 };
    let mut pdu = Vec::from_slice(alloc, &[4, 0, 72, pdo, plen[0], plen[1], plen[2], plen[3]])?;
    pdu.extend_from_slice(entry)?;
    pdu.extend_from_slice(data)?;
    Ok(pdu)
}
