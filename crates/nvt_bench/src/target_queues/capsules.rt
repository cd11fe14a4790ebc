//! The capsules of a host that waits for events.
use std::alloc::{AllocError, Global};
use testkit_edits::capsule;

/// The log page that a response to an event request names, if any.
pub fn log_page(response: &[u8]) -> Option<u8> {
    match (response.get(8), response.get(10)) {
        (Some(2), Some(page)) => Some(*page),
        _ => None,
    }
}

/// A Set Features of CID 3: events of namespaces and of ANA groups.
pub fn enable_events(alloc: Global) -> Result<Vec<u8>, AllocError> {
    let mut entry = [0u8; 64];
    entry[..3].copy_from_slice(&[0x09, 0x40, 3]);
    entry[40] = 0x0B;
    entry[45] = 0x09;
    capsule(alloc, &entry, &[])
}

/// An Asynchronous Event Request.
pub fn event_request(alloc: Global, cid: u8) -> Result<Vec<u8>, AllocError> {
    let mut entry = [0u8; 64];
    entry[..3].copy_from_slice(&[0x0C, 0x40, cid]);
    capsule(alloc, &entry, &[])
}

/// An Identify of CID 4: the list of all active namespaces.
pub fn list_read(alloc: Global) -> Result<Vec<u8>, AllocError> {
    let mut entry = [0u8; 64];
    entry[..3].copy_from_slice(&[0x06, 0x40, 4]);
    entry[33] = 0x10;
    entry[39] = 0x5A;
    entry[40] = 0x02;
    capsule(alloc, &entry, &[])
}

/// A Get Log Page of CID 4 with RAE 0, of so many bytes from the beginning.
pub fn log_read(alloc: Global, page: u8, len: u16) -> Result<Vec<u8>, AllocError> {
    let mut entry = [0u8; 64];
    entry[..8].copy_from_slice(&[0x02, 0x40, 4, 0, 0xFF, 0xFF, 0xFF, 0xFF]);
    entry[32..34].copy_from_slice(&len.to_le_bytes());
    entry[39] = 0x5A;
    entry[40] = page;
    entry[42..44].copy_from_slice(&(len / 4).saturating_sub(1).to_le_bytes());
    capsule(alloc, &entry, &[])
}
