//! PDUs of hosts, typed from the formats.
use std::alloc::{AllocError, Global};
use testkit_edits::capsule;

// The first bytes of an entry, whose data are found by an SGL.
fn entry(opcode: u8, cid: u16) -> [u8; 64] {
    let [low, high] = cid.to_le_bytes();
    let mut entry = [0; 64];
    entry[0] = opcode;
    entry[1] = 0x40;
    entry[2] = low;
    entry[3] = high;
    entry
}

// Writes bytes at a place.
fn put(out: &mut [u8], place: usize, bytes: &[u8]) {
    for (offset, byte) in bytes.iter().enumerate() {
        if let Some(at) = out.get_mut(place.saturating_add(offset)) {
            *at = *byte;
        }
    }
}

/// A Keep Alive.
pub fn keep_alive(alloc: Global, cid: u16) -> Result<Vec<u8>, AllocError> {
    capsule(alloc, &entry(0x18, cid), &[])
}

/// A Get Log Page of so many bytes of the discovery log page.
pub fn log_page(alloc: Global, cid: u16, len: u32) -> Result<Vec<u8>, AllocError> {
    let mut entry = entry(0x02, cid);
    put(&mut entry, 32, &len.to_le_bytes());
    entry[39] = 0x5A;
    entry[40] = 0x70;
    put(&mut entry, 42, &(len / 4).saturating_sub(1).to_le_bytes());
    capsule(alloc, &entry, &[])
}

/// A Property Set of CC that enables the controller.
pub fn enable(alloc: Global) -> Result<Vec<u8>, AllocError> {
    let mut entry = entry(0x7F, 2);
    entry[44] = 0x14;
    put(&mut entry, 48, &[0x01, 0x00, 0x46, 0x00]);
    capsule(alloc, &entry, &[])
}

/// A Connect of CID 1 to the discovery subsystem, with a queue of 64 entries and no keep alive timeout.
pub fn connect(alloc: Global) -> Result<Vec<u8>, AllocError> {
    let mut entry = entry(0x7F, 1);
    entry[4] = 0x01;
    entry[33] = 0x04;
    entry[39] = 0x01;
    entry[44] = 63;
    let mut content = [0; 1024];
    content[16] = 0xFF;
    content[17] = 0xFF;
    put(&mut content, 256, b"nqn.2014-08.org.nvmexpress.discovery");
    put(&mut content, 512, b"nqn.2026-01.test:h1");
    capsule(alloc, &entry, &content)
}
