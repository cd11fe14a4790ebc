//! Bytes put into their places.

/// Puts bytes at a place; those that have no room there are left out.
pub fn put(into: &mut [u8], at: usize, bytes: &[u8]) {
    for (slot, byte) in into.iter_mut().skip(at).zip(bytes) {
        *slot = *byte;
    }
}
