//! A plain list of bytes.

/// The bytes of a list from one on; all, where there are not so many.
pub fn part(bytes: &[u8], at: usize, len: usize) -> &[u8] {
    bytes.get(at..at.saturating_add(len)).unwrap_or(bytes)
}

/// Fills each block of 512 bytes with one byte, one block for each value.
pub fn fill(blocks: &mut [u8], values: &[u8]) {
    for (block, value) in blocks.chunks_exact_mut(512).zip(values) {
        block.fill(*value);
    }
}

/// Puts bytes into a list, as far as there are such places.
pub fn put(plain: &mut [u8], at: usize, bytes: &[u8]) {
    for (place, byte) in plain.iter_mut().skip(at).zip(bytes) {
        *place = *byte;
    }
}
