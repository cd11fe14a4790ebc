//! Numbers in bytes, and lists of bytes.
use std::alloc::AllocError;

/// A byte of a list; zeros stand behind its end.
pub fn byte_at(bytes: &[u8], at: usize) -> u8 {
    bytes.get(at).copied().unwrap_or(0)
}

/// The number of two bytes.
pub fn half_at(bytes: &[u8], at: usize) -> u16 {
    u16::from_le_bytes([byte_at(bytes, at), byte_at(bytes, at.saturating_add(1))])
}

/// The number of four bytes.
pub fn word_at(bytes: &[u8], at: usize) -> u32 {
    pair(half_at(bytes, at), half_at(bytes, at.saturating_add(2)))
}

/// The number whose low and high halves these are.
pub fn pair(low: u16, high: u16) -> u32 {
    u32::from(high)
        .saturating_mul(0x1_0000)
        .saturating_add(u32::from(low))
}

/// The bytes of a list from one on; none, where there are not so many.
pub fn part(bytes: &[u8], at: usize, len: usize) -> &[u8] {
    bytes.get(at..at.saturating_add(len)).unwrap_or(&[])
}

/// Appends numbers of four bytes each.
pub fn lay(out: &mut Vec<u8>, words: &[u32]) -> Result<(), AllocError> {
    for word in words {
        out.extend_from_slice(&word.to_le_bytes())?;
    }
    Ok(())
}

/// Appends zeros until a list has so many bytes.
pub fn pad(out: &mut Vec<u8>, len: usize) -> Result<(), AllocError> {
    for _ in out.len()..len {
        out.push(0)?;
    }
    Ok(())
}
