//! The data that a host sends where an R2T asked for them.
use std::alloc::{AllocError, Global};

/// The most bytes of data that an H2CData has.
pub const H2C_DATA_MAX: usize = 16_384;

/// An H2CData under TTAG 0 that brings a command these data, from a place on.
pub fn h2c_data(
    alloc: Global,
    cid: u8,
    place: u32,
    data: &[u8],
    is_last: bool,
) -> Result<Vec<u8>, AllocError> {
    let len = data.len().min(H2C_DATA_MAX) as u32;
    let mut header = [0u8; 24];
    header[..4].copy_from_slice(&[0x06, if is_last { 0x04 } else { 0x00 }, 0x18, 0x18]);
    header[4..8].copy_from_slice(&len.saturating_add(24).to_le_bytes());
    header[8] = cid;
    header[12..16].copy_from_slice(&place.to_le_bytes());
    header[16..20].copy_from_slice(&len.to_le_bytes());
    let mut pdu = Vec::from_slice(alloc, &header)?;
    pdu.extend_from_slice(data)?;
    Ok(pdu)
}
