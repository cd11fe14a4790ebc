//! What a target sends, typed from the formats of NVMe over TCP.
use super::bytes::put;
use std::alloc::AllocError;

/// Status words.
pub const SUCCESS: u16 = 0;

pub const INVALID_FIELD: u16 = 0x8004;

pub const CID_CONFLICT: u16 = 0x8006;

pub const INVALID_NAMESPACE: u16 = 0x8016;

pub const SEQUENCE_ERROR: u16 = 0x8018;

pub const SGL_LENGTH_INVALID: u16 = 0x801E;

pub const SGL_TYPE_INVALID: u16 = 0x8022;

pub const REQUEST_LIMIT: u16 = 0x820A;

pub const INVALID_LOG_PAGE: u16 = 0x8212;

pub const NOT_SAVEABLE: u16 = 0x821A;

pub const INVALID_PARAMETERS: u16 = 0x8304;

pub const INVALID_HOST: u16 = 0x8308;

/// An ICResp.
pub fn ic_resp(out: &mut Vec<u8>) -> Result<(), AllocError> {
    let mut pdu = [0u8; 128];
    put(&mut pdu, 0, &[1, 0, 128, 0, 128]);
    pdu[13] = 0x40;
    out.extend_from_slice(&pdu)
}

/// A CapsuleResp.
pub fn response(
    out: &mut Vec<u8>,
    cid: u16,
    head: u8,
    value: u32,
    status: u16,
) -> Result<(), AllocError> {
    let mut pdu = [0u8; 24];
    put(&mut pdu, 0, &[5, 0, 24, 0, 24]);
    put(&mut pdu, 8, &value.to_le_bytes());
    pdu[16] = head;
    put(&mut pdu, 20, &cid.to_le_bytes());
    put(&mut pdu, 22, &status.to_le_bytes());
    out.extend_from_slice(&pdu)
}

fn data_header(cid: u16, len: u32) -> [u8; 24] {
    let mut header = [0u8; 24];
    put(&mut header, 0, &[7, 4, 24, 24]);
    put(&mut header, 4, &len.saturating_add(24).to_le_bytes());
    put(&mut header, 8, &cid.to_le_bytes());
    put(&mut header, 16, &len.to_le_bytes());
    header
}

/// A C2HData with so many bytes of a page, from one on, and zeros behind it. They are all data of its command.
pub fn data(
    out: &mut Vec<u8>,
    cid: u16,
    page: &[u8],
    offset: usize,
    len: u32,
) -> Result<(), AllocError> {
    out.extend_from_slice(&data_header(cid, len))?;
    let end = out.len().saturating_add(len as usize);
    out.extend_from_slice(page.get(offset..).unwrap_or(&[]))?;
    out.resize(end, 0)
}

/// A C2HTermReq for a capsule beyond SQSIZE.
pub fn too_many(out: &mut Vec<u8>, pdu: &[u8]) -> Result<(), AllocError> {
    let mut front = [0u8; 24];
    put(&mut front, 0, &[3, 0, 24, 0, 96, 0, 0, 0, 2]);
    out.extend_from_slice(&front)?;
    out.extend_from_slice(pdu.get(..72).unwrap_or(pdu))
}
