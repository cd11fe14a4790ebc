//! What a target sends, typed from the formats of NVMe over TCP, in numbers of four bytes.
use crate::plain::bytes::{lay, pad, pair, part};
use std::alloc::AllocError;

/// An ICResp with PFV 0, CPDA 0, no digest and MAXH2CDATA 16,384.
pub fn ic_resp(out: &mut Vec<u8>) -> Result<(), AllocError> {
    lay(out, &[0x0080_0001, 128, 0, 16_384])?;
    pad(out, 128)
}

/// A CapsuleResp.
pub fn response(
    out: &mut Vec<u8>,
    cid: u16,
    head: u16,
    value: u32,
    status: u16,
) -> Result<(), AllocError> {
    let head = u32::from(head);
    lay(out, &[0x0018_0005, 24, value, 0, head, pair(cid, status)])
}

/// A C2HData with all data of a command, at most 32,768 bytes.
pub fn data(out: &mut Vec<u8>, cid: u16, bytes: &[u8]) -> Result<(), AllocError> {
    let len = bytes.len().min(32_768) as u32;
    let plen = len.saturating_add(24);
    lay(out, &[0x1818_0407, plen, u32::from(cid), 0, len, 0])?;
    out.extend_from_slice(bytes)
}

/// An R2T for all data of a command.
pub fn ready(out: &mut Vec<u8>, cid: u16, ttag: u16, len: u32) -> Result<(), AllocError> {
    lay(out, &[0x0018_0009, 24, pair(cid, ttag), 0, len, 0])
}

/// What is wrong with a PDU: FES and FEI.
#[derive(Clone, Copy)]
pub struct Fault {
    pub status: u32,
    pub place: u32,
}

/// A C2HTermReq with the header of the PDU in error, of so many bytes.
pub fn term_req(out: &mut Vec<u8>, fault: Fault, pdu: &[u8], header: u8) -> Result<(), AllocError> {
    let plen = u32::from(header).saturating_add(24);
    // FEI stands behind the two bytes of FES.
    let information = fault.place.saturating_mul(0x1_0000);
    lay(
        out,
        &[
            0x0018_0003,
            plen,
            fault.status.saturating_add(information),
            0,
            0,
            0,
        ],
    )?;
    out.extend_from_slice(part(pdu, 0, usize::from(header)))
}
