//! PDUs of a controller, typed from the standard's tables (TCP Transport 1.0, section 3.6).
use std::alloc::{AllocError, Global};

/// A PDU that a controller sends.
#[derive(Clone, Copy)]
pub enum Sent {
    /// PFV, CPDA, DGST and MAXH2CDATA.
    IcResp(u16, u8, u8, u32),
    /// The command's identifier, the status word and the result.
    Response(u16, u16, u64),
    /// The command's identifier, the tag, the offset and the length.
    Request(u16, u16, u32, u32),
    /// FLAGS, the command's identifier, the offset, DATAL, and how many bytes of data there are.
    Data(u8, u16, u32, u32, u8),
    /// The status and the information of a C2HTermReq.
    Termination(u16, u32),
}

// A PDU of 24 bytes: the common header, and what is behind it.
fn append_short(out: &mut Vec<u8>, kind: u8, rest: [u8; 16]) -> Result<(), AllocError> {
    out.extend_from_slice(&[kind, 0, 24, 0, 24, 0, 0, 0])?;
    out.extend_from_slice(&rest)
}

// 112 reserved bytes are behind what is told.
fn append_ic_resp(
    out: &mut Vec<u8>,
    pfv: u16,
    cpda: u8,
    dgst: u8,
    most: u32,
) -> Result<(), AllocError> {
    let [p0, p1] = pfv.to_le_bytes();
    let [m0, m1, m2, m3] = most.to_le_bytes();
    let front = [
        1, 0, 128, 0, 128, 0, 0, 0, p0, p1, cpda, dgst, m0, m1, m2, m3,
    ];
    out.extend_from_slice(&front)?;
    out.extend_from_slice(&[0; 112])
}

fn response(cid: u16, status: u16, value: u64) -> [u8; 16] {
    let [v0, v1, v2, v3, v4, v5, v6, v7] = value.to_le_bytes();
    let [c0, c1] = cid.to_le_bytes();
    let [s0, s1] = status.to_le_bytes();
    [v0, v1, v2, v3, v4, v5, v6, v7, 0, 0, 0, 0, c0, c1, s0, s1]
}

// A command's identifier, a tag, an offset and a length.
fn part(cid: u16, tag: u16, at: u32, len: u32) -> [u8; 16] {
    let [c0, c1] = cid.to_le_bytes();
    let [t0, t1] = tag.to_le_bytes();
    let [a0, a1, a2, a3] = at.to_le_bytes();
    let [l0, l1, l2, l3] = len.to_le_bytes();
    [c0, c1, t0, t1, a0, a1, a2, a3, l0, l1, l2, l3, 0, 0, 0, 0]
}

fn termination(fes: u16, fei: u32) -> [u8; 16] {
    let [s0, s1] = fes.to_le_bytes();
    let [i0, i1, i2, i3] = fei.to_le_bytes();
    [s0, s1, i0, i1, i2, i3, 0, 0, 0, 0, 0, 0, 0, 0, 0, 0]
}

// Appends a PDU.
fn append(out: &mut Vec<u8>, pdu: Sent) -> Result<(), AllocError> {
    match pdu {
        Sent::IcResp(pfv, cpda, dgst, most) => append_ic_resp(out, pfv, cpda, dgst, most),
        Sent::Response(cid, status, value) => append_short(out, 5, response(cid, status, value)),
        Sent::Request(cid, tag, at, len) => append_short(out, 9, part(cid, tag, at, len)),
        Sent::Data(flags, cid, at, len, carried) => append_data(out, flags, cid, at, len, carried),
        Sent::Termination(fes, fei) => append_short(out, 3, termination(fes, fei)),
    }
}

// Bytes of data are 5Ah.
fn append_data(
    out: &mut Vec<u8>,
    flags: u8,
    cid: u16,
    at: u32,
    len: u32,
    carried: u8,
) -> Result<(), AllocError> {
    let [p0, p1, p2, p3] = (24 + u32::from(carried)).to_le_bytes();
    out.extend_from_slice(&[7, flags, 24, 24, p0, p1, p2, p3])?;
    out.extend_from_slice(&part(cid, 0, at, len))?;
    for _ in 0..carried {
        out.push(0x5A)?;
    }
    Ok(())
}

/// The bytes of a PDU.
pub fn bytes_of(alloc: Global, pdu: Sent) -> Result<Vec<u8>, AllocError> {
    let mut out = Vec::new(alloc);
    append(&mut out, pdu)?;
    Ok(out)
}
