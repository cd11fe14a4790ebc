ghost use Rattle.std.specs.Prelude.{◌≡◌, ◌+◌, ◌++◌, ◌≤◌, Some, codes, replicate};
ghost use Rattle.pdu_codec.specs.CommonHeader.{common_header};
ghost use Rattle.pdu_codec.specs.Output.{AppendsOrFull, AppendsBeforeOrFull};

use bytes::BytesMut;
use nvt_fields::PduType;
use std::error::Error;
use std::fmt;

/// The buffer's spare room is too small for the PDU. The buffer is as it was.
#[derive(Clone, Copy, Debug, PartialEq, Eq)]
pub struct Full;

impl fmt::Display for Full {
    ghost output = { λ _. Some (codes "the PDU does not fit the buffer's spare room") };

    fn fmt<W: fmt::Write>(&self, f: &mut fmt::Formatter<W>) -> fmt::Result {
        f.write_str("the PDU does not fit the buffer's spare room")
    }
}

impl Error for Full {}

// The longest run of zeros: the reserved bytes of an ICResp.
static ZEROS: [u8; 112] = [0; 112];

/// The eight bytes that each PDU begins with.
pub(crate) fn common_header(pdu_type: PduType, flags: u8, hlen: u8, pdo: u8, plen: u32) -> [u8; 8]
    ensures { result ≡ common_header pdu_type flags hlen pdo plen }
{
    let plen = plen.to_le_bytes();
    let code = pdu_type.code();
    [code, flags, hlen, pdo, plen[0], plen[1], plen[2], plen[3]]
}

/// Appends a PDU in its parts: the common header, the fields after it, zeros, and what is lent.
pub(crate) fn append(
    out: &mut BytesMut,
    header: &[u8; 8],
    fields: &[u8],
    zeros: usize,
    tail: &[u8],
) -> Result<(), Full>
    requires { zeros ≤ 112 }
    ensures { let bytes = header.now ++ fields.now ++ replicate zeros 0 ++ tail.now in
        AppendsOrFull out.old out.new bytes result }
{
    append_head(out, header, fields, zeros, tail.len())?;
    out.extend_reserved(tail);
    Ok(())
}

/// As [`append`], with `len` zeros where that has what is lent: room that the caller writes over.
pub(crate) fn append_room(
    out: &mut BytesMut,
    header: &[u8; 8],
    fields: &[u8],
    zeros: usize,
    len: usize,
) -> Result<(), Full>
    requires { zeros ≤ 112 }
    ensures { let bytes = header.now ++ fields.now ++ replicate zeros 0 ++ replicate len 0 in
        AppendsOrFull out.old out.new bytes result }
{
    append_head(out, header, fields, zeros, len)?;
    append_zeros(out, len);
    Ok(())
}

// The parts before the tail, where there is spare room for a tail of this length too.
fn append_head(
    out: &mut BytesMut,
    header: &[u8; 8],
    fields: &[u8],
    zeros: usize,
    tail_len: usize,
) -> Result<(), Full>
    requires { zeros ≤ 112 }
    ensures { let bytes = header.now ++ fields.now ++ replicate zeros 0 in
        AppendsBeforeOrFull out.old out.new bytes tail_len result }
{
    let spare = out.capacity() - out.len();
    let fixed = 8 + fields.len() + zeros;
    if spare < fixed || spare - fixed < tail_len {
        return Err(Full);
    }
    out.extend_reserved(header);
    out.extend_reserved(fields);
    out.extend_reserved(zero_bytes(zeros));
    Ok(())
}

fn append_zeros(out: &mut BytesMut, count: usize)
    requires { count ≤ out.old.spare }
    ensures items { out.new.items ≡ out.old.items ++ replicate count 0 }
    ensures spare { out.new.spare + count ≡ out.old.spare }
{
    let start = out.len();
    out.advance_mut(count);
    out.as_mut_slice()[start..].fill(0);
}

fn zero_bytes(count: usize) -> &'static [u8]
    requires { count ≤ 112 }
    ensures { result.now ≡ replicate count 0 }
{
    &ZEROS[..count]
}
