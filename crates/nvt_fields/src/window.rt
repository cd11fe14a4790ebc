//! The part of a page that a read returns.
ghost use Rattle.std.specs.Prelude.{◌≡◌, ℕ, List, ◌++◌, length, take, drop};
ghost use Rattle.nvt_fields.specs.Window.{window};

/// Goes on with a page of which `out` shows a part, from the byte `offset` of the page on: writes as
/// much as that part shows of the bytes that the page has behind its first `at`. A part shows zeros
/// behind its page, so one of no page yet is zeros alone.
pub fn write_part(out: &mut [u8], offset: u64, at: u64, bytes: &[u8])
    ensures { (page : List ℕ) → length page ≡ at → out.old ≡ window page offset (length out.old)
        → out.new ≡ window (page ++ bytes.now) offset (length out.old) }
{
    if at < offset {
        let passed = (offset - at) as usize;
        if passed < bytes.len() {
            write_front(out, &bytes[passed..]);
        }
    } else {
        let start = (at - offset) as usize;
        if start < out.len() {
            write_front(&mut out[start..], bytes);
        }
    }
}

// Writes as many of the bytes as there is room for.
fn write_front(out: &mut [u8], bytes: &[u8])
    ensures { out.new ≡ take (length out.old) bytes.now ++ drop (length bytes.now) out.old }
{
    let len = out.len().min(bytes.len());
    out[..len].copy_from_slice(&bytes[..len]);
}
