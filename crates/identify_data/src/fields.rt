//! Fields at their offsets in a data structure.
ghost use Rattle.std.specs.Prelude.{◌≡◌, ◌+◌, ◌≤◌, [], length};
ghost use Rattle.nvt_fields.specs.Field.{padded};
ghost use Rattle.identify_data.specs.Fields.{byte, dword, qword, table, with_bytes, word};

use nvt_fields::{write_spaced, write_zeroed};

/// Writes zeros: the structure before any field.
pub(crate) fn clear(structure: &mut [u8])
    requires { length structure.old ≡ 4096 }
    ensures { structure.new ≡ table [] }
{
    structure.fill(0);
}

/// Writes a field's bytes at its offset.
pub(crate) fn put(structure: &mut [u8], offset: usize, bytes: &[u8])
    requires { offset + length bytes.now ≤ length structure.old }
    ensures { structure.new ≡ with_bytes offset bytes.now structure.old }
{
    structure[offset..offset + bytes.len()].copy_from_slice(bytes);
}

/// Writes a number of 1 byte at its offset.
pub(crate) fn put_byte(structure: &mut [u8], offset: usize, n: u8)
    requires { offset + 1 ≤ length structure.old }
    ensures { structure.new ≡ with_bytes offset (byte n) structure.old }
{
    put(structure, offset, &[n]);
}

/// Writes a number of 2 bytes at its offset, the lowest first.
pub(crate) fn put_word(structure: &mut [u8], offset: usize, n: u16)
    requires { offset + 2 ≤ length structure.old }
    ensures { structure.new ≡ with_bytes offset (word n) structure.old }
{
    put(structure, offset, &n.to_le_bytes());
}

/// Writes a number of 4 bytes at its offset, the lowest first.
pub(crate) fn put_dword(structure: &mut [u8], offset: usize, n: u32)
    requires { offset + 4 ≤ length structure.old }
    ensures { structure.new ≡ with_bytes offset (dword n) structure.old }
{
    put(structure, offset, &n.to_le_bytes());
}

/// Writes a number of 8 bytes at its offset, the lowest first.
pub(crate) fn put_qword(structure: &mut [u8], offset: usize, n: u64)
    requires { offset + 8 ≤ length structure.old }
    ensures { structure.new ≡ with_bytes offset (qword n) structure.old }
{
    put(structure, offset, &n.to_le_bytes());
}

/// Writes a text at the offset of its field, and spaces up to the field's length.
#[tactic(auto, using(crate::proofs::Written::padded_with_bytes))]
pub(crate) fn put_spaced(structure: &mut [u8], offset: usize, len: usize, text: &[u8])
    requires fits { length text.now ≤ len }
    requires room { offset + len ≤ length structure.old }
    ensures { structure.new ≡ with_bytes offset (padded len 0x20 text.now) structure.old }
{
    write_spaced(&mut structure[offset..offset + len], text);
}

/// Writes a name at the offset of its field, and zeros up to the field's length.
#[tactic(auto, using(crate::proofs::Written::padded_with_bytes))]
pub(crate) fn put_zeroed(structure: &mut [u8], offset: usize, len: usize, name: &[u8])
    requires fits { length name.now ≤ len }
    requires room { offset + len ≤ length structure.old }
    ensures { structure.new ≡ with_bytes offset (padded len 0 name.now) structure.old }
{
    write_zeroed(&mut structure[offset..offset + len], name);
}
