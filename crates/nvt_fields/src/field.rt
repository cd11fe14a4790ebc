//! Little-endian numbers at a place, and texts padded to the length of their field.
ghost use Rattle.std.specs.Prelude.{◌≡◌, ◌+◌, ◌≤◌, length};
ghost use Rattle.nvt_fields.specs.Field.{field_at, padded};

use byteorder::{ByteOrder, LittleEndian};

/// The 2 bytes from place `at`, as a number.
pub fn u16_at(bytes: &[u8], at: usize) -> u16
    requires { at + 2 ≤ length bytes.now }
    ensures { result ≡ field_at 2 at bytes.now }
{
    LittleEndian::read_u16(&bytes[at..])
}

/// The 4 bytes from place `at`, as a number.
pub fn u32_at(bytes: &[u8], at: usize) -> u32
    requires { at + 4 ≤ length bytes.now }
    ensures { result ≡ field_at 4 at bytes.now }
{
    LittleEndian::read_u32(&bytes[at..])
}

/// The 8 bytes from place `at`, as a number.
pub fn u64_at(bytes: &[u8], at: usize) -> u64
    requires { at + 8 ≤ length bytes.now }
    ensures { result ≡ field_at 8 at bytes.now }
{
    LittleEndian::read_u64(&bytes[at..])
}

/// Writes a text into its field, and spaces after it (Base 2.0, section 1.4).
pub fn write_spaced(field: &mut [u8], text: &[u8])
    requires { length text.now ≤ length field.old }
    ensures { field.new ≡ padded (length field.old) 0x20 text.now }
{
    write_padded(field, text, b' ');
}

/// Writes a text into its field, and zero bytes after it, as NVMe qualified names are written.
pub fn write_zeroed(field: &mut [u8], text: &[u8])
    requires { length text.now ≤ length field.old }
    ensures { field.new ≡ padded (length field.old) 0 text.now }
{
    write_padded(field, text, 0);
}

fn write_padded(field: &mut [u8], text: &[u8], padding: u8)
    requires { length text.now ≤ length field.old }
    ensures { field.new ≡ padded (length field.old) padding text.now }
{
    field.fill(padding);
    let len = text.len();
    field[..len].copy_from_slice(text);
}
