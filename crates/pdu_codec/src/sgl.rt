ghost use Rattle.std.specs.Prelude.{◌≡◌, ◌≤◌, length};

use nvt_fields::{u32_at, u64_at};

/// Where the data of a command is, of the two types that this transport knows.
#[derive(Clone, Copy, Debug, PartialEq, Eq)]
pub enum SglType {
    /// A data block in the capsule, from an offset (01h).
    CapsuleOffset,
    /// A data block that the transport moves (5Ah).
    Transport,
    Other,
}

/// A scatter gather list descriptor (Base 2.0, section 4.1.2).
#[derive(Clone, Copy, Debug, PartialEq, Eq)]
pub struct Sgl {
    /// For a data block in the capsule: its offset in the capsule's data, in bytes.
    pub address: u64,
    /// In bytes.
    pub len: u32,
    pub sgl_type: SglType,
}

impl Sgl {
    ghost use Rattle.pdu_codec.specs.Sgl.{sgl_of};

    /// The descriptor in 16 bytes.
    pub fn read(bytes: &[u8]) -> Sgl
        requires { 16 ≤ length bytes.now }
        ensures { result ≡ sgl_of bytes.now }
    {
        Sgl {
            address: u64_at(bytes, 0),
            len: u32_at(bytes, 8),
            sgl_type: SglType::from_code(bytes[15]),
        }
    }
}

impl SglType {
    ghost use Rattle.pdu_codec.specs.Sgl.{sgl_type_of};

    fn from_code(code: u8) -> SglType
        ensures { result ≡ sgl_type_of code }
    {
        match code {
            0x01 => SglType::CapsuleOffset,
            0x5A => SglType::Transport,
            _ => SglType::Other,
        }
    }
}
