//! The I/O commands, by their opcode.
ghost use Rattle.std.specs.Prelude.{◌≡◌};
ghost use Rattle.io_queue.specs.Opcode.{opcode_of_code};

/// An I/O command (NVM Command Set 1.0, section 3).
#[derive(Clone, Copy, Debug, PartialEq, Eq)]
pub enum IoOpcode {
    Flush,
    Write,
    Read,
    Compare,
    WriteZeroes,
}

impl IoOpcode {
    /// The command of this opcode, if there is one.
    pub fn from_code(code: u8) -> Option<IoOpcode>
        ensures { result ≡ opcode_of_code code }
    {
        match code {
            0x00 => Some(IoOpcode::Flush),
            0x01 => Some(IoOpcode::Write),
            0x02 => Some(IoOpcode::Read),
            0x05 => Some(IoOpcode::Compare),
            0x08 => Some(IoOpcode::WriteZeroes),
            _ => None,
        }
    }
}
