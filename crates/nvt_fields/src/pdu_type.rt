ghost use Rattle.std.specs.Prelude.{◌≡◌};
ghost use Rattle.nvt_fields.specs.PduType.{code_of, type_of_code};

/// The types of PDUs (TCP Transport 1.0, section 3.6): requests and data to the controller have even
/// codes, those to the host odd ones.
#[derive(Clone, Copy, Debug, PartialEq, Eq)]
pub enum PduType {
    IcReq,
    IcResp,
    H2cTermReq,
    C2hTermReq,
    CapsuleCmd,
    CapsuleResp,
    H2cData,
    C2hData,
    R2t,
}

impl PduType {
    /// The type's code, byte 0 of the common header.
    pub fn code(self) -> u8
        ensures { result ≡ code_of self }
    {
        match self {
            PduType::IcReq => 0x00,
            PduType::IcResp => 0x01,
            PduType::H2cTermReq => 0x02,
            PduType::C2hTermReq => 0x03,
            PduType::CapsuleCmd => 0x04,
            PduType::CapsuleResp => 0x05,
            PduType::H2cData => 0x06,
            PduType::C2hData => 0x07,
            PduType::R2t => 0x09,
        }
    }

    /// The type with this code, or `None` where no type has it.
    pub fn from_code(code: u8) -> Option<PduType>
        ensures { result ≡ type_of_code code }
    {
        match code {
            0x00 => Some(PduType::IcReq),
            0x01 => Some(PduType::IcResp),
            0x02 => Some(PduType::H2cTermReq),
            0x03 => Some(PduType::C2hTermReq),
            0x04 => Some(PduType::CapsuleCmd),
            0x05 => Some(PduType::CapsuleResp),
            0x06 => Some(PduType::H2cData),
            0x07 => Some(PduType::C2hData),
            0x09 => Some(PduType::R2t),
            _ => None,
        }
    }
}
