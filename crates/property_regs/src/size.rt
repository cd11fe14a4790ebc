//! How many bytes a property has.
ghost use Rattle.std.specs.Prelude.{◌≡◌};
ghost use Rattle.property_regs.specs.Size.{is_named_by};

/// The size of a property.
#[derive(Clone, Copy, Debug, PartialEq, Eq)]
pub enum PropertySize {
    FourBytes,
    EightBytes,
}

impl PropertySize {
    // Whether the attributes of a Property Get or Set name this size, in bits 2:0 (Base 2.0,
    // sections 6.5 and 6.6): 0 for 4 bytes and 1 for 8.
    pub(crate) fn is_named_by(self, attrib: u8) -> bool
        ensures { result ≡ is_named_by attrib self }
    {
        match self {
            PropertySize::FourBytes => attrib % 8 == 0,
            PropertySize::EightBytes => attrib % 8 == 1,
        }
    }
}
