//! The bytes of a record of the discovery log page (Base 2.0, section 5.16.1.23).
ghost use Rattle.std.specs.Prelude.{◌≡◌, ◌≤◌, ◌∷◌, ◌++◌, length, replicate};
ghost use Rattle.std.specs.Int.{w16, to_le_bytes};
ghost use Rattle.discovery_view.specs.Record.{family_code, subtype_code};

use nvt_config::{Family, Port};

/// The length of a record in bytes, and of the page's header.
pub(crate) const RECORD_LEN: usize = 1024;

// TRTYPE: TCP.
const TCP: u8 = 3;

// ASQSZ: the entries of an admin queue.
const ADMIN_QUEUE_SIZE: u8 = 32;

/// What a record leads to (SUBTYPE).
#[derive(Clone, Copy, PartialEq, Eq)]
pub enum Subtype {
    /// Another discovery controller.
    Referral,
    /// A subsystem with namespaces.
    NvmSubsystem,
}

impl Subtype {
    /// The code in a record.
    pub(crate) fn code(self) -> u8
        ensures { result ≡ subtype_code self }
    {
        match self {
            Subtype::Referral => 1,
            Subtype::NvmSubsystem => 2,
        }
    }
}

/// The first 32 bytes of the records of a port.
pub(crate) fn record_head(subtype: Subtype, port: &Port) -> [u8; 32]
    ensures { result ≡ 3 ∷ family_code port.now.family ∷ subtype_code subtype ∷ 0
        ∷ to_le_bytes w16 port.now.id ++ to_le_bytes w16 0xFFFF ++ to_le_bytes w16 32
        ++ replicate 22 0 }
{
    let id = port.id.to_le_bytes();
    let mut head = [0u8; 32];
    head[..10].copy_from_slice(&[
        TCP,
        family_code(port.family),
        subtype.code(),
        0,
        id[0],
        id[1],
        0xFF,
        0xFF,
        ADMIN_QUEUE_SIZE,
        0,
    ]);
    head
}

fn family_code(family: Family) -> u8
    ensures { result ≡ family_code family }
{
    match family {
        Family::Ipv4 => 1,
        Family::Ipv6 => 2,
    }
}
