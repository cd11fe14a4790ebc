//! One record of a discovery log page.
ghost use Rattle.std.specs.Prelude.{◌≡◌, ◌≤◌, ◌+◌, length, slice_index, slice_range};
ghost use Rattle.nvt_fields.specs.Field.{field_at};

use nvt_fields::u16_at;
use std::marker::Model;

/// What a record tells of one way to one subsystem: 1,024 bytes, lent from the page (Base 2.0, section
/// 5.16.1.23, discovery log page entry). A contract sees the bytes.
#[derive(Drop)]
pub struct DiscoveryRecord<'a> {
    bytes: &'a [u8],
}

impl<'a> Model for DiscoveryRecord<'a> {
    ghost use Rattle.std.specs.Prelude.{◌≡◌, ℕ, List, length};

    ghost Value = { List ℕ };

    ghost view = { λ r. r.bytes.now };

    ghost invariant = { λ r. length r.bytes.now ≡ 1024 };
}

impl<'a> DiscoveryRecord<'a> {
    pub(crate) fn new(bytes: &'a [u8]) -> DiscoveryRecord<'a>
        requires { length bytes.now ≡ 1024 }
        ensures { result ≡ bytes.now }
    {
        DiscoveryRecord { bytes }
    }

    /// All of the record.
    pub fn as_bytes(&self) -> &'a [u8; 1024]
        ensures { result.now ≡ self.now }
    {
        part(self.bytes, 0)
    }

    /// TRTYPE, the transport: 3 for TCP.
    pub fn transport(&self) -> u8
        ensures { result ≡ slice_index self.now 0 }
    {
        self.bytes[0]
    }

    /// ADRFAM, the family of the address: 1 for IPv4, 2 for IPv6.
    pub fn address_family(&self) -> u8
        ensures { result ≡ slice_index self.now 1 }
    {
        self.bytes[1]
    }

    /// SUBTYPE, what the subsystem is: 1 for a referral, 2 for an NVM subsystem.
    pub fn subtype(&self) -> u8
        ensures { result ≡ slice_index self.now 2 }
    {
        self.bytes[2]
    }

    /// PORTID, the port's number.
    pub fn port(&self) -> u16
        ensures { result ≡ field_at 2 4 self.now }
    {
        u16_at(self.bytes, 4)
    }

    /// The field of TRSVCID, the TCP port as a text, with what pads it.
    pub fn service(&self) -> &'a [u8; 32]
        ensures { result.now ≡ slice_range self.now 32 64 }
    {
        part(self.bytes, 32)
    }

    /// The field of SUBNQN, the subsystem's name, with what pads it.
    pub fn subnqn(&self) -> &'a [u8; 256]
        ensures { result.now ≡ slice_range self.now 256 512 }
    {
        part(self.bytes, 256)
    }

    /// The field of TRADDR, the address as a text, with what pads it.
    pub fn address(&self) -> &'a [u8; 256]
        ensures { result.now ≡ slice_range self.now 512 768 }
    {
        part(self.bytes, 512)
    }
}

fn part<const N: usize>(bytes: &[u8], at: usize) -> &[u8; N]
    requires { at + N ≤ length bytes.now }
    ensures { result.now ≡ slice_range bytes.now at (at + N) }
{
    <&[u8; N]>::try_from(&bytes[at..at + N]).unwrap()
}
