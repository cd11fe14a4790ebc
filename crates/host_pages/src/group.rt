//! One group of an Asymmetric Namespace Access log page.
ghost use Rattle.std.specs.Prelude.{◌≡◌, ◌≤◌, length};
ghost use Rattle.host_pages.specs.Group.{IsGroup, change_of, group_len, id_of, nsid_count, nsids_of};
ghost use Rattle.host_pages.specs.Group.{state_of};

use crate::nsids::Nsids;
use nvt_fields::{u32_at, u64_at};
use std::marker::Model;

/// The length of a group's head, in bytes: its identifiers of namespaces stand behind it.
const HEAD_LEN: usize = 32;

/// What the log page says of one group of namespaces, lent from the page (Base 2.0, section 5.16.1.13,
/// ANA group descriptor). A contract sees the bytes: 32, and 4 for each namespace.
#[derive(Drop)]
pub struct AnaGroup<'a> {
    bytes: &'a [u8],
}

impl<'a> Model for AnaGroup<'a> {
    ghost use Rattle.std.specs.Prelude.{ℕ, List};
    ghost use Rattle.host_pages.specs.Group.{IsGroup};

    ghost Value = { List ℕ };

    ghost view = { λ g. g.bytes.now };

    ghost invariant = { λ g. IsGroup g.bytes.now };
}

impl<'a> AnaGroup<'a> {
    pub(crate) fn new(bytes: &'a [u8]) -> AnaGroup<'a>
        requires { IsGroup bytes.now }
        ensures { result ≡ bytes.now }
    {
        AnaGroup { bytes }
    }

    /// The group's identifier.
    pub fn id(&self) -> u32
        ensures { result ≡ id_of self.now }
    {
        u32_at(self.bytes, 0)
    }

    /// How many namespaces are listed.
    pub fn nsid_count(&self) -> u32
        ensures { result ≡ nsid_count self.now }
    {
        u32_at(self.bytes, 4)
    }

    /// The change count: another where what the page says of the group changed.
    pub fn change(&self) -> u64
        ensures { result ≡ change_of self.now }
    {
        u64_at(self.bytes, 8)
    }

    /// The state: 1 optimized, 2 non-optimized, 3 inaccessible, 4 persistent loss, 15 change.
    pub fn state(&self) -> u8
        ensures { result ≡ state_of self.now }
    {
        self.bytes[16] % 16
    }

    /// The identifiers of the namespaces, in the group's order.
    pub fn nsids(&self) -> Nsids<'a>
        ensures { result ≡ nsids_of self.now }
    {
        let count = self.nsid_count() as usize;
        let (_, nsids) = self.bytes.split_at(HEAD_LEN);
        Nsids::of(nsids, count)
    }
}

// The length of the group in front, in bytes.
pub(crate) fn group_len(bytes: &[u8]) -> usize
    requires { 32 ≤ length bytes.now }
    ensures { result ≡ group_len bytes.now }
{
    HEAD_LEN + 4 * u32_at(bytes, 4) as usize
}
