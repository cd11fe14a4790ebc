//! The Asymmetric Namespace Access log page.
ghost use Rattle.std.specs.Prelude.{◌≡◌, MatchOption};
ghost use Rattle.std.specs.Iterator.{YieldsFirst, item_count};
ghost use Rattle.host_pages.specs.AnaLog.{change_of, fault_of, group_count, groups_of};
ghost use Rattle.host_pages.specs.Groups.{holds_groups};

use crate::bad_page::BadPage;
use crate::group::{AnaGroup, group_len};
use nvt_fields::{u16_at, u64_at};
use std::marker::Model;

/// The length of the header, in bytes.
const HEADER_LEN: usize = 16;

/// The length of a group that lists no namespaces, in bytes.
const GROUP_MIN: usize = 32;

/// An Asymmetric Namespace Access log page, lent from the bytes that hold it (Base 2.0, section
/// 5.16.1.13): a header of 16 bytes, and behind it its groups, each as long as it says. What stands
/// behind the last group is not looked at. A contract sees the bytes.
#[derive(Drop)]
pub struct AnaLog<'a> {
    bytes: &'a [u8],
}

impl<'a> Model for AnaLog<'a> {
    ghost use Rattle.std.specs.Prelude.{ℕ, List};
    ghost use Rattle.host_pages.specs.AnaLog.{IsAnaLog};

    ghost Value = { List ℕ };

    ghost view = { λ p. p.bytes.now };

    ghost invariant = { λ p. IsAnaLog p.bytes.now };
}

impl<'a> AnaLog<'a> {
    /// The page that the bytes are. Refused as `TooShort` where they are shorter than the header, the
    /// groups that it counts and the namespaces that these count.
    pub fn read(bytes: &'a [u8]) -> Result<AnaLog<'a>, BadPage>
        ensures { MatchOption (fault_of bytes.now) (result ≡ Ok bytes.now)
            (λ fault. result ≡ Err fault) }
    {
        if bytes.len() < HEADER_LEN {
            return Err(BadPage::TooShort);
        }
        let count = u16_at(bytes, 8);
        let (_, groups) = bytes.split_at(HEADER_LEN);
        if !holds_groups(count, groups) {
            return Err(BadPage::TooShort);
        }
        Ok(AnaLog { bytes })
    }

    /// The change count: another where the page changed.
    pub fn change(&self) -> u64
        ensures { result ≡ change_of self.now }
    {
        u64_at(self.bytes, 0)
    }

    /// The number of groups.
    pub fn group_count(&self) -> u16
        ensures { result ≡ group_count self.now }
    {
        u16_at(self.bytes, 8)
    }

    /// The groups, in the page's order.
    pub fn groups(&self) -> Groups<'a>
        ensures { result ≡ groups_of self.now }
    {
        let left = self.group_count();
        let (_, rest) = self.bytes.split_at(HEADER_LEN);
        Groups { rest, left }
    }
}

// Whether the bytes are as long as so many groups, each as long as it says.
fn holds_groups(count: u16, bytes: &[u8]) -> bool
    ensures { result ≡ holds_groups count bytes.now }
{
    let mut rest = bytes;
    for _group in 0..count {
        if rest.len() < GROUP_MIN {
            return false;
        }
        let len = group_len(rest);
        if rest.len() < len {
            return false;
        }
        let (_, behind) = rest.split_at(len);
        rest = behind;
    }
    true
}

/// The groups of a page that are left, in the page's order. A contract sees the bytes of each.
#[derive(Drop)]
pub struct Groups<'a> {
    rest: &'a [u8],
    left: u16,
}

impl<'a> Model for Groups<'a> {
    ghost use Rattle.std.specs.Prelude.{◌≡◌, ℕ, List, true};
    ghost use Rattle.host_pages.specs.Groups.{groups_in, holds_groups};

    ghost Value = { List (List ℕ) };

    ghost view = { λ g. groups_in g.left g.rest.now };

    ghost invariant = { λ g. holds_groups g.left g.rest.now ≡ true };
}

impl<'a> Iterator for Groups<'a> {
    type Item = AnaGroup<'a>;

    ghost next_gives = { YieldsFirst (λ left. left) };

    ghost remaining = { item_count (λ left. left) };

    #[tactic(auto, using(crate::proofs::GroupLists::groups))]
    fn next(&mut self) -> Option<AnaGroup<'a>> {
        if self.left == 0 {
            return None;
        }
        let (group, behind) = self.rest.split_at(group_len(self.rest));
        self.rest = behind;
        self.left -= 1;
        Some(AnaGroup::new(group))
    }
}
