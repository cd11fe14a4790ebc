//! Lists of namespace identifiers.
ghost use Rattle.std.specs.Prelude.{◌≡◌};
ghost use Rattle.std.specs.Iterator.{YieldsFirst, item_count};
ghost use Rattle.host_pages.specs.NsList.{is_overflowed, nsids_listed};

use crate::bad_page::BadPage;
use nvt_fields::u32_at;
use std::marker::Model;

/// The first entry of a list that overflowed (Base 2.0, section 5.16.1.5). It is the identifier of no
/// namespace, and stands for all.
const ALL_NAMESPACES: u32 = 0xFFFF_FFFF;

/// A list of namespace identifiers, lent from the bytes that hold it: the Active Namespace ID list, and
/// the Changed Namespace List (Base 2.0, sections 5.17.2.2 and 5.16.1.5). Its identifiers are the whole
/// entries of 4 bytes before the first that is 0, and none where it overflowed. A contract sees the bytes.
#[derive(Drop)]
pub struct NsList<'a> {
    bytes: &'a [u8],
}

impl<'a> Model for NsList<'a> {
    ghost use Rattle.std.specs.Prelude.{ℕ, List};

    ghost Value = { List ℕ };

    ghost view = { λ l. l.bytes.now };
}

impl<'a> NsList<'a> {
    /// The list that the bytes are. It counts nothing, so any bytes are one.
    pub fn read(bytes: &'a [u8]) -> Result<NsList<'a>, BadPage>
        ensures { result ≡ Ok bytes.now }
    {
        Ok(NsList { bytes })
    }

    /// Whether more namespaces changed than a list has room for: its first entry is FFFFFFFFh then (Base
    /// 2.0, section 5.16.1.5), and it names none of them.
    pub fn overflowed(&self) -> bool
        ensures { result ≡ is_overflowed self.now }
    {
        self.bytes.len() >= 4 && u32_at(self.bytes, 0) == ALL_NAMESPACES
    }

    /// The identifiers, in the list's order; none where it overflowed.
    #[tactic(auto, using(crate::proofs::Lists::listed))]
    pub fn nsids(&self) -> ListedNsids<'a>
        ensures { result ≡ nsids_listed self.now }
    {
        let left = if self.overflowed() {
            0
        } else {
            self.bytes.len() / 4
        };
        ListedNsids {
            bytes: self.bytes,
            done: 0,
            left,
        }
    }
}

/// The identifiers of a list that are left, up to its first 0. A contract sees them as a list.
#[derive(Drop)]
pub struct ListedNsids<'a> {
    bytes: &'a [u8],
    // How many entries are done, and how many whole ones are left.
    done: usize,
    left: usize,
}

impl<'a> Model for ListedNsids<'a> {
    ghost use Rattle.std.specs.Prelude.{◌+◌, ◌*◌, ◌≤◌, ℕ, List, length};
    ghost use Rattle.host_pages.specs.NsList.{listed_from};

    ghost Value = { List ℕ };

    ghost view = { λ n. listed_from n.bytes.now n.done n.left };

    ghost invariant = { λ n. (n.done + n.left) * 4 ≤ length n.bytes.now };
}

impl<'a> Iterator for ListedNsids<'a> {
    type Item = u32;

    ghost next_gives = { YieldsFirst (λ left. left) };

    ghost remaining = { item_count (λ left. left) };

    #[tactic(auto, using(crate::proofs::Lists::listed))]
    fn next(&mut self) -> Option<u32> {
        if self.left == 0 {
            return None;
        }
        let nsid = u32_at(self.bytes, self.done * 4);
        if nsid == 0 {
            return None;
        }
        self.done += 1;
        self.left -= 1;
        Some(nsid)
    }
}
