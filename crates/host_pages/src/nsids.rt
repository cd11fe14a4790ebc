//! Identifiers of namespaces, as numbers of 4 bytes that stand one after the other.
ghost use Rattle.std.specs.Prelude.{◌≡◌, ◌*◌, ◌≤◌, length};
ghost use Rattle.std.specs.Iterator.{YieldsFirst, item_count};
ghost use Rattle.host_pages.specs.Numbers.{numbers_of};

use nvt_fields::u32_at;
use std::marker::Model;

/// The identifiers that are left, in the order of their places. A contract sees them as a list.
#[derive(Drop)]
pub struct Nsids<'a> {
    bytes: &'a [u8],
    // How many identifiers are done, and how many are left.
    done: usize,
    left: usize,
}

impl<'a> Model for Nsids<'a> {
    ghost use Rattle.std.specs.Prelude.{◌+◌, ◌*◌, ◌≤◌, ℕ, List, length};
    ghost use Rattle.host_pages.specs.Numbers.{numbers_from};

    ghost Value = { List ℕ };

    ghost view = { λ n. numbers_from n.bytes.now n.done n.left };

    ghost invariant = { λ n. (n.done + n.left) * 4 ≤ length n.bytes.now };
}

impl<'a> Nsids<'a> {
    /// The first so many.
    pub(crate) fn of(bytes: &'a [u8], count: usize) -> Nsids<'a>
        requires { count * 4 ≤ length bytes.now }
        ensures { result ≡ numbers_of count bytes.now }
    {
        Nsids {
            bytes,
            done: 0,
            left: count,
        }
    }
}

impl<'a> Iterator for Nsids<'a> {
    type Item = u32;

    ghost next_gives = { YieldsFirst (λ left. left) };

    ghost remaining = { item_count (λ left. left) };

    #[tactic(auto, using(crate::proofs::Lists::numbers))]
    fn next(&mut self) -> Option<u32> {
        if self.left == 0 {
            return None;
        }
        let nsid = u32_at(self.bytes, self.done * 4);
        self.done += 1;
        self.left -= 1;
        Some(nsid)
    }
}
