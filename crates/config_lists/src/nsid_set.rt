//! Sets of namespaces' identifiers.
ghost use Rattle.std.specs.Prelude.{◌≡◌, ◌<◌, ◌≤◌, ◌-◌, ◌/◌, ◌^◌, [], length, nat_eq};
ghost use Rattle.std.specs.Iterator.{YieldsFirst, item_count};
ghost use Rattle.std.specs.List.{list_any};
ghost use Rattle.config_lists.specs.Namespace.{nsid_max};
ghost use Rattle.config_lists.specs.Numbered.{nsids_where};
ghost use Rattle.config_lists.specs.NsidSet.{is_marked, with_nsid};

use crate::namespace::{NSID_MAX, is_nsid};
use std::marker::Model;

// How many identifiers a word has.
const WORD_BITS: u32 = 64;

// How many words have all identifiers.
const WORDS: usize = (NSID_MAX / WORD_BITS) as usize;

/// A set of identifiers of namespaces (NSIDs; Base 2.0, section 3.2.1). It takes no memory. A contract
/// sees the list of them, rising.
#[derive(Drop)]
pub struct NsidSet {
    // A bit for each identifier: that of 1 is the lowest of the first word.
    words: [u64; WORDS],
}

impl Model for NsidSet {
    ghost use Rattle.std.specs.Prelude.{ℕ, List};
    ghost use Rattle.config_lists.specs.Numbered.{nsids_where};
    ghost use Rattle.config_lists.specs.NsidSet.{is_marked};

    ghost Value = { List ℕ };

    ghost view = { λ s. nsids_where (is_marked s.words) };
}

impl NsidSet {
    /// No identifier.
    pub fn new() -> NsidSet
        ensures { result ≡ [] }
    {
        NsidSet { words: [0; WORDS] }
    }

    /// Adds an identifier. One that no namespace may have, outside 1 to 4,096, changes nothing.
    pub fn insert(&mut self, nsid: u32)
        ensures { self.new ≡ with_nsid nsid self.old }
    {
        mark(&mut self.words, nsid);
    }

    /// Whether it has an identifier.
    pub fn has(&self, nsid: u32) -> bool
        ensures { result ≡ list_any (nat_eq nsid) self.now }
    {
        is_marked(&self.words, nsid)
    }

    /// How many identifiers it has.
    pub fn len(&self) -> usize
        ensures { result ≡ length self.now }
    {
        self.iter().count()
    }

    /// Its identifiers, rising. Where 64 in a row are not in the set, one look passes over them.
    pub fn iter(&self) -> Nsids<'_>
        ensures all { result ≡ self.now }
        ensures few { length result ≤ nsid_max }
    {
        Nsids {
            words: &self.words,
            next: 1,
        }
    }
}

/// The identifiers of a set that are left, rising. A contract sees the list of them.
#[derive(Drop)]
pub struct Nsids<'a> {
    words: &'a [u64; WORDS],
    next: u32,
}

impl<'a> Model for Nsids<'a> {
    ghost use Rattle.std.specs.Prelude.{◌≤◌, ◌+◌, ℕ, List};
    ghost use Rattle.config_lists.specs.Namespace.{nsid_max};
    ghost use Rattle.config_lists.specs.NsidSet.{is_marked};
    ghost use Rattle.config_lists.specs.Numbered.{nsids_from};

    ghost Value = { List ℕ };

    ghost view = { λ n. nsids_from n.next (is_marked n.words.now) };

    ghost invariant = { λ n. (1 ≤ n.next) × (n.next ≤ nsid_max + 1) };
}

impl<'a> Iterator for Nsids<'a> {
    type Item = u32;

    ghost next_gives = { YieldsFirst (λ nsids. nsids) };

    ghost remaining = { item_count (λ nsids. nsids) };

    fn next(&mut self) -> Option<u32> {
        while self.next <= NSID_MAX {
            let bit = self.next - 1;
            let left = bits_from(self.words[(bit / WORD_BITS) as usize], bit % WORD_BITS);
            if left != 0 {
                let nsid = self.next + left.trailing_zeros();
                self.next = nsid + 1;
                return Some(nsid);
            }
            self.next = (bit / WORD_BITS + 1) * WORD_BITS + 1;
        }
        None
    }
}

// The bits of a word from one on: that one is the lowest.
fn bits_from(word: u64, bit: u32) -> u64
    requires { bit < 64 }
    ensures left { result ≡ word / 2 ^ bit }
    ensures few { result < 2 ^ (64 - bit) }
{
    word >> bit
}

// Whether the bit of an identifier is set: none is of one that no namespace may have.
fn is_marked(words: &[u64; WORDS], nsid: u32) -> bool
    ensures { result ≡ list_any (nat_eq nsid) (nsids_where (is_marked words.now)) }
{
    if !is_nsid(u64::from(nsid)) {
        return false;
    }
    let bit = nsid - 1;
    bits_from(words[(bit / WORD_BITS) as usize], bit % WORD_BITS) % 2 == 1
}

// Sets the bit of an identifier, where a namespace may have it.
fn mark(words: &mut [u64; WORDS], nsid: u32)
    ensures { nsids_where (is_marked words.new) ≡ with_nsid nsid (nsids_where (is_marked words.old)) }
{
    if is_nsid(u64::from(nsid)) {
        let bit = nsid - 1;
        words[(bit / WORD_BITS) as usize] |= 1 << (bit % WORD_BITS);
    }
}
