//! The discovery log page.
ghost use Rattle.std.specs.Prelude.{◌≡◌, ◌≤◌, MatchOption, length, nat_lt, not};
ghost use Rattle.std.specs.Iterator.{YieldsFirst, item_count};
ghost use Rattle.host_pages.specs.DiscoveryPage.{fault_of, genctr_of, header_fault, record_count, record_place, records_of};

use crate::bad_page::BadPage;
use crate::record::DiscoveryRecord;
use nvt_fields::{u16_at, u64_at};
use std::marker::Model;

/// The length of the header, and that of each record, in bytes.
pub(crate) const PART_LEN: usize = 1024;

/// The most records of a page that is read.
const RECORDS_MAX: u64 = 1024;

/// A discovery log page, lent from the bytes that hold it (Base 2.0, section 5.16.1.23): a header of
/// 1,024 bytes, and behind it records of 1,024 bytes each. What stands behind the last record is not
/// looked at. A contract sees the bytes.
#[derive(Drop)]
pub struct DiscoveryPage<'a> {
    bytes: &'a [u8],
}

impl<'a> Model for DiscoveryPage<'a> {
    ghost use Rattle.std.specs.Prelude.{ℕ, List};
    ghost use Rattle.host_pages.specs.DiscoveryPage.{IsDiscoveryPage};

    ghost Value = { List ℕ };

    ghost view = { λ p. p.bytes.now };

    ghost invariant = { λ p. IsDiscoveryPage p.bytes.now };
}

impl<'a> DiscoveryPage<'a> {
    /// The page that the bytes are. Refused as `TooShort` where they are shorter than the header and the
    /// records that it counts, as `OtherFormat` where RECFMT is not 0, as `TooManyRecords` where the
    /// header counts more than 1,024.
    pub fn read(bytes: &'a [u8]) -> Result<DiscoveryPage<'a>, BadPage>
        ensures { MatchOption (fault_of bytes.now) (result ≡ Ok bytes.now)
            (λ fault. result ≡ Err fault) }
    {
        match fault_of(bytes) {
            Some(fault) => Err(fault),
            None => Ok(DiscoveryPage { bytes }),
        }
    }

    /// GENCTR, the generation of the page: another where the records changed.
    pub fn genctr(&self) -> u64
        ensures { result ≡ genctr_of self.now }
    {
        u64_at(self.bytes, 0)
    }

    /// NUMREC, the number of records, at most 1,024.
    pub fn record_count(&self) -> u16
        ensures { result ≡ record_count self.now }
    {
        u64_at(self.bytes, 8) as u16
    }

    /// The records, in the page's order.
    pub fn records(&self) -> Records<'a>
        ensures { result ≡ records_of self.now }
    {
        Records {
            page: self.bytes,
            done: 0,
            left: usize::from(self.record_count()),
        }
    }
}

// What is wrong with the bytes first, if they are no page.
fn fault_of(bytes: &[u8]) -> Option<BadPage>
    ensures { result ≡ fault_of bytes.now }
{
    if bytes.len() < PART_LEN || !holds_records(bytes.len(), u64_at(bytes, 8)) {
        return Some(BadPage::TooShort);
    }
    header_fault(bytes)
}

// Whether so many bytes, a header at least, have room for so many records.
fn holds_records(len: usize, count: u64) -> bool
    requires { 1024 ≤ len }
    ensures { result ≡ not (nat_lt len (record_place count)) }
{
    count <= (len / PART_LEN - 1) as u64
}

/// What is wrong with a header first, if anything.
pub(crate) fn header_fault(header: &[u8]) -> Option<BadPage>
    requires { 18 ≤ length header.now }
    ensures { result ≡ header_fault header.now }
{
    if u16_at(header, 16) != 0 {
        return Some(BadPage::OtherFormat);
    }
    if u64_at(header, 8) > RECORDS_MAX {
        return Some(BadPage::TooManyRecords);
    }
    None
}

/// The records of a page that are left, in the page's order. A contract sees the bytes of each.
#[derive(Drop)]
pub struct Records<'a> {
    page: &'a [u8],
    // How many records are done, and how many are left.
    done: usize,
    left: usize,
}

impl<'a> Model for Records<'a> {
    ghost use Rattle.std.specs.Prelude.{◌+◌, ◌*◌, ◌≤◌, ℕ, List, length};
    ghost use Rattle.host_pages.specs.DiscoveryPage.{records_from};

    ghost Value = { List (List ℕ) };

    ghost view = { λ r. records_from r.page.now r.done r.left };

    ghost invariant = { λ r. 1024 + (r.done + r.left) * 1024 ≤ length r.page.now };
}

impl<'a> Iterator for Records<'a> {
    type Item = DiscoveryRecord<'a>;

    ghost next_gives = { YieldsFirst (λ left. left) };

    ghost remaining = { item_count (λ left. left) };

    #[tactic(auto, using(crate::proofs::Lists::records))]
    fn next(&mut self) -> Option<DiscoveryRecord<'a>> {
        if self.left == 0 {
            return None;
        }
        let at = PART_LEN + self.done * PART_LEN;
        self.done += 1;
        self.left -= 1;
        Some(DiscoveryRecord::new(&self.page[at..at + PART_LEN]))
    }
}
