//! What an answer makes of a try.
ghost use Rattle.std.specs.Prelude.{◌≡◌, ◌≤◌, Ok, length};
ghost use Rattle.host_pages.specs.Verdict.{IsBegun, answer_fault, are_alike, asked_of, given, header_verdict, is_past_end, left_of, records_verdict, verdict};

use crate::BadPage;
use crate::discovery_page::{PART_LEN, header_fault};
use crate::fault::DiscoverFault;
use crate::get_log::GetLog;
use nvt_fields::{Status, u64_at};

/// The most that is read of the records at a time, in bytes.
const READ_LEN: usize = 32_768;

/// What an answer makes of the try whose read it answers.
#[derive(Clone, Copy, Debug, PartialEq, Eq)]
pub(crate) enum Verdict {
    /// The next read follows.
    GoesOn,
    /// What was read is the page of one moment.
    Settles,
    /// The page changed meanwhile.
    Fails,
    /// There is no page to be had.
    Ends(DiscoverFault),
}

/// The next read of a try that has read this much of the page.
pub(crate) fn next_read(read: &[u8]) -> GetLog
    requires { IsBegun read.now }
    ensures { result ≡ asked_of read.now }
{
    let left = left_of(read);
    if left == 0 {
        return GetLog {
            offset: 0,
            len: PART_LEN as u32,
        };
    }
    GetLog {
        offset: read.len() as u64,
        len: left.min(READ_LEN) as u32,
    }
}

/// What an answer makes of a try that has read this much of the page.
pub(crate) fn judge(read: &[u8], answer: Result<&[u8], Status>) -> Verdict
    requires { IsBegun read.now }
    ensures { result ≡ verdict read.now (given answer.entry) }
{
    let left = left_of(read);
    match answer {
        Err(status) if left > 0 && is_past_end(status) => Verdict::Fails,
        Err(status) => Verdict::Ends(DiscoverFault::Refused(status)),
        Ok(records) if left > 0 => records_verdict(left.min(READ_LEN), records),
        Ok(header) => header_verdict(read, header),
    }
}

// Whether it is Invalid Field in Command, which answers a read behind the end of a page.
fn is_past_end(status: Status) -> bool
    ensures { result ≡ is_past_end status }
{
    status.sct == 0 && status.sc == 0x02
}

// How much of the records is left to be read, in bytes.
fn left_of(read: &[u8]) -> usize
    requires { IsBegun read.now }
    ensures value { result ≡ left_of read.now }
    ensures most { result ≤ 1048576 }
{
    if read.is_empty() {
        return 0;
    }
    let count = u64_at(read, 8) as usize;
    (PART_LEN + count * PART_LEN).saturating_sub(read.len())
}

fn records_verdict(len: usize, records: &[u8]) -> Verdict
    ensures { result ≡ records_verdict len (Ok records.now) }
{
    if records.len() == len {
        Verdict::GoesOn
    } else {
        Verdict::Ends(DiscoverFault::BadPage(BadPage::OtherLength))
    }
}

fn header_verdict(read: &[u8], header: &[u8]) -> Verdict
    requires { IsBegun read.now }
    ensures { result ≡ header_verdict read.now (Ok header.now) }
{
    match answer_fault(header) {
        Some(fault) => Verdict::Ends(DiscoverFault::BadPage(fault)),
        None if read.is_empty() => Verdict::GoesOn,
        None if are_alike(read, header) => Verdict::Settles,
        None => Verdict::Fails,
    }
}

// What is wrong with the bytes first, if they are no header.
fn answer_fault(header: &[u8]) -> Option<BadPage>
    ensures { result ≡ answer_fault header.now }
{
    if header.len() != PART_LEN {
        return Some(BadPage::OtherLength);
    }
    header_fault(header)
}

// Whether GENCTR and NUMREC are the same in both.
fn are_alike(read: &[u8], header: &[u8]) -> bool
    requires read { 16 ≤ length read.now }
    requires header { 16 ≤ length header.now }
    ensures { result ≡ are_alike read.now header.now }
{
    u64_at(read, 0) == u64_at(header, 0) && u64_at(read, 8) == u64_at(header, 8)
}
