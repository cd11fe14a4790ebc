//! The bytes of the discovery log page (Base 2.0, section 5.16.1.23).
ghost use Rattle.std.specs.Prelude.{◌≡◌, ◌≤◌, ◌+◌, ◌*◌, ◌^◌, ◌++◌, ◌⊎◌, ℕ, List, length, slice_range};
ghost use Rattle.std.specs.List.{flat_map};
ghost use Rattle.nvt_fields.specs.Window.{window};
ghost use Rattle.discovery_view.specs.Page.{discovery_page};
ghost use Rattle.discovery_view.specs.Record.{record_of};

use crate::formed::FormedRecords;
use crate::former::Former;
use crate::record::RECORD_LEN;
use nvt_fields::write_part;

// The length of a record, and of the page's header.
const LEN: u64 = RECORD_LEN as u64;

/// Fills `out` with the page of these records and this count from an offset on, and with zeros past
/// its end. Only the records that `out` shows are looked at.
pub(crate) fn write_page<F: Former>(out: &mut [u8], offset: u64, records: &FormedRecords<'_, F>)
    ensures { out.new ≡ window (discovery_page records.now.count records.now.records) offset
        (length out.old) }
{
    let count = records.len();
    out.fill(0);
    write_part(out, offset, 0, &records.count().to_le_bytes());
    write_part(out, offset, 8, &(count as u64).to_le_bytes());
    let (first, last) = shown(offset, out.len(), count);
    let at = LEN + LEN * first as u64;
    write_records(out, offset, at, records, first, last);
}

// Which of so many records may show in so many bytes of the page from an offset on: the place of the
// first, and the place after the last.
fn shown(offset: u64, len: usize, records: usize) -> (usize, usize)
    requires { records ≤ 1056 }
    ensures order { result.0 ≤ result.1 }
    ensures within { result.1 ≤ records }
    ensures before { (result.0 ≡ 0) ⊎ (1024 + 1024 * result.0 ≤ offset) }
    ensures after { (result.1 ≡ records) ⊎ (offset + len ≤ 1024 + 1024 * result.1) }
{
    let passed = (offset / LEN).saturating_sub(1);
    let first = passed.min(records as u64) as usize;
    let last = (first as u64 + (len as u64 / LEN + 2)).min(records as u64) as usize;
    (first, last)
}

// Goes on with a page of `at` bytes, of which `out` shows a part: with the records from the first to
// the one before the last.
fn write_records<F: Former>(
    out: &mut [u8],
    offset: u64,
    at: u64,
    records: &FormedRecords<'_, F>,
    first: usize,
    last: usize,
)
    requires place { at ≤ 2 ^ 32 }
    requires order { first ≤ last }
    requires within { last ≤ length records.now.records }
    requires few { length records.now.records ≤ 1056 }
    ensures { (page : List ℕ) → length page ≡ at → out.old ≡ window page offset (length out.old)
        → out.new ≡ window
        (page ++ flat_map record_of (slice_range records.now.records first last)) offset
        (length out.old) }
{
    let mut next = at;
    for index in first..last {
        write_part(out, offset, next, F::bytes(records.get(index)));
        next += LEN;
    }
}

/// The length of the page of these records, in bytes.
pub(crate) fn page_len<F: Former>(records: &FormedRecords<'_, F>) -> u64
    ensures { (generation : ℕ) → result ≡ length (discovery_page generation records.now.records) }
{
    LEN + LEN * records.len() as u64
}
