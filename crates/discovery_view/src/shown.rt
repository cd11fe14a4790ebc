//! The records that a host is shown.
ghost use Rattle.std.specs.Prelude.{◌≡◌, ◌<◌, All, length, slice_index_or};
ghost use Rattle.discovery_view.specs.Catalog.{no_parts, records_at};
ghost use Rattle.discovery_view.specs.Ready.{AreReady, IsWithin, row_at};
ghost use Rattle.discovery_view.specs.Record.{same_records};
ghost use Rattle.discovery_view.specs.View.{count_after};

use crate::entry::Entry;
use crate::kept::KeptRecord;
use crate::ready::Ready;
use std::marker::Model;

/// The records of a host, in the page's order, and how often edits changed them. A contract sees what
/// the records tell.
#[derive(Drop)]
pub(crate) struct ShownRecords<'a> {
    // The table of records, and the places in it.
    slots: &'a [KeptRecord],
    places: &'a [usize],
    count: u64,
}

impl<'a> Model for ShownRecords<'a> {
    ghost use Rattle.discovery_view.specs.Ready.{IsWithin, row_at};
    ghost use Rattle.discovery_view.specs.View.{Row};

    ghost Value = { Row };

    ghost view = { λ r. row_at r.slots.now (record { places = r.places.now; count = r.count }) };

    ghost invariant = { λ r. IsWithin r.slots.now (record { places = r.places.now; count = r.count }) };
}

impl<'a> ShownRecords<'a> {
    /// Those at these places of a table.
    pub(crate) fn new(slots: &'a [KeptRecord], ready: &'a Ready) -> ShownRecords<'a>
        requires { IsWithin slots.now ready.now }
        ensures { result ≡ row_at slots.now ready.now }
    {
        ShownRecords {
            slots,
            places: ready.places(),
            count: ready.count(),
        }
    }

    // How many they are.
    fn len(&self) -> usize
        ensures len { result ≡ length self.now.records }
        ensures ready { AreReady self.now.records }
    {
        self.places.len()
    }

    // The record of this number.
    fn get(&self, index: usize) -> &KeptRecord
        requires { index < length self.now.records }
        ensures { result.now ≡ slice_index_or self.now.records index no_parts }
    {
        let (slots, places) = (self.slots, self.places);
        &slots[places[index]]
    }

    /// The count where the records become those at these places of a catalog.
    pub(crate) fn count_after(&self, places: &[usize], catalog: &[Entry<'_>]) -> u64
        requires { All (λ place. place < length catalog.now) places.now }
        ensures { result ≡ count_after self.now.records (records_at catalog.now places.now)
            self.now.count }
    {
        if self.is_same(places, catalog) {
            self.count
        } else {
            self.count.wrapping_add(1)
        }
    }

    // Whether these tell the same.
    fn is_same(&self, places: &[usize], catalog: &[Entry<'_>]) -> bool
        requires { All (λ place. place < length catalog.now) places.now }
        ensures { result ≡ same_records self.now.records (records_at catalog.now places.now) }
    {
        if self.len() != places.len() {
            return false;
        }
        for (index, place) in places.iter().enumerate() {
            if self.get(index).entry() != catalog[*place] {
                return false;
            }
        }
        true
    }
}
