//! The formed records that a host is shown.
ghost use Rattle.std.specs.Prelude.{◌≡◌, ◌<◌, length, map, slice_index_or};
ghost use Rattle.discovery_view.specs.Catalog.{no_parts};
ghost use Rattle.discovery_view.specs.Ready.{AreReady, IsWithin, row_at};
ghost use Rattle.discovery_view.specs.Record.{record_of};

use crate::former::Former;
use crate::kept::KeptRecord;
use crate::ready::Ready;
use std::marker::Model;

/// The records of a host, in the page's order, as they were formed, and how often edits changed them.
/// A contract sees what the records tell.
#[derive(Drop)]
pub(crate) struct FormedRecords<'a, F: Former> {
    // The table of records, formed and as a view keeps them, and the places in it.
    formed: &'a [F::Record],
    slots: &'a [KeptRecord],
    ready: &'a Ready,
}

impl<'a, F: Former> Model for FormedRecords<'a, F> {
    ghost use Rattle.std.specs.Prelude.{◌≡◌, map};
    ghost use Rattle.discovery_view.specs.Ready.{IsWithin, row_at};
    ghost use Rattle.discovery_view.specs.Record.{record_of};
    ghost use Rattle.discovery_view.specs.View.{Row};

    ghost Value = { Row };

    ghost view = { λ r. row_at r.slots.now r.ready.now };

    ghost invariant = { λ r. IsWithin r.slots.now r.ready.now
        × (map F.bytes_of r.formed.now ≡ map record_of r.slots.now) };
}

impl<'a, F: Former> FormedRecords<'a, F> {
    /// Those at these places of a table.
    pub(crate) fn new(
        formed: &'a [F::Record],
        slots: &'a [KeptRecord],
        ready: &'a Ready,
    ) -> FormedRecords<'a, F>
        requires within { IsWithin slots.now ready.now }
        requires formed { map F.bytes_of formed.now ≡ map record_of slots.now }
        ensures { result ≡ row_at slots.now ready.now }
    {
        FormedRecords {
            formed,
            slots,
            ready,
        }
    }

    /// How often edits changed them, modulo 2^64.
    pub(crate) fn count(&self) -> u64
        ensures { result ≡ self.now.count }
    {
        self.ready.count()
    }

    /// How many they are.
    pub(crate) fn len(&self) -> usize
        ensures len { result ≡ length self.now.records }
        ensures ready { AreReady self.now.records }
    {
        self.ready.places().len()
    }

    /// The record of this number.
    pub(crate) fn get(&self, index: usize) -> &'a F::Record
        requires { index < length self.now.records }
        ensures { F.bytes_of result.now
            ≡ record_of (slice_index_or self.now.records index no_parts) }
    {
        let (formed, places) = (self.formed, self.ready.places());
        &formed[places[index]]
    }
}
