//! What a view has ready for a host: the places of its records in the table, and its generation
//! counter.
ghost use Rattle.std.specs.Prelude.{◌≡◌, ◌<◌, All, IfOk, length};
ghost use Rattle.discovery_view.specs.Catalog.{catalog_of, places_by, records_at};
ghost use Rattle.discovery_view.specs.Ready.{count_from, places_after};
ghost use Rattle.discovery_view.specs.View.{count_after};

use crate::allowed::{allowed, is_among};
use crate::catalog::Catalog;
use crate::entry::Entry;
use crate::shown::ShownRecords;
use std::alloc::{AllocError, Global};
use std::marker::Model;

/// The places of the records of a host, in the page's order, and how often edits changed the records,
/// modulo 2^64.
#[derive(Drop)]
pub(crate) struct Ready {
    places: Vec<usize>,
    count: u64,
}

impl Model for Ready {
    ghost use Rattle.discovery_view.specs.Ready.{Places};

    ghost Value = { Places };

    ghost view = { λ r. record { places = r.places.items; count = r.count } };
}

impl Ready {
    /// Those of the records of a configuration, its catalog, that it shows to a host. The count goes
    /// on from the one before, or begins at 0.
    pub(crate) fn following(
        alloc: Global,
        before: Option<ShownRecords<'_>>,
        catalog: &Catalog<'_>,
        host: &[u8],
    ) -> Result<Ready, AllocError>
        ensures { IfOk result (λ ready. ready ≡ places_after before.entry catalog.now host.now) }
    {
        let names = allowed(alloc, catalog.config(), host)?;
        Ready::allowed_by(alloc, before, catalog, &names)
    }

    /// Those of the records of a catalog that one is shown whom the subsystems of these names allow.
    pub(crate) fn allowed_by(
        alloc: Global,
        before: Option<ShownRecords<'_>>,
        catalog: &Catalog<'_>,
        names: &[&[u8]],
    ) -> Result<Ready, AllocError>
        ensures { IfOk result (λ ready. ready ≡ record {
          places = places_by catalog.now names.now;
          count = count_from before.entry
              (records_at (catalog_of catalog.now) (places_by catalog.now names.now));
        }) }
    {
        let places = shown_places(alloc, catalog, names)?;
        let count = count_from(before, &places, catalog.entries());
        Ok(Ready { places, count })
    }

    /// Those at the same places as before, where the records there are those of a catalog. The count goes
    /// on.
    pub(crate) fn staying(
        alloc: Global,
        before: ShownRecords<'_>,
        places: &[usize],
        catalog: &Catalog<'_>,
    ) -> Result<Ready, AllocError>
        requires { All (λ place. place < length (catalog_of catalog.now)) places.now }
        ensures { IfOk result (λ ready. ready ≡ record {
          places = places.now;
          count = count_after before.entry.records (records_at (catalog_of catalog.now) places.now)
              before.entry.count;
        }) }
    {
        let count = before.count_after(places, catalog.entries());
        let places = Vec::from_slice(alloc, places)?;
        Ok(Ready { places, count })
    }

    /// The places of the records, in the page's order.
    pub(crate) fn places(&self) -> &[usize]
        ensures { result.now ≡ self.now.places }
    {
        &self.places
    }

    /// How often edits changed the records, modulo 2^64.
    pub(crate) fn count(&self) -> u64
        ensures { result ≡ self.now.count }
    {
        self.count
    }
}

// The count after these records, which become those at these places of a catalog.
fn count_from(before: Option<ShownRecords<'_>>, places: &[usize], catalog: &[Entry<'_>]) -> u64
    requires { All (λ place. place < length catalog.now) places.now }
    ensures { result ≡ count_from before.entry (records_at catalog.now places.now) }
{
    match before {
        Some(before) => before.count_after(places, catalog),
        None => 0,
    }
}

// The places of the records that one is shown whom the subsystems of these names allow.
fn shown_places(
    alloc: Global,
    catalog: &Catalog<'_>,
    names: &[&[u8]],
) -> Result<Vec<usize>, AllocError>
    ensures { IfOk result (λ places. places.items ≡ places_by catalog.now names.now) }
{
    let (entries, for_all) = (catalog.entries(), catalog.for_all());
    let mut places = Vec::new(alloc);
    for (place, entry) in entries.iter().enumerate() {
        if for_all[place] || is_among(names, entry.nqn()) {
            places.push(place)?;
        }
    }
    Ok(places)
}
