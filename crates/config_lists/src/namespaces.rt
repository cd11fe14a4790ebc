//! The namespaces of one subsystem that a host sees, by their identifiers.
ghost use Rattle.std.specs.Prelude.{◌≡◌, ◌≤◌, ◌+◌, ℕ, [], None, filter, find, length, map};
ghost use Rattle.std.specs.Prelude.{slice_index_or};
ghost use Rattle.std.specs.Option.{option_copied};
ghost use Rattle.config_lists.specs.Namespace.{is_named, nsid_max};
ghost use Rattle.config_lists.specs.Show.{is_seen};
ghost use Rattle.config_lists.specs.Nsids.{nsids_in};
ghost use Rattle.config_lists.specs.Tables.{IsEmptyTable, IsTable};

use crate::namespace::NSID_MAX;
use crate::onlooker::Onlooker;
use crate::place::put_first;
use crate::shows::Shows;
use crate::{Namespace, NsidSet, Nsids};
use std::marker::Model;

// How many places a table has: one for each identifier, and one for 0.
const PLACES: usize = NSID_MAX as usize + 1;

/// By NSID the namespaces of one subsystem that a host sees (Base 2.0, section 3.2.1). A contract sees
/// the list of them, from identifier 0 on.
#[derive(Drop)]
pub struct NamespaceTable<'a> {
    places: [Option<&'a Namespace>; PLACES],
    // The identifiers that have a namespace.
    taken: NsidSet,
}

impl<'a> Model for NamespaceTable<'a> {
    ghost use Rattle.std.specs.Prelude.{◌≡◌, List, Option, map};
    ghost use Rattle.std.specs.Option.{option_copied};
    ghost use Rattle.config_lists.specs.declared.namespace.Namespace.{Namespace};
    ghost use Rattle.config_lists.specs.Nsids.{nsids_in};

    ghost Value = { List (Option Namespace) };

    ghost view = { λ t. map option_copied t.places };

    ghost invariant = { λ t. t.taken ≡ nsids_in (map option_copied t.places) };
}

impl<'a> NamespaceTable<'a> {
    /// Those of a configuration's namespaces that the host of that name sees by these shows, of which
    /// the first of an identifier counts.
    pub fn of(
        namespaces: &'a [Namespace],
        shows: &Shows<'_>,
        host: &[u8],
        subsystem: &[u8],
    ) -> NamespaceTable<'a>
        ensures found { (nsid : ℕ) → nsid ≤ nsid_max
            → slice_index_or result nsid None ≡ find (is_named subsystem.now nsid)
            (filter (is_seen shows.now host.now) namespaces.now) }
        ensures len { length result ≡ nsid_max + 1 }
    {
        let mut places = [None; PLACES];
        let mut taken = NsidSet::new();
        set_places(&mut places, &mut taken, namespaces, shows, host, subsystem);
        NamespaceTable { places, taken }
    }

    /// The namespace of that identifier, if it is there.
    pub fn get(&self, nsid: u32) -> Option<&'a Namespace>
        ensures { option_copied result ≡ slice_index_or self.now nsid None }
    {
        match self.places.get(nsid as usize) {
            Some(place) => *place,
            None => None,
        }
    }

    /// The identifiers that have a namespace, rising. What this costs follows how many they are, and
    /// not the greatest that there may be.
    pub fn nsids(&self) -> Nsids<'_>
        ensures all { result ≡ nsids_in self.now }
        ensures few { length result ≤ nsid_max }
    {
        self.taken.iter()
    }
}

// Sets the place of each namespace of the subsystem that the host sees, in a table that has none, and
// takes its identifier.
fn set_places<'a>(
    places: &mut [Option<&'a Namespace>; PLACES],
    taken: &mut NsidSet,
    namespaces: &'a [Namespace],
    shows: &Shows<'_>,
    host: &[u8],
    subsystem: &[u8],
)
    requires empty { IsEmptyTable places.old }
    requires none { taken.old ≡ [] }
    ensures places { IsTable (is_named subsystem.now)
        (filter (is_seen shows.now host.now) namespaces.now) places.new }
    ensures taken { taken.new ≡ nsids_in (map option_copied places.new) }
    ensures len { length places.new ≡ nsid_max + 1 }
{
    let onlooker = Onlooker::new(shows, host, subsystem);
    for namespace in namespaces {
        if onlooker.sees(namespace) {
            put_first(places, namespace.nsid as usize, namespace);
            taken.insert(namespace.nsid);
        }
    }
}
