//! The namespaces that changed since a host last read which, and the Changed Namespace List (Base 2.0,
//! section 5.16.1.5).
ghost use Rattle.std.specs.Prelude.{◌≡◌, ◌≤◌, [], ◌∷◌, length, nat_lt, true};
ghost use Rattle.std.specs.List.{list_any};
ghost use Rattle.config_lists.specs.NsidSet.{IsNsidSet, with_nsid};
ghost use Rattle.change_lists.specs.ActiveList.{list_page};
ghost use Rattle.change_lists.specs.ChangedSet.{ChangedIsListed, changed_page, empties, with_all};
ghost use Rattle.change_lists.specs.ActiveView.{PlansEdit};
ghost use Rattle.change_lists.specs.Changes.{ChangesAreNoted, changes_namespaces, with_changes};
ghost use Rattle.nvt_config.specs.Configuration.{Configuration};
ghost use Rattle.nvt_config.specs.SeenBy.{seen_by};
ghost use Rattle.nvt_fields.specs.Window.{window};

use crate::plan::Plan;
use config_lists::{NsidSet, Nsids};
use nvt_fields::write_part;
use std::marker::Model;

// How many bytes an entry of the list has.
const ENTRY_LEN: u64 = 4;

// The most identifiers that the list has.
const ENTRIES_MAX: usize = 1_024;

// The entry that stands for more.
const OVERFLOWED: u32 = 0xFFFF_FFFF;

/// How many bytes the Changed Namespace List has.
const PAGE_LEN: u64 = 4_096;

/// The identifiers of the namespaces that changed, for one controller. It takes no memory, and forgets
/// none, however many they are.
#[derive(Drop)]
pub struct ChangedSet {
    nsids: NsidSet,
}

impl Model for ChangedSet {
    ghost use Rattle.std.specs.Prelude.{ℕ, List};
    ghost use Rattle.config_lists.specs.NsidSet.{IsNsidSet};

    ghost Value = { List ℕ };

    ghost view = { λ s. s.nsids };

    ghost invariant = { λ s. IsNsidSet s.nsids };
}

impl ChangedSet {
    /// No namespace.
    pub fn new() -> ChangedSet
        ensures { result ≡ [] }
    {
        ChangedSet {
            nsids: NsidSet::new(),
        }
    }

    /// The namespace of this identifier has changed. It stays in the set, whatever else is noted. An
    /// identifier that no namespace may have, outside 1 to 4,096, changes nothing.
    pub fn note(&mut self, nsid: u32)
        ensures { self.new ≡ with_nsid nsid self.old }
    {
        self.nsids.insert(nsid);
    }

    /// Notes each namespace of the subsystem whose size, block size, UUID or presence an edit that is
    /// planned changes as the host of that name sees it; whether there is one. What an edit changes was
    /// compared as it was prepared.
    pub fn note_planned(&mut self, plan: &Plan, host: &[u8], subsystem: &[u8]) -> bool
        ensures changed { (old new : Configuration) → PlansEdit old new plan.now
            → result ≡ changes_namespaces (seen_by old host.now) (seen_by new host.now) subsystem.now }
        ensures noted { (old new : Configuration) → PlansEdit old new plan.now → self.new
            ≡ with_changes (seen_by old host.now) (seen_by new host.now) subsystem.now self.old }
    {
        match plan.changed(host, subsystem) {
            Some(changed) => add_all(&mut self.nsids, changed),
            None => false,
        }
    }

    /// Fills `out` with the list from an offset on: 4,096 bytes, the identifiers rising, 4 bytes each,
    /// and zeros after them and past the end. Of more than 1,024 it lists none: it is FFFFFFFFh and zeros.
    pub fn page(&self, offset: u64, out: &mut [u8])
        ensures { out.new ≡ window (changed_page self.now) offset (length out.old) }
    {
        if self.nsids.len() > ENTRIES_MAX {
            write_overflow(out, offset);
        } else {
            write_nsids(out, offset, self.nsids.iter());
        }
    }

    /// How many bytes the list has: 4,096, whatever the set has.
    pub fn len(&self) -> u64
        ensures { result ≡ length (changed_page self.now) }
    {
        let _ = &self.nsids;
        PAGE_LEN
    }

    /// Whether an offset is past the end of the list.
    pub fn is_past_end(&self, offset: u64) -> bool
        ensures { result ≡ nat_lt (length (changed_page self.now)) offset }
    {
        offset > self.len()
    }

    /// Empties the set.
    pub fn clear(&mut self)
        ensures { self.new ≡ [] }
    {
        *self = ChangedSet::new();
    }
}

// Adds each of these; whether there is one.
fn add_all(set: &mut NsidSet, more: &NsidSet) -> bool
    requires { IsNsidSet set.old }
    ensures any { result ≡ list_any (λ _. true) more.now }
    ensures all { set.new ≡ with_all more.now set.old }
{
    let mut any = false;
    for nsid in more.iter() {
        set.insert(nsid);
        any = true;
    }
    any
}

// Fills `out` with the list of more identifiers than it can have, from an offset on.
fn write_overflow(out: &mut [u8], offset: u64)
    ensures { out.new ≡ window (list_page (OVERFLOWED ∷ [])) offset (length out.old) }
{
    out.fill(0);
    write_part(out, offset, 0, &OVERFLOWED.to_le_bytes());
}

// Fills `out` with the list of these identifiers, from an offset on.
fn write_nsids(out: &mut [u8], offset: u64, nsids: Nsids<'_>)
    requires { length nsids ≤ 1024 }
    ensures { out.new ≡ window (list_page nsids.entry) offset (length out.old) }
{
    out.fill(0);
    let mut at = 0;
    for nsid in nsids {
        write_part(out, offset, at, &nsid.to_le_bytes());
        at += ENTRY_LEN;
    }
}

/// Whether a successful read of so many bytes of the list from an offset on empties the set: one of
/// all 4,096 does, whatever it says of the event, and one of a part does not.
pub fn empties(offset: u64, len: u64) -> bool
    ensures { result ≡ empties offset len }
{
    offset == 0 && len >= PAGE_LEN
}

/// Whatever happened to a controller, the set has exactly the namespaces that changed by some edit
/// since it was last emptied, where what each edit changes is noted; a namespace that goes and comes
/// back as it was is one of them. This is a fact of the definitions; a call does nothing.
#[tactic(auto, using(crate::proofs::Changed::changes_are_noted))]
pub fn changes_are_noted()
    ensures { ChangesAreNoted }
{}

/// Whatever changed, the list has 4,096 bytes. Up to 1,024 identifiers are listed, with zeros behind
/// them; of more none is, and the first 4 bytes, FFFFFFFFh, say so. This is a fact of the definitions; a
/// call does nothing.
pub fn changed_is_listed()
    ensures { ChangedIsListed }
{}
