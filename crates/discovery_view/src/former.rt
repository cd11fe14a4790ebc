//! What makes the records of the discovery log page, and counts them.
ghost use Rattle.std.specs.Prelude.{◌≡◌, ◌≤◌, ◌+◌, IfOk, OnErr, length, map};
ghost use Rattle.discovery_view.specs.Record.{record_of};

use crate::entry::Entry;
use crate::kept::KeptRecord;
use crate::record::RECORD_LEN;
use std::alloc::{AllocError, Global};

/// Makes the records of a view, and counts them. A view has the one that it was given, and no call
/// makes another; none takes memory.
pub trait Former {
    ghost use Rattle.std.specs.Prelude.{◌≡◌, ◌+◌, ◌-◌, ◌^◌, ℕ, List, min};
    ghost use Rattle.discovery_view.specs.Record.{record_of};

    /// A record of the discovery log page (Base 2.0, section 5.16.1.23).
    type Record: Drop;

    /// The bytes of a record.
    ghost bytes_of: { Self.Record → List ℕ };

    /// How many records it formed, or the greatest number of 64 bits where they are more.
    ghost count: { Self → ℕ };

    /// Makes the record that tells this.
    fn form(&mut self, parts: &Entry<'_>) -> Self::Record
        ensures record { bytes_of result ≡ record_of parts.now }
        ensures counted { count self.new ≡ min (count self.old + 1) (2 ^ 64 - 1) };

    /// How many records it formed, or the greatest number of 64 bits where they are more.
    fn formed(&self) -> u64
        ensures { result ≡ count self.now };

    /// The bytes of a record.
    fn bytes(formed: &Self::Record) -> &[u8; 1024]
        ensures { result.now ≡ bytes_of formed.now };
}

/// Makes the records as the standard has them.
#[derive(Drop)]
pub struct RecordFormer {
    count: u64,
}

/// A record of the discovery log page.
#[derive(Drop)]
pub struct FormedRecord {
    bytes: [u8; 1024],
}

impl RecordFormer {
    /// One that formed none yet.
    pub fn new() -> RecordFormer
        ensures { ⟦<RecordFormer as Former>⟧.count result ≡ 0 }
    {
        RecordFormer { count: 0 }
    }
}

impl Former for RecordFormer {
    type Record = FormedRecord;

    ghost bytes_of = { λ r. r.bytes };

    ghost count = { λ f. f.count };

    fn form(&mut self, parts: &Entry<'_>) -> FormedRecord {
        let mut bytes = [0; RECORD_LEN];
        parts.write(&mut bytes);
        self.count = self.count.saturating_add(1);
        FormedRecord { bytes }
    }

    fn formed(&self) -> u64 {
        self.count
    }

    fn bytes(formed: &FormedRecord) -> &[u8; 1024] {
        &formed.bytes
    }
}

/// Makes a record of each of these. Where memory runs out none is made.
pub(crate) fn form_all<F: Former>(
    alloc: Global,
    former: &mut F,
    kept: &[KeptRecord],
) -> Result<Vec<F::Record>, AllocError>
    ensures records { IfOk result (λ made. map F.bytes_of made.items ≡ map record_of kept.now) }
    ensures unformed { OnErr result (F.count former.new ≡ F.count former.old) }
    ensures count { F.count former.new ≤ F.count former.old + length kept.now }
{
    let mut records = Vec::with_capacity(alloc, kept.len())?;
    for record in kept {
        records.push_reserved(former.form(&record.entry()));
    }
    Ok(records)
}
