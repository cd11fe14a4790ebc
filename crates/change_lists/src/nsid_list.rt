//! A list of namespaces' identifiers that is ready.
ghost use Rattle.std.specs.Prelude.{◌≡◌, ◌↔◌, [], IfOk, IsTrue};
ghost use Rattle.config_lists.specs.Numbered.{active_nsids};

use config_lists::Nsids;
use nvt_config::Seen;
use std::alloc::{AllocError, Global};
use std::marker::Model;

/// The identifiers of the namespaces of one subsystem that a host sees, rising.
#[derive(Drop)]
pub(crate) struct NsidList {
    nsids: Vec<u32>,
}

impl Model for NsidList {
    ghost use Rattle.std.specs.Prelude.{ℕ, List};

    ghost Value = { List ℕ };

    ghost view = { λ l. l.nsids.items };
}

impl NsidList {
    /// None.
    pub(crate) fn empty(alloc: Global) -> NsidList
        ensures { result ≡ [] }
    {
        NsidList {
            nsids: Vec::new(alloc),
        }
    }

    /// Those of a subsystem.
    pub(crate) fn of(
        alloc: Global,
        seen: &Seen<'_>,
        subsystem: &[u8],
    ) -> Result<NsidList, AllocError>
        ensures { IfOk result (λ list. list ≡ active_nsids seen.now.namespaces subsystem.now) }
    {
        let table = seen.table(subsystem);
        listed(alloc, table.nsids())
    }

    /// All of them.
    pub(crate) fn as_slice(&self) -> &[u32]
        ensures { result.now ≡ self.now }
    {
        self.nsids.as_slice()
    }

    /// Whether there is none.
    pub(crate) fn is_empty(&self) -> bool
        ensures { IsTrue result ↔ (self.now ≡ []) }
    {
        self.nsids.is_empty()
    }
}

// The identifiers that are left, as a list of their own.
fn listed(alloc: Global, left: Nsids<'_>) -> Result<NsidList, AllocError>
    ensures { IfOk result (λ list. list ≡ left.entry) }
{
    let mut nsids = Vec::new(alloc);
    for nsid in left {
        nsids.push(nsid)?;
    }
    Ok(NsidList { nsids })
}
