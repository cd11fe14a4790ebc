//! A record as a view keeps it.
ghost use Rattle.std.specs.Prelude.{◌≡◌, ◌≤◌, IfOk, IsTrue, length};
ghost use Rattle.config_lists.specs.Port.{is_port};
ghost use Rattle.discovery_view.specs.Record.{same_parts};
ghost use Rattle.discovery_view.specs.Records.{parts_on};
ghost use Rattle.discovery_view.specs.Same.{same_parts_laws};

use crate::entry::Entry;
use crate::record::Subtype;
use nvt_config::Port;
use std::alloc::{AllocError, Global};
use std::marker::Model;

/// A record that stays as it is when the configuration goes over to another. A contract sees what it
/// tells.
#[derive(Drop)]
pub(crate) struct KeptRecord {
    subtype: Subtype,
    port: Port,
    // The name of the subsystem.
    nqn: Vec<u8>,
}

impl Model for KeptRecord {
    ghost use Rattle.std.specs.Prelude.{◌≤◌, IsTrue, length};
    ghost use Rattle.config_lists.specs.Port.{is_port};
    ghost use Rattle.discovery_view.specs.Record.{Parts};
    ghost use Rattle.discovery_view.specs.Records.{parts_on};

    ghost Value = { Parts };

    ghost view = { λ r. parts_on r.subtype r.port r.nqn.items };

    ghost invariant = { λ r. IsTrue (is_port r.port) × (length r.nqn.items ≤ 223) };
}

impl KeptRecord {
    /// That of the subsystem or the referral of this name, of at most 223 bytes, on a port.
    pub(crate) fn new(
        alloc: Global,
        subtype: Subtype,
        port: &Port,
        nqn: &[u8],
    ) -> Result<KeptRecord, AllocError>
        requires port { IsTrue (is_port port.now) }
        requires name { length nqn.now ≤ 223 }
        ensures { IfOk result (λ kept. kept ≡ parts_on subtype port.now nqn.now) }
    {
        Ok(KeptRecord {
            subtype,
            port: port.clone()?,
            nqn: Vec::from_slice(alloc, nqn)?,
        })
    }

    /// What it tells.
    pub(crate) fn entry(&self) -> Entry<'_>
        ensures { result ≡ self.now }
    {
        Entry::on(self.subtype, &self.port, &self.nqn)
    }
}

/// Records are equal where they tell the same.
impl PartialEq for KeptRecord {
    ghost eq = { same_parts };

    ghost laws = { same_parts_laws };

    fn eq(&self, other: &KeptRecord) -> bool {
        self.entry() == other.entry()
    }
}
