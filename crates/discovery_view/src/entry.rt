//! What a host is shown: a subsystem on a port, or a referral.
ghost use Rattle.std.specs.Prelude.{◌≡◌, ◌≤◌, IfOk, IsTrue, length};
ghost use Rattle.config_lists.specs.Port.{is_port};
ghost use Rattle.discovery_view.specs.Catalog.{is_referral};
ghost use Rattle.discovery_view.specs.Record.{record_of, same_parts};
ghost use Rattle.discovery_view.specs.Same.{same_parts_laws};
ghost use Rattle.discovery_view.specs.Records.{parts_of, parts_on, referral_of};

use crate::kept::KeptRecord;
use crate::record::{RECORD_LEN, Subtype, record_head};
use itoa::Buffer;
use nvt_config::{Port, Subsystem};
use nvt_fields::{DISCOVERY_NQN, write_spaced, write_zeroed};
use std::alloc::{AllocError, Global};
use std::marker::Model;

/// What a record tells: what it leads to, which is a subsystem or another discovery controller, the
/// port, by its number, its address and the address's family and its TCP port number, and the name.
#[derive(Drop)]
pub struct Entry<'a> {
    subtype: Subtype,
    port: &'a Port,
    // The name of the subsystem.
    nqn: &'a [u8],
}

impl<'a> Model for Entry<'a> {
    ghost use Rattle.std.specs.Prelude.{◌≤◌, IsTrue, length};
    ghost use Rattle.config_lists.specs.Port.{is_port};
    ghost use Rattle.discovery_view.specs.Record.{Parts};
    ghost use Rattle.discovery_view.specs.Records.{parts_on};

    ghost Value = { Parts };

    ghost view = { λ e. parts_on e.subtype e.port.now e.nqn.now };

    ghost invariant = { λ e. IsTrue (is_port e.port.now) × (length e.nqn.now ≤ 223) };
}

impl<'a> Entry<'a> {
    /// That of a subsystem on a port.
    pub(crate) fn new(port: &'a Port, subsystem: &'a Subsystem) -> Entry<'a>
        requires { IsTrue (is_port port.now) }
        ensures parts { result ≡ parts_of port.now subsystem.now }
        ensures len { length (record_of (parts_of port.now subsystem.now)) ≡ 1024 }
    {
        // A name has at most 223 bytes.
        let _ = subsystem.nqn.len();
        Entry {
            subtype: Subtype::NvmSubsystem,
            port,
            nqn: subsystem.nqn.as_bytes(),
        }
    }

    /// That of a referral, which has the discovery subsystem's name.
    pub(crate) fn referral(port: &'a Port) -> Entry<'a>
        requires { IsTrue (is_port port.now) }
        ensures parts { result ≡ referral_of port.now }
        ensures len { length (record_of (referral_of port.now)) ≡ 1024 }
    {
        Entry {
            subtype: Subtype::Referral,
            port,
            nqn: DISCOVERY_NQN.as_slice(),
        }
    }

    /// That of the subsystem or the referral of this name, of at most 223 bytes, on a port.
    pub(crate) fn on(subtype: Subtype, port: &'a Port, nqn: &'a [u8]) -> Entry<'a>
        requires port { IsTrue (is_port port.now) }
        requires name { length nqn.now ≤ 223 }
        ensures { result ≡ parts_on subtype port.now nqn.now }
    {
        Entry { subtype, port, nqn }
    }

    /// Whether it is a referral, which each host is shown.
    pub(crate) fn is_referral(&self) -> bool
        ensures { result ≡ is_referral self.now.subtype }
    {
        match self.subtype {
            Subtype::Referral => true,
            Subtype::NvmSubsystem => false,
        }
    }

    /// The name.
    pub(crate) fn nqn(&self) -> &'a [u8]
        ensures { result.now ≡ self.now.nqn }
    {
        self.nqn
    }

    /// What is shown, as a view keeps it.
    pub(crate) fn kept(&self, alloc: Global) -> Result<KeptRecord, AllocError>
        ensures { IfOk result (λ kept. kept ≡ self.now) }
    {
        KeptRecord::new(alloc, self.subtype, self.port, self.nqn)
    }

    /// Writes the record, of 1,024 bytes.
    pub fn write(&self, bytes: &mut [u8])
        requires { length bytes.old ≡ 1024 }
        ensures { bytes.new ≡ record_of self.now }
    {
        let port = self.port;
        let (head, rest) = bytes.split_at_mut(32);
        let (service, rest) = rest.split_at_mut(32);
        let (gap, rest) = rest.split_at_mut(192);
        let (name, rest) = rest.split_at_mut(256);
        let (address, specific) = rest.split_at_mut(256);
        head.copy_from_slice(&record_head(self.subtype, port));
        write_spaced(service, Buffer::new().format(port.service).as_bytes());
        gap.fill(0);
        write_zeroed(name, self.nqn);
        write_spaced(address, port.address.as_bytes());
        specific.fill(0);
    }
}

/// Entries are equal where their records tell the same.
impl PartialEq for Entry<'_> {
    ghost eq = { same_parts };

    ghost laws = { same_parts_laws };

    fn eq(&self, other: &Entry<'_>) -> bool {
        let (port, that) = (self.port, other.port);
        self.subtype == other.subtype
            && port.family == that.family
            && port.id == that.id
            && port.service == that.service
            && self.nqn == other.nqn
            && port.address.as_bytes() == that.address.as_bytes()
    }
}
