//! The reasons against an edit of the hosts and the allows.
ghost use Rattle.std.specs.Prelude.{◌≡◌, not};
ghost use Rattle.nvt_config.specs.Accept.{accept, refuse, verdict};
ghost use Rattle.nvt_config.specs.Configuration.{has_live_host, has_subsystem};

use super::refuse;
use crate::lists::Lists;
use config_lists::allow::{has_allow, is_host_allowed};
use config_lists::host::{has_host, has_live_host};
use config_lists::show::is_host_shown;
use config_lists::{Edit, EditFault, Item};
use nvt_fields::Nqn;

const HOSTS_MAX: usize = 256;

const ALLOWS_MAX: usize = 1_024;

impl Lists<'_> {
    // A name that was added before needs no further place.
    pub(super) fn check_host_add(&self, nqn: &Nqn) -> Result<(), EditFault>
        ensures { result ≡ verdict (accept self.now (Edit.HostAdd nqn.now)) }
    {
        refuse(
            has_live_host(self.hosts, nqn),
            EditFault::Exists(Item::Host),
        )?;
        refuse(
            !has_host(self.hosts, nqn) && self.hosts.len() >= HOSTS_MAX,
            EditFault::Full(Item::Host),
        )
    }

    pub(super) fn check_host_del(&self, nqn: &Nqn) -> Result<(), EditFault>
        ensures { result ≡ verdict (accept self.now (Edit.HostDel nqn.now)) }
    {
        self.wants_host(nqn)?;
        refuse(
            is_host_allowed(self.allows, nqn),
            EditFault::InUse(Item::Allow),
        )?;
        refuse(is_host_shown(self.shows, nqn), EditFault::InUse(Item::Show))
    }

    pub(super) fn check_allow_add(&self, subsystem: &Nqn, host: &Nqn) -> Result<(), EditFault>
        ensures { result ≡ verdict (accept self.now (Edit.AllowAdd subsystem.now host.now)) }
    {
        self.wants_pair(subsystem, host)?;
        refuse(
            has_allow(self.allows, subsystem.as_bytes(), host.as_bytes()),
            EditFault::Exists(Item::Allow),
        )?;
        refuse(
            self.allows.len() >= ALLOWS_MAX,
            EditFault::Full(Item::Allow),
        )
    }

    pub(super) fn check_allow_del(&self, subsystem: &Nqn, host: &Nqn) -> Result<(), EditFault>
        ensures { result ≡ verdict (accept self.now (Edit.AllowDel subsystem.now host.now)) }
    {
        self.wants_pair(subsystem, host)?;
        refuse(
            !has_allow(self.allows, subsystem.as_bytes(), host.as_bytes()),
            EditFault::NoSuch(Item::Allow),
        )
    }

    // The subsystem, and the host live.
    fn wants_pair(&self, subsystem: &Nqn, host: &Nqn) -> Result<(), EditFault>
        ensures { result ≡
            refuse (not (has_subsystem self.now.subsystems subsystem.now))
            (EditFault.NoSuch Item.Subsystem) (
            refuse (not (has_live_host self.now.hosts host.now))
            (EditFault.NoSuch Item.Host) (Ok tt)) }
    {
        self.wants_subsystem(subsystem)?;
        self.wants_host(host)
    }

    pub(super) fn wants_host(&self, nqn: &Nqn) -> Result<(), EditFault>
        ensures { result ≡ refuse (not (has_live_host self.now.hosts nqn.now))
            (EditFault.NoSuch Item.Host) (Ok tt) }
    {
        refuse(
            !has_live_host(self.hosts, nqn),
            EditFault::NoSuch(Item::Host),
        )
    }
}
