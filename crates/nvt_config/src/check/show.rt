//! The reasons against an edit of who sees a namespace.
ghost use Rattle.std.specs.Prelude.{◌≡◌, not};
ghost use Rattle.config_lists.specs.declared.namespace.Visibility.{Visibility};
ghost use Rattle.nvt_config.specs.Accept.{accept, refuse, verdict};
ghost use Rattle.nvt_config.specs.Configuration.{has_live_host, has_namespace, has_subsystem};

use super::refuse;
use crate::lists::Lists;
use config_lists::show::has_show;
use config_lists::{Edit, EditFault, Item};
use nvt_fields::Nqn;

const SHOWS_MAX: usize = 1_024;

impl Lists<'_> {
    pub(super) fn check_namespace_view(&self, subsystem: &Nqn, nsid: u64) -> Result<(), EditFault>
        ensures { (visibility : Visibility) → result ≡ verdict
            (accept self.now (Edit.NamespaceView subsystem.now nsid visibility)) }
    {
        self.wants_namespace(subsystem, nsid)
    }

    pub(super) fn check_namespace_show(
        &self,
        subsystem: &Nqn,
        nsid: u64,
        host: &Nqn,
    ) -> Result<(), EditFault>
        ensures { result ≡ verdict
            (accept self.now (Edit.NamespaceShow subsystem.now nsid host.now)) }
    {
        self.wants_viewer(subsystem, nsid, host)?;
        refuse(
            has_show(self.shows, subsystem.as_bytes(), nsid, host.as_bytes()),
            EditFault::Exists(Item::Show),
        )?;
        refuse(self.shows.len() >= SHOWS_MAX, EditFault::Full(Item::Show))
    }

    pub(super) fn check_namespace_hide(
        &self,
        subsystem: &Nqn,
        nsid: u64,
        host: &Nqn,
    ) -> Result<(), EditFault>
        ensures { result ≡ verdict
            (accept self.now (Edit.NamespaceHide subsystem.now nsid host.now)) }
    {
        self.wants_viewer(subsystem, nsid, host)?;
        refuse(
            !has_show(self.shows, subsystem.as_bytes(), nsid, host.as_bytes()),
            EditFault::NoSuch(Item::Show),
        )
    }

    // The namespace, and the host live.
    fn wants_viewer(&self, subsystem: &Nqn, nsid: u64, host: &Nqn) -> Result<(), EditFault>
        ensures { result ≡
            refuse (not (has_subsystem self.now.subsystems subsystem.now))
            (EditFault.NoSuch Item.Subsystem) (
            refuse (not (has_namespace self.now.namespaces subsystem.now nsid))
            (EditFault.NoSuch Item.Namespace) (
            refuse (not (has_live_host self.now.hosts host.now))
            (EditFault.NoSuch Item.Host) (Ok tt))) }
    {
        self.wants_namespace(subsystem, nsid)?;
        self.wants_host(host)
    }
}
