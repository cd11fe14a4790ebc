//! Why an edit is refused.
ghost use Rattle.std.specs.Prelude.{◌≡◌, not};
ghost use Rattle.nvt_config.specs.Accept.{accept, refuse, verdict};
ghost use Rattle.nvt_config.specs.Configuration.{has_link, has_port, has_subsystem};

mod host;
mod link;
mod namespace;
mod port;
mod show;
mod subsystem;

use crate::lists::Lists;
use config_lists::link::has_link;
use config_lists::port::has_port;
use config_lists::subsystem::has_subsystem;
use config_lists::{Edit, EditFault, Item};
use nvt_fields::Nqn;

impl Lists<'_> {
    /// Why the edit is refused, unless memory runs out. Takes no memory.
    pub fn check(&self, edit: &Edit) -> Result<(), EditFault>
        ensures { result ≡ verdict (accept self.now edit.now) }
    {
        match edit {
            Edit::SubsystemAdd {
                nqn,
                serial,
                access: _,
            } => self.check_subsystem_add(nqn, serial),
            Edit::SubsystemSet { nqn, access: _ } => self.check_subsystem_set(nqn),
            Edit::SubsystemDel { nqn } => self.check_subsystem_del(nqn),
            Edit::NamespaceAdd(namespace) => self.check_namespace_add(namespace),
            Edit::NamespaceSize {
                subsystem,
                nsid,
                blocks,
            } => self.check_namespace_size(subsystem, *nsid, *blocks),
            Edit::NamespaceGroup {
                subsystem,
                nsid,
                group,
            } => self.check_namespace_group(subsystem, *nsid, *group),
            Edit::NamespaceDel { subsystem, nsid } => self.check_namespace_del(subsystem, *nsid),
            Edit::NamespaceView {
                subsystem,
                nsid,
                visibility: _,
            } => self.check_namespace_view(subsystem, *nsid),
            Edit::NamespaceShow {
                subsystem,
                nsid,
                host,
            } => self.check_namespace_show(subsystem, *nsid, host),
            Edit::NamespaceHide {
                subsystem,
                nsid,
                host,
            } => self.check_namespace_hide(subsystem, *nsid, host),
            Edit::PortAdd(endpoint) => self.check_port_add(endpoint),
            Edit::PortSet(endpoint) => self.check_port_set(endpoint),
            Edit::PortDel { id } => self.check_port_del(*id),
            Edit::LinkAdd { port, subsystem } => self.check_link_add(*port, subsystem),
            Edit::LinkDel { port, subsystem } => self.check_link_del(*port, subsystem),
            Edit::HostAdd { nqn } => self.check_host_add(nqn),
            Edit::HostDel { nqn } => self.check_host_del(nqn),
            Edit::AllowAdd { subsystem, host } => self.check_allow_add(subsystem, host),
            Edit::AllowDel { subsystem, host } => self.check_allow_del(subsystem, host),
            Edit::AnaSet {
                port,
                subsystem,
                group,
                state: _,
            } => self.check_ana_set(*port, subsystem, *group),
            Edit::ReferralAdd(endpoint) => self.check_referral_add(endpoint),
            Edit::ReferralSet(endpoint) => self.check_referral_set(endpoint),
            Edit::ReferralDel { id } => self.check_referral_del(*id),
        }
    }

    fn wants_subsystem(&self, nqn: &Nqn) -> Result<(), EditFault>
        ensures { result ≡ refuse (not (has_subsystem self.now.subsystems nqn.now))
            (EditFault.NoSuch Item.Subsystem) (Ok tt) }
    {
        refuse(
            !has_subsystem(self.subsystems, nqn),
            EditFault::NoSuch(Item::Subsystem),
        )
    }

    fn wants_port(&self, id: u64) -> Result<(), EditFault>
        ensures { result ≡ refuse (not (has_port self.now.ports id))
            (EditFault.NoSuch Item.Port) (Ok tt) }
    {
        refuse(!has_port(self.ports, id), EditFault::NoSuch(Item::Port))
    }

    // The port, the subsystem and the link between them.
    fn wants_link(&self, port: u64, subsystem: &Nqn) -> Result<(), EditFault>
        ensures { result ≡
            refuse (not (has_port self.now.ports port)) (EditFault.NoSuch Item.Port) (
            refuse (not (has_subsystem self.now.subsystems subsystem.now))
            (EditFault.NoSuch Item.Subsystem) (
            refuse (not (has_link self.now.links port subsystem.now))
            (EditFault.NoSuch Item.Link) (Ok tt))) }
    {
        self.wants_port(port)?;
        self.wants_subsystem(subsystem)?;
        refuse(
            !has_link(self.links, port, subsystem.as_bytes()),
            EditFault::NoSuch(Item::Link),
        )
    }
}

fn refuse(test: bool, fault: EditFault) -> Result<(), EditFault>
    ensures { result ≡ refuse test fault (Ok tt) }
{
    if test { Err(fault) } else { Ok(()) }
}
