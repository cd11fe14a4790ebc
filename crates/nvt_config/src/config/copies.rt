//! Copies of the lists, by subject: what is held at a growth that is refused has to be dropped there.
ghost use Rattle.std.specs.Prelude.{◌≡◌, IfOk};

use crate::config::Config;
use config_lists::allow::Allow;
use config_lists::group_state::GroupState;
use config_lists::host::Host;
use config_lists::link::Link;
use config_lists::namespace::Namespace;
use config_lists::port::Port;
use config_lists::show::Show;
use config_lists::subsystem::Subsystem;
use std::alloc::AllocError;

/// What is stored, and where.
#[derive(Drop)]
pub(super) struct StorageLists {
    pub(super) units: Vec<u64>,
    pub(super) subsystems: Vec<Subsystem>,
    pub(super) namespaces: Vec<Namespace>,
}

/// How it is reached.
#[derive(Drop)]
pub(super) struct PortLists {
    pub(super) ports: Vec<Port>,
    pub(super) links: Vec<Link>,
    pub(super) states: Vec<GroupState>,
    pub(super) referrals: Vec<Port>,
}

/// Who may use it, and sees what of it.
#[derive(Drop)]
pub(super) struct HostLists {
    pub(super) hosts: Vec<Host>,
    pub(super) allows: Vec<Allow>,
    pub(super) shows: Vec<Show>,
}

impl Config {
    pub(super) fn clone_storage(&self) -> Result<StorageLists, AllocError>
        ensures units { IfOk result (λ copy. copy.units.items ≡ self.now.units) }
        ensures subsystems { IfOk result (λ copy. copy.subsystems.items ≡ self.now.subsystems) }
        ensures namespaces { IfOk result (λ copy. copy.namespaces.items ≡ self.now.namespaces) }
    {
        Ok(StorageLists {
            units: self.units.clone()?,
            subsystems: self.subsystems.clone()?,
            namespaces: self.namespaces.clone()?,
        })
    }

    pub(super) fn clone_ports(&self) -> Result<PortLists, AllocError>
        ensures ports { IfOk result (λ copy. copy.ports.items ≡ self.now.ports) }
        ensures links { IfOk result (λ copy. copy.links.items ≡ self.now.links) }
        ensures states { IfOk result (λ copy. copy.states.items ≡ self.now.states) }
        ensures referrals { IfOk result (λ copy. copy.referrals.items ≡ self.now.referrals) }
    {
        Ok(PortLists {
            ports: self.ports.clone()?,
            links: self.links.clone()?,
            states: self.states.clone()?,
            referrals: self.referrals.clone()?,
        })
    }

    pub(super) fn clone_hosts(&self) -> Result<HostLists, AllocError>
        ensures hosts { IfOk result (λ copy. copy.hosts.items ≡ self.now.hosts) }
        ensures allows { IfOk result (λ copy. copy.allows.items ≡ self.now.allows) }
        ensures shows { IfOk result (λ copy. copy.shows.items ≡ self.now.shows) }
    {
        Ok(HostLists {
            hosts: self.hosts.clone()?,
            allows: self.allows.clone()?,
            shows: self.shows.clone()?,
        })
    }
}
