//! The configuration, and the edits applied to it.
ghost use Rattle.std.specs.Prelude.{◌≡◌, ◌==◌, IfErr, IfOk, IsOk, IsOkUnless, OnErr, OnOk};
ghost use Rattle.std.specs.Prelude.{find};
ghost use Rattle.std.specs.Bool.{OnFalse, OnTrue};
ghost use Rattle.std.specs.Option.{option_copied};
ghost use Rattle.std.specs.Str.{bytes_eq};
ghost use Rattle.nvt_config.specs.Accept.{accept, verdict};
ghost use Rattle.nvt_config.specs.Configuration.{are_disks, disks_alone};
ghost use Rattle.nvt_config.specs.Valid.{IsValid};
ghost use Rattle.nvt_config.specs.Plan.{IsPlanOf, IsReady, made};

mod changes;
mod copies;
mod plans;

use crate::fault::NewFault;
use crate::plan::{ListChange, Plan};
use crate::{Lists, are_disks};
use config_lists::allow::Allow;
use config_lists::group_state::GroupState;
use config_lists::host::Host;
use config_lists::link::Link;
use config_lists::namespace::{Namespace, Setting};
use config_lists::port::Port;
use config_lists::show::Show;
use config_lists::subsystem::Subsystem;
use config_lists::{Edit, EditFault};
use std::alloc::{AllocError, Global};
use std::marker::Model;

/// The disks' sizes in units of 512 bytes, and the lists, each in the order in which its items were
/// added. There are at most 256 disks of at most 2^40 units, 32 subsystems, 16 ports, 256 hosts, those
/// that are not live counted, 1,024 allows, 16 referrals and 1,024 shows. No two items of a list have
/// the same name, and what an item names is there. Each namespace fits on a disk of its own.
pub struct Config {
    units: Vec<u64>,
    subsystems: Vec<Subsystem>,
    namespaces: Vec<Namespace>,
    ports: Vec<Port>,
    links: Vec<Link>,
    hosts: Vec<Host>,
    allows: Vec<Allow>,
    states: Vec<GroupState>,
    // The ports of discovery controllers elsewhere.
    referrals: Vec<Port>,
    shows: Vec<Show>,
}

// Written out, and not derived, so that whoever lets a configuration fall proves one call.
impl Drop for Config {
    fn drop(self) {
        let Config {
            units,
            subsystems,
            namespaces,
            ports,
            links,
            hosts,
            allows,
            states,
            referrals,
            shows,
        } = self;
        drop(units);
        drop(subsystems);
        drop(namespaces);
        drop(ports);
        drop(links);
        drop(hosts);
        drop(allows);
        drop(states);
        drop(referrals);
        drop(shows);
    }
}

impl Model for Config {
    ghost use Rattle.nvt_config.specs.Configuration.{Configuration};
    ghost use Rattle.nvt_config.specs.Valid.{IsValid};

    ghost Value = { Configuration };

    ghost view = { λ c. record {
      units = c.units.items;
      subsystems = c.subsystems.items;
      namespaces = c.namespaces.items;
      ports = c.ports.items;
      links = c.links.items;
      hosts = c.hosts.items;
      allows = c.allows.items;
      states = c.states.items;
      referrals = c.referrals.items;
      shows = c.shows.items;
    } };

    ghost invariant = { λ c. IsValid (record {
      units = c.units.items;
      subsystems = c.subsystems.items;
      namespaces = c.namespaces.items;
      ports = c.ports.items;
      links = c.links.items;
      hosts = c.hosts.items;
      allows = c.allows.items;
      states = c.states.items;
      referrals = c.referrals.items;
      shows = c.shows.items;
    }) };
}

impl Config {
    /// The configuration that holds disks of these sizes alone. Answers `Disks` for more than 256
    /// disks or a disk of more than 2^40 units, and then `Memory`.
    pub fn new(alloc: Global, units: &[u64]) -> Result<Config, NewFault>
        ensures ok { IfOk result (λ config. config ≡ disks_alone units.now) }
        ensures accepted { OnTrue (are_disks units.now) (IsOkUnless result NewFault.Memory) }
        ensures refused { OnFalse (are_disks units.now) (result ≡ Err NewFault.Disks) }
    {
        if !are_disks(units) {
            return Err(NewFault::Disks);
        }
        match Vec::from_slice(alloc, units) {
            Ok(units) => Ok(Config {
                units,
                subsystems: Vec::new(alloc),
                namespaces: Vec::new(alloc),
                ports: Vec::new(alloc),
                links: Vec::new(alloc),
                hosts: Vec::new(alloc),
                allows: Vec::new(alloc),
                states: Vec::new(alloc),
                referrals: Vec::new(alloc),
                shows: Vec::new(alloc),
            }),
            Err(AllocError) => Err(NewFault::Memory),
        }
    }

    /// The size of each disk, in units of 512 bytes.
    pub fn units(&self) -> &[u64]
        ensures lent { result.now ≡ self.now.units }
        ensures valid { IsValid self.now }
    {
        self.units.as_slice()
    }

    /// The subsystems, in the order in which they were added.
    pub fn subsystems(&self) -> &[Subsystem]
        ensures lent { result.now ≡ self.now.subsystems }
        ensures valid { IsValid self.now }
    {
        self.subsystems.as_slice()
    }

    /// The namespaces, in the order in which they were added.
    pub fn namespaces(&self) -> &[Namespace]
        ensures lent { result.now ≡ self.now.namespaces }
        ensures valid { IsValid self.now }
    {
        self.namespaces.as_slice()
    }

    /// The ports, in the order in which they were added.
    pub fn ports(&self) -> &[Port]
        ensures lent { result.now ≡ self.now.ports }
        ensures valid { IsValid self.now }
    {
        self.ports.as_slice()
    }

    /// The links, in the order in which they were added.
    pub fn links(&self) -> &[Link]
        ensures lent { result.now ≡ self.now.links }
        ensures valid { IsValid self.now }
    {
        self.links.as_slice()
    }

    /// The hosts that were ever added, live or not, in the order in which they were first added.
    pub fn hosts(&self) -> &[Host]
        ensures lent { result.now ≡ self.now.hosts }
        ensures valid { IsValid self.now }
    {
        self.hosts.as_slice()
    }

    /// The allows, in the order in which they were added.
    pub fn allows(&self) -> &[Allow]
        ensures lent { result.now ≡ self.now.allows }
        ensures valid { IsValid self.now }
    {
        self.allows.as_slice()
    }

    /// The ANA states that were set, in the order in which they were first set.
    pub fn states(&self) -> &[GroupState]
        ensures lent { result.now ≡ self.now.states }
        ensures valid { IsValid self.now }
    {
        self.states.as_slice()
    }

    /// The referrals, in the order in which they were added: the ports of discovery controllers elsewhere.
    pub fn referrals(&self) -> &[Port]
        ensures lent { result.now ≡ self.now.referrals }
        ensures valid { IsValid self.now }
    {
        self.referrals.as_slice()
    }

    /// The shows, in the order in which they were added.
    pub fn shows(&self) -> &[Show]
        ensures lent { result.now ≡ self.now.shows }
        ensures valid { IsValid self.now }
    {
        self.shows.as_slice()
    }

    /// The subsystem of that name, if there is one.
    pub fn subsystem(&self, nqn: &[u8]) -> Option<&Subsystem>
        ensures found { option_copied result
            ≡ find (λ subsystem. bytes_eq subsystem.nqn nqn.now) self.now.subsystems }
        ensures valid { IsValid self.now }
    {
        find_subsystem(&self.subsystems, nqn)
    }

    /// The port of that number, if there is one.
    pub fn port(&self, id: u16) -> Option<&Port>
        ensures { option_copied result ≡ find (λ port. port.id == id) self.now.ports }
    {
        self.ports.iter().find(|port| port.id == id)
    }

    // The lists, lent.
    pub(crate) fn lists(&self) -> Lists<'_>
        ensures { result ≡ self.now }
    {
        Lists {
            units: &self.units,
            subsystems: &self.subsystems,
            namespaces: &self.namespaces,
            ports: &self.ports,
            links: &self.links,
            hosts: &self.hosts,
            allows: &self.allows,
            states: &self.states,
            referrals: &self.referrals,
            shows: &self.shows,
        }
    }

    /// Why `apply` refuses the edit, unless memory runs out. Takes no memory.
    pub fn check(&self, edit: &Edit) -> Result<(), EditFault>
        ensures { result ≡ verdict (accept self.now edit.now) }
    {
        self.lists().check(edit)
    }

    /// Takes all the memory that an accepted edit wants: `commit` then makes it.
    pub fn prepare<'e>(&self, edit: &'e Edit) -> Result<Plan<'e>, AllocError>
        requires { IsOk (accept self.now edit.now) }
        ensures { IfOk result (IsPlanOf self.now edit.now) }
    {
        // What is known of each configuration is known of this one.
        let _ = &self.units;
        match edit {
            Edit::SubsystemAdd {
                nqn,
                serial,
                access,
            } => self.plan_subsystem(nqn, serial, *access),
            Edit::SubsystemSet { nqn, access } => Ok(Plan::new(ListChange::SetAccess(
                nqn, *access,
            ))),
            Edit::SubsystemDel { nqn } => Ok(Plan::new(ListChange::RemoveSubsystem(nqn))),
            Edit::NamespaceAdd(namespace) => self.plan_namespace(namespace),
            Edit::NamespaceSize {
                subsystem,
                nsid,
                blocks,
            } => Ok(Plan::new(ListChange::SetNamespace(
                subsystem,
                *nsid,
                Setting::Blocks(*blocks),
            ))),
            Edit::NamespaceGroup {
                subsystem,
                nsid,
                group,
            } => Ok(Plan::new(ListChange::SetNamespace(
                subsystem,
                *nsid,
                Setting::Group(*group as u32),
            ))),
            Edit::NamespaceDel { subsystem, nsid } => Ok(Plan::new(ListChange::RemoveNamespace(
                subsystem, *nsid,
            ))),
            Edit::NamespaceView {
                subsystem,
                nsid,
                visibility,
            } => Ok(Plan::new(ListChange::SetNamespace(
                subsystem,
                *nsid,
                Setting::Visibility(*visibility),
            ))),
            Edit::NamespaceShow {
                subsystem,
                nsid,
                host,
            } => self.plan_show(subsystem, *nsid, host),
            Edit::NamespaceHide {
                subsystem,
                nsid,
                host,
            } => Ok(Plan::new(ListChange::RemoveShow(subsystem, *nsid, host))),
            Edit::PortAdd(endpoint) => self.plan_port(endpoint),
            Edit::PortSet(endpoint) => self.plan_port_set(endpoint),
            Edit::PortDel { id } => Ok(Plan::new(ListChange::RemovePort(*id))),
            Edit::LinkAdd { port, subsystem } => self.plan_link(*port, subsystem),
            Edit::LinkDel { port, subsystem } => Ok(Plan::new(ListChange::RemoveLink(
                *port, subsystem,
            ))),
            Edit::HostAdd { nqn } => self.plan_host(nqn),
            Edit::HostDel { nqn } => Ok(Plan::new(ListChange::SetLive(nqn, false))),
            Edit::AllowAdd { subsystem, host } => self.plan_allow(subsystem, host),
            Edit::AllowDel { subsystem, host } => Ok(Plan::new(ListChange::RemoveAllow(
                subsystem, host,
            ))),
            Edit::AnaSet {
                port,
                subsystem,
                group,
                state,
            } => self.plan_state(*port, subsystem, *group, *state),
            Edit::ReferralAdd(endpoint) => self.plan_referral(endpoint),
            Edit::ReferralSet(endpoint) => self.plan_referral_set(endpoint),
            Edit::ReferralDel { id } => Ok(Plan::new(ListChange::RemoveReferral(*id))),
        }
    }

    /// Makes what was prepared. Takes no memory.
    pub fn commit(&mut self, plan: Plan<'_>)
        requires { IsReady plan self.old }
        ensures { self.new ≡ made plan.entry self.old }
    {
        match plan.change {
            ListChange::AddSubsystem(addition) => self.add_subsystem(addition),
            ListChange::SetAccess(nqn, access) => self.set_access(nqn, access),
            ListChange::RemoveSubsystem(nqn) => self.remove_subsystem(nqn),
            ListChange::AddNamespace(addition) => self.add_namespace(addition),
            ListChange::SetNamespace(nqn, nsid, value) => self.set_namespace(nqn, nsid, value),
            ListChange::RemoveNamespace(nqn, nsid) => self.remove_namespace(nqn, nsid),
            ListChange::AddPort(addition) => self.add_port(addition),
            ListChange::ReplacePort(port) => self.replace_port(port),
            ListChange::RemovePort(id) => self.remove_port(id),
            ListChange::AddLink(addition) => self.add_link(addition),
            ListChange::RemoveLink(port, nqn) => self.remove_link(port, nqn),
            ListChange::AddHost(addition) => self.add_host(addition),
            ListChange::SetLive(nqn, live) => self.set_live(nqn, live),
            ListChange::AddAllow(addition) => self.add_allow(addition),
            ListChange::RemoveAllow(nqn, host) => self.remove_allow(nqn, host),
            ListChange::AddState(addition) => self.add_state(addition),
            ListChange::ReplaceState(port, nqn, group, state) => {
                self.replace_state(port, nqn, group, state)
            }
            ListChange::RemoveState(port, nqn, group) => self.remove_state(port, nqn, group),
            ListChange::AddReferral(addition) => self.add_referral(addition),
            ListChange::ReplaceReferral(referral) => self.replace_referral(referral),
            ListChange::RemoveReferral(id) => self.remove_referral(id),
            ListChange::AddShow(addition) => self.add_show(addition),
            ListChange::RemoveShow(nqn, nsid, host) => self.remove_show(nqn, nsid, host),
        }
    }

    /// Makes the edit. After a refusal, `Memory` included, the configuration is as it was.
    pub fn apply(&mut self, edit: &Edit) -> Result<(), EditFault>
        ensures ok { OnOk result (accept self.old edit.now ≡ Ok self.new) }
        ensures accepted { OnOk (accept self.old edit.now) (IsOkUnless result EditFault.Memory) }
        ensures refused { IfErr (accept self.old edit.now) (λ fault. result ≡ Err fault) }
        ensures err { OnErr result (self.new ≡ self.old) }
    {
        self.check(edit)?;
        let plan = self.prepare(edit)?;
        self.commit(plan);
        Ok(())
    }

    /// The configuration after an edit that is accepted, with as many allocations as a copy. This one
    /// stays as it is.
    pub fn edited(&self, edit: &Edit) -> Result<Config, AllocError>
        requires { IsOk (accept self.now edit.now) }
        ensures { IfOk result (λ next. accept self.now edit.now ≡ Ok next) }
    {
        let mut next = self.try_clone()?;
        let plan = next.prepare(edit)?;
        next.commit(plan);
        Ok(next)
    }

    /// An equal configuration, with an allocation for each list, each name and each text.
    pub fn try_clone(&self) -> Result<Config, AllocError>
        ensures { IfOk result (λ copy. copy ≡ self.now) }
    {
        // What is known of each configuration is known of this one.
        let _ = &self.units;
        let storage = self.clone_storage()?;
        let ports = self.clone_ports()?;
        let hosts = self.clone_hosts()?;
        Ok(Config {
            units: storage.units,
            subsystems: storage.subsystems,
            namespaces: storage.namespaces,
            ports: ports.ports,
            links: ports.links,
            hosts: hosts.hosts,
            allows: hosts.allows,
            states: ports.states,
            referrals: ports.referrals,
            shows: hosts.shows,
        })
    }
}

fn find_subsystem<'a>(subsystems: &'a [Subsystem], nqn: &[u8]) -> Option<&'a Subsystem>
    ensures { option_copied result ≡ find
        (λ subsystem. bytes_eq subsystem.nqn nqn.now) subsystems.now }
{
    subsystems
        .iter()
        .find(|subsystem| subsystem.nqn.as_bytes() == nqn)
}
