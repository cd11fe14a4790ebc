//! What each kind of edit is going to change, where it is accepted. All memory is taken here.
ghost use Rattle.std.specs.Prelude.{◌≡◌, ◌≤◌, IfOk, IsOk, IsTrue};
ghost use Rattle.config_lists.specs.declared.edit.Edit.TheVariants.{AllowAdd, AnaSet, HostAdd};
ghost use Rattle.config_lists.specs.declared.edit.Edit.TheVariants.{LinkAdd, NamespaceAdd};
ghost use Rattle.config_lists.specs.declared.edit.Edit.TheVariants.{NamespaceShow};
ghost use Rattle.config_lists.specs.declared.edit.Edit.TheVariants.{PortAdd, PortSet};
ghost use Rattle.config_lists.specs.declared.edit.Edit.TheVariants.{ReferralAdd, ReferralSet};
ghost use Rattle.config_lists.specs.declared.edit.Edit.TheVariants.{SubsystemAdd};
ghost use Rattle.config_lists.specs.Namespace.{nsid_max};
ghost use Rattle.config_lists.specs.Port.{is_port_number};
ghost use Rattle.nvt_config.specs.Accept.{accept, namespace_of, port_of};
ghost use Rattle.nvt_config.specs.Plan.{IsPlanOf};

use crate::config::Config;
use crate::plan::{Addition, ListChange, Plan};
use config_lists::allow::Allow;
use config_lists::group_state::{AnaState, GroupState, has_state};
use config_lists::host::{Host, has_host};
use config_lists::link::Link;
use config_lists::namespace::{BlockSize, Namespace, Visibility};
use config_lists::port::Port;
use config_lists::show::Show;
use config_lists::subsystem::{Access, Subsystem};
use config_lists::text::Text;
use config_lists::{Endpoint, NewNamespace};
use nvt_fields::Nqn;
use std::alloc::{AllocError, Global};

impl Config {
    pub(super) fn plan_subsystem<'e>(
        &self,
        nqn: &Nqn,
        serial: &Text,
        access: Access,
    ) -> Result<Plan<'e>, AllocError>
        requires { IsOk (accept self.now (SubsystemAdd nqn.now serial.now access)) }
        ensures { IfOk result (IsPlanOf self.now (SubsystemAdd nqn.now serial.now access)) }
    {
        let subsystem = Subsystem {
            nqn: nqn.try_clone()?,
            serial: serial.clone()?,
            access,
        };
        let addition = Addition::new(self.alloc(), subsystem, self.subsystems.len())?;
        Ok(Plan::new(ListChange::AddSubsystem(addition)))
    }

    pub(super) fn plan_namespace<'e>(
        &self,
        namespace: &NewNamespace,
    ) -> Result<Plan<'e>, AllocError>
        requires { IsOk (accept self.now (NamespaceAdd namespace.now)) }
        ensures { IfOk result (IsPlanOf self.now (NamespaceAdd namespace.now)) }
    {
        let there = self.namespaces.len();
        let namespace = namespace_of(namespace)?;
        let addition = Addition::new(self.alloc(), namespace, there)?;
        Ok(Plan::new(ListChange::AddNamespace(addition)))
    }

    pub(super) fn plan_port<'e>(&self, endpoint: &Endpoint) -> Result<Plan<'e>, AllocError>
        requires { IsOk (accept self.now (PortAdd endpoint.now)) }
        ensures { IfOk result (IsPlanOf self.now (PortAdd endpoint.now)) }
    {
        let port = port_of(endpoint)?;
        let addition = Addition::new(self.alloc(), port, self.ports.len())?;
        Ok(Plan::new(ListChange::AddPort(addition)))
    }

    pub(super) fn plan_port_set<'e>(&self, endpoint: &Endpoint) -> Result<Plan<'e>, AllocError>
        requires { IsOk (accept self.now (PortSet endpoint.now)) }
        ensures { IfOk result (IsPlanOf self.now (PortSet endpoint.now)) }
    {
        let _ = &self.ports;
        let port = port_of(endpoint)?;
        Ok(Plan::new(ListChange::ReplacePort(port)))
    }

    pub(super) fn plan_link<'e>(&self, port: u64, subsystem: &Nqn) -> Result<Plan<'e>, AllocError>
        requires { IsOk (accept self.now (LinkAdd port subsystem.now)) }
        ensures { IfOk result (IsPlanOf self.now (LinkAdd port subsystem.now)) }
    {
        let there = self.links.len();
        let link = Link {
            port: port as u16,
            subsystem: subsystem.try_clone()?,
        };
        let addition = Addition::new(self.alloc(), link, there)?;
        Ok(Plan::new(ListChange::AddLink(addition)))
    }

    // A host that was added before has its place.
    pub(super) fn plan_host<'e>(&self, nqn: &'e Nqn) -> Result<Plan<'e>, AllocError>
        requires { IsOk (accept self.now (HostAdd nqn.now)) }
        ensures { IfOk result (IsPlanOf self.now (HostAdd nqn.now)) }
    {
        if has_host(&self.hosts, nqn) {
            return Ok(Plan::new(ListChange::SetLive(nqn, true)));
        }
        let host = Host {
            nqn: nqn.try_clone()?,
            live: true,
        };
        let addition = Addition::new(self.alloc(), host, self.hosts.len())?;
        Ok(Plan::new(ListChange::AddHost(addition)))
    }

    pub(super) fn plan_allow<'e>(&self, subsystem: &Nqn, host: &Nqn) -> Result<Plan<'e>, AllocError>
        requires { IsOk (accept self.now (AllowAdd subsystem.now host.now)) }
        ensures { IfOk result (IsPlanOf self.now (AllowAdd subsystem.now host.now)) }
    {
        let allow = Allow {
            subsystem: subsystem.try_clone()?,
            host: host.try_clone()?,
        };
        let addition = Addition::new(self.alloc(), allow, self.allows.len())?;
        Ok(Plan::new(ListChange::AddAllow(addition)))
    }

    pub(super) fn plan_show<'e>(
        &self,
        subsystem: &Nqn,
        nsid: u64,
        host: &Nqn,
    ) -> Result<Plan<'e>, AllocError>
        requires { IsOk (accept self.now (NamespaceShow subsystem.now nsid host.now)) }
        ensures { IfOk result (IsPlanOf self.now (NamespaceShow subsystem.now nsid host.now)) }
    {
        let there = self.shows.len();
        let show = Show {
            subsystem: subsystem.try_clone()?,
            nsid: nsid as u32,
            host: host.try_clone()?,
        };
        let addition = Addition::new(self.alloc(), show, there)?;
        Ok(Plan::new(ListChange::AddShow(addition)))
    }

    // Where no state is set, it is optimized; so that one is never kept.
    pub(super) fn plan_state<'e>(
        &self,
        port: u64,
        subsystem: &'e Nqn,
        group: u64,
        state: AnaState,
    ) -> Result<Plan<'e>, AllocError>
        requires { IsOk (accept self.now (AnaSet port subsystem.now group state)) }
        ensures { IfOk result (IsPlanOf self.now (AnaSet port subsystem.now group state)) }
    {
        let there = self.states.len();
        if state.is_optimized() {
            return Ok(Plan::new(ListChange::RemoveState(port, subsystem, group)));
        }
        if has_state(&self.states, port, subsystem.as_bytes(), group) {
            return Ok(Plan::new(ListChange::ReplaceState(port, subsystem, group, state)));
        }
        let set = GroupState {
            port: port as u16,
            subsystem: subsystem.try_clone()?,
            group: group as u32,
            state,
        };
        let addition = Addition::new(self.alloc(), set, there)?;
        Ok(Plan::new(ListChange::AddState(addition)))
    }

    pub(super) fn plan_referral<'e>(&self, endpoint: &Endpoint) -> Result<Plan<'e>, AllocError>
        requires { IsOk (accept self.now (ReferralAdd endpoint.now)) }
        ensures { IfOk result (IsPlanOf self.now (ReferralAdd endpoint.now)) }
    {
        let referral = port_of(endpoint)?;
        let addition = Addition::new(self.alloc(), referral, self.referrals.len())?;
        Ok(Plan::new(ListChange::AddReferral(addition)))
    }

    pub(super) fn plan_referral_set<'e>(&self, endpoint: &Endpoint) -> Result<Plan<'e>, AllocError>
        requires { IsOk (accept self.now (ReferralSet endpoint.now)) }
        ensures { IfOk result (IsPlanOf self.now (ReferralSet endpoint.now)) }
    {
        let _ = &self.referrals;
        let referral = port_of(endpoint)?;
        Ok(Plan::new(ListChange::ReplaceReferral(referral)))
    }

    fn alloc(&self) -> Global {
        *self.units.allocator()
    }
}

fn port_of(endpoint: &Endpoint) -> Result<Port, AllocError>
    requires number { IsTrue (is_port_number endpoint.now.id) }
    requires listens { IsTrue (is_port_number endpoint.now.service) }
    ensures { IfOk result (λ port. port ≡ port_of endpoint.now) }
{
    Ok(Port {
        id: endpoint.id as u16,
        family: endpoint.family,
        address: endpoint.address.clone()?,
        service: endpoint.service as u16,
    })
}

// An accepted edit names one of the two block sizes.
fn namespace_of(namespace: &NewNamespace) -> Result<Namespace, AllocError>
    requires nsid { namespace.now.nsid ≤ nsid_max }
    requires disk { namespace.now.disk ≤ 256 }
    requires group { namespace.now.group ≤ 32 }
    ensures { IfOk result (λ made. made ≡ namespace_of namespace.now) }
{
    Ok(Namespace {
        subsystem: namespace.subsystem.try_clone()?,
        nsid: namespace.nsid as u32,
        disk: namespace.disk as u16,
        blocks: namespace.blocks,
        block_size: BlockSize::of(namespace.block_size).unwrap_or(BlockSize::Bytes4096),
        uuid: namespace.uuid,
        group: namespace.group as u32,
        visibility: Visibility::All,
    })
}
