//! Each kind of change of the lists. None takes memory, so none can fail.
ghost use Rattle.std.specs.Prelude.{◌≡◌, ◌<◌, length, vec_capacity};
ghost use Rattle.nvt_config.specs.Configuration.{with_access, with_allow, with_link, with_live};
ghost use Rattle.nvt_config.specs.Configuration.{with_namespace, with_namespace_set};
ghost use Rattle.nvt_config.specs.Configuration.{with_new_host, with_new_state, with_port};
ghost use Rattle.nvt_config.specs.Configuration.{with_port_set, with_referral};
ghost use Rattle.nvt_config.specs.Configuration.{with_referral_set, with_state_set};
ghost use Rattle.nvt_config.specs.Configuration.{with_show, with_subsystem, without_allow};
ghost use Rattle.nvt_config.specs.Configuration.{without_link, without_show};
ghost use Rattle.nvt_config.specs.Configuration.{without_namespace, without_port};
ghost use Rattle.nvt_config.specs.Configuration.{without_referral, without_state};
ghost use Rattle.nvt_config.specs.Configuration.{without_subsystem};
ghost use Rattle.nvt_config.specs.Valid.{IsValid};

use crate::config::Config;
use crate::plan::Addition;
use config_lists::allow::{Allow, remove_allow};
use config_lists::group_state::{AnaState, GroupState, remove_state, remove_states, replace_state};
use config_lists::host::{Host, set_live};
use config_lists::link::{Link, remove_link};
use config_lists::namespace::{Namespace, Setting, remove_namespace, set_namespace};
use config_lists::port::{Port, remove_port, replace_port};
use config_lists::show::{Show, remove_show, remove_shows};
use config_lists::subsystem::{Access, Subsystem, remove_subsystem, set_access};
use nvt_fields::Nqn;

impl Config {
    pub(super) fn add_subsystem(&mut self, addition: Addition<Subsystem>)
        requires room { length self.old.subsystems < vec_capacity addition.list }
        requires valid { IsValid (with_subsystem self.old addition.item) }
        ensures { self.new ≡ with_subsystem self.old addition.item }
    {
        addition.add_to(&mut self.subsystems);
    }

    pub(super) fn set_access(&mut self, nqn: &Nqn, access: Access)
        requires { IsValid (with_access self.old nqn.now access) }
        ensures { self.new ≡ with_access self.old nqn.now access }
    {
        set_access(&mut self.subsystems, nqn, access);
    }

    pub(super) fn remove_subsystem(&mut self, nqn: &Nqn)
        requires { IsValid (without_subsystem self.old nqn.now) }
        ensures { self.new ≡ without_subsystem self.old nqn.now }
    {
        remove_subsystem(&mut self.subsystems, nqn);
    }

    pub(super) fn add_namespace(&mut self, addition: Addition<Namespace>)
        requires room { length self.old.namespaces < vec_capacity addition.list }
        requires valid { IsValid (with_namespace self.old addition.item) }
        ensures { self.new ≡ with_namespace self.old addition.item }
    {
        addition.add_to(&mut self.namespaces);
    }

    pub(super) fn set_namespace(&mut self, nqn: &Nqn, nsid: u64, value: Setting)
        requires { IsValid (with_namespace_set self.old nqn.now nsid value) }
        ensures { self.new ≡ with_namespace_set self.old nqn.now nsid value }
    {
        set_namespace(&mut self.namespaces, nqn, nsid, value);
    }

    // Its shows go with it.
    pub(super) fn remove_namespace(&mut self, nqn: &Nqn, nsid: u64)
        requires { IsValid (without_namespace self.old nqn.now nsid) }
        ensures { self.new ≡ without_namespace self.old nqn.now nsid }
    {
        remove_namespace(&mut self.namespaces, nqn, nsid);
        remove_shows(&mut self.shows, nqn, nsid);
    }

    pub(super) fn add_port(&mut self, addition: Addition<Port>)
        requires room { length self.old.ports < vec_capacity addition.list }
        requires valid { IsValid (with_port self.old addition.item) }
        ensures { self.new ≡ with_port self.old addition.item }
    {
        addition.add_to(&mut self.ports);
    }

    pub(super) fn replace_port(&mut self, port: Port)
        requires { IsValid (with_port_set self.old port) }
        ensures { self.new ≡ with_port_set self.old port }
    {
        replace_port(&mut self.ports, port);
    }

    pub(super) fn remove_port(&mut self, id: u64)
        requires { IsValid (without_port self.old id) }
        ensures { self.new ≡ without_port self.old id }
    {
        remove_port(&mut self.ports, id);
    }

    pub(super) fn add_link(&mut self, addition: Addition<Link>)
        requires room { length self.old.links < vec_capacity addition.list }
        requires valid { IsValid (with_link self.old addition.item) }
        ensures { self.new ≡ with_link self.old addition.item }
    {
        addition.add_to(&mut self.links);
    }

    // The states that were set on the link go with it.
    pub(super) fn remove_link(&mut self, port: u64, nqn: &Nqn)
        requires { IsValid (without_link self.old port nqn.now) }
        ensures { self.new ≡ without_link self.old port nqn.now }
    {
        remove_link(&mut self.links, port, nqn);
        remove_states(&mut self.states, port, nqn.as_bytes());
    }

    pub(super) fn add_host(&mut self, addition: Addition<Host>)
        requires room { length self.old.hosts < vec_capacity addition.list }
        requires valid { IsValid (with_new_host self.old addition.item) }
        ensures { self.new ≡ with_new_host self.old addition.item }
    {
        addition.add_to(&mut self.hosts);
    }

    pub(super) fn set_live(&mut self, nqn: &Nqn, live: bool)
        requires { IsValid (with_live self.old nqn.now live) }
        ensures { self.new ≡ with_live self.old nqn.now live }
    {
        set_live(&mut self.hosts, nqn, live);
    }

    pub(super) fn add_allow(&mut self, addition: Addition<Allow>)
        requires room { length self.old.allows < vec_capacity addition.list }
        requires valid { IsValid (with_allow self.old addition.item) }
        ensures { self.new ≡ with_allow self.old addition.item }
    {
        addition.add_to(&mut self.allows);
    }

    pub(super) fn remove_allow(&mut self, nqn: &Nqn, host: &Nqn)
        requires { IsValid (without_allow self.old nqn.now host.now) }
        ensures { self.new ≡ without_allow self.old nqn.now host.now }
    {
        remove_allow(&mut self.allows, nqn, host);
    }

    pub(super) fn add_state(&mut self, addition: Addition<GroupState>)
        requires room { length self.old.states < vec_capacity addition.list }
        requires valid { IsValid (with_new_state self.old addition.item) }
        ensures { self.new ≡ with_new_state self.old addition.item }
    {
        addition.add_to(&mut self.states);
    }

    pub(super) fn replace_state(&mut self, port: u64, nqn: &Nqn, group: u64, state: AnaState)
        requires { IsValid (with_state_set self.old port nqn.now group state) }
        ensures { self.new ≡ with_state_set self.old port nqn.now group state }
    {
        replace_state(&mut self.states, port, nqn.as_bytes(), group, state);
    }

    pub(super) fn remove_state(&mut self, port: u64, nqn: &Nqn, group: u64)
        requires { IsValid (without_state self.old port nqn.now group) }
        ensures { self.new ≡ without_state self.old port nqn.now group }
    {
        remove_state(&mut self.states, port, nqn.as_bytes(), group);
    }

    pub(super) fn add_referral(&mut self, addition: Addition<Port>)
        requires room { length self.old.referrals < vec_capacity addition.list }
        requires valid { IsValid (with_referral self.old addition.item) }
        ensures { self.new ≡ with_referral self.old addition.item }
    {
        addition.add_to(&mut self.referrals);
    }

    pub(super) fn replace_referral(&mut self, referral: Port)
        requires { IsValid (with_referral_set self.old referral) }
        ensures { self.new ≡ with_referral_set self.old referral }
    {
        replace_port(&mut self.referrals, referral);
    }

    pub(super) fn remove_referral(&mut self, id: u64)
        requires { IsValid (without_referral self.old id) }
        ensures { self.new ≡ without_referral self.old id }
    {
        remove_port(&mut self.referrals, id);
    }

    pub(super) fn add_show(&mut self, addition: Addition<Show>)
        requires room { length self.old.shows < vec_capacity addition.list }
        requires valid { IsValid (with_show self.old addition.item) }
        ensures { self.new ≡ with_show self.old addition.item }
    {
        addition.add_to(&mut self.shows);
    }

    pub(super) fn remove_show(&mut self, nqn: &Nqn, nsid: u64, host: &Nqn)
        requires { IsValid (without_show self.old nqn.now nsid host.now) }
        ensures { self.new ≡ without_show self.old nqn.now nsid host.now }
    {
        remove_show(&mut self.shows, nqn, nsid, host);
    }
}
