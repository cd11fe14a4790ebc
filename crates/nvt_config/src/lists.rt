//! The lists of a configuration, lent.

use config_lists::allow::Allow;
use config_lists::group_state::GroupState;
use config_lists::host::Host;
use config_lists::link::Link;
use config_lists::namespace::Namespace;
use config_lists::port::Port;
use config_lists::show::Show;
use config_lists::subsystem::Subsystem;
use std::marker::Model;

/// The disks' sizes in units of 512 bytes, and the lists of a configuration, each in the order in which
/// its items were added.
#[derive(Drop)]
pub struct Lists<'a> {
    pub units: &'a [u64],
    pub subsystems: &'a [Subsystem],
    pub namespaces: &'a [Namespace],
    pub ports: &'a [Port],
    pub links: &'a [Link],
    pub hosts: &'a [Host],
    pub allows: &'a [Allow],
    pub states: &'a [GroupState],
    /// The ports of discovery controllers elsewhere.
    pub referrals: &'a [Port],
    pub shows: &'a [Show],
}

impl<'a> Model for Lists<'a> {
    ghost use Rattle.nvt_config.specs.Configuration.{Configuration};

    ghost Value = { Configuration };

    ghost view = { λ l. record {
      units = l.units.now;
      subsystems = l.subsystems.now;
      namespaces = l.namespaces.now;
      ports = l.ports.now;
      links = l.links.now;
      hosts = l.hosts.now;
      allows = l.allows.now;
      states = l.states.now;
      referrals = l.referrals.now;
      shows = l.shows.now;
    } };
}
