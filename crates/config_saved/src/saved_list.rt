//! The lists of a configuration, as types, and the edits that add an item of each.
ghost use Rattle.std.specs.Prelude.{◌≡◌, IfOk};
ghost use Rattle.config_saved.specs.Saved.{added_namespace, endpoint_of};
ghost use Rattle.config_saved.specs.Saved.{edits_of_allow, edits_of_host, edits_of_link};
ghost use Rattle.config_saved.specs.Saved.{edits_of_namespace, edits_of_port, edits_of_referral};
ghost use Rattle.config_saved.specs.Saved.{edits_of_show, edits_of_state, edits_of_subsystem};
ghost use Rattle.config_saved.specs.Walk.{edits_in};

use crate::item_edits::ItemEdits;
use config_lists::{
    Allow, Edit, Endpoint, GroupState, Host, Link, Namespace, NewNamespace, Port, Show, Subsystem,
};
use std::alloc::AllocError;

/// A list of a configuration, as a type.
pub(crate) trait SavedList {
    ghost use Rattle.std.specs.Prelude.{◌≡◌, IfOk, List};
    ghost use Rattle.config_lists.specs.declared.edit.Edit.{Edit};
    ghost use Rattle.config_saved.specs.Walk.{edits_in};

    /// What is in the list.
    type Item;

    ghost edits: { Self.Item → List Edit };

    /// The edits that add an item.
    fn edits_of(item: &Self::Item) -> Result<ItemEdits, AllocError>
        ensures { IfOk result (λ made. edits_in made ≡ edits item.now) };
}

pub(crate) struct Subsystems;

impl SavedList for Subsystems {
    type Item = Subsystem;

    ghost edits = { edits_of_subsystem };

    fn edits_of(subsystem: &Subsystem) -> Result<ItemEdits, AllocError> {
        Ok(ItemEdits::from(Edit::SubsystemAdd {
            nqn: subsystem.nqn.try_clone()?,
            serial: subsystem.serial.clone()?,
            access: subsystem.access,
        }))
    }
}

pub(crate) struct Namespaces;

impl SavedList for Namespaces {
    type Item = Namespace;

    ghost edits = { edits_of_namespace };

    fn edits_of(namespace: &Namespace) -> Result<ItemEdits, AllocError> {
        let first = Edit::NamespaceAdd(added_namespace(namespace)?);
        if namespace.visibility.is_for_all() {
            return Ok(ItemEdits::from(first));
        }
        let second = Edit::NamespaceView {
            subsystem: namespace.subsystem.try_clone()?,
            nsid: u64::from(namespace.nsid),
            visibility: namespace.visibility,
        };
        Ok(ItemEdits {
            first,
            second: Some(second),
        })
    }
}

fn added_namespace(namespace: &Namespace) -> Result<NewNamespace, AllocError>
    ensures { IfOk result (λ added. added ≡ added_namespace namespace.now) }
{
    Ok(NewNamespace {
        subsystem: namespace.subsystem.try_clone()?,
        nsid: u64::from(namespace.nsid),
        disk: u64::from(namespace.disk),
        blocks: namespace.blocks,
        block_size: namespace.block_size.bytes(),
        uuid: namespace.uuid,
        group: u64::from(namespace.group),
    })
}

pub(crate) struct Ports;

impl SavedList for Ports {
    type Item = Port;

    ghost edits = { edits_of_port };

    fn edits_of(port: &Port) -> Result<ItemEdits, AllocError> {
        Ok(ItemEdits::from(Edit::PortAdd(endpoint_of(port)?)))
    }
}

fn endpoint_of(port: &Port) -> Result<Endpoint, AllocError>
    ensures { IfOk result (λ endpoint. endpoint ≡ endpoint_of port.now) }
{
    Ok(Endpoint {
        id: u64::from(port.id),
        family: port.family,
        address: port.address.clone()?,
        service: u64::from(port.service),
    })
}

pub(crate) struct Links;

impl SavedList for Links {
    type Item = Link;

    ghost edits = { edits_of_link };

    fn edits_of(link: &Link) -> Result<ItemEdits, AllocError> {
        Ok(ItemEdits::from(Edit::LinkAdd {
            port: u64::from(link.port),
            subsystem: link.subsystem.try_clone()?,
        }))
    }
}

pub(crate) struct States;

impl SavedList for States {
    type Item = GroupState;

    ghost edits = { edits_of_state };

    fn edits_of(state: &GroupState) -> Result<ItemEdits, AllocError> {
        Ok(ItemEdits::from(Edit::AnaSet {
            port: u64::from(state.port),
            subsystem: state.subsystem.try_clone()?,
            group: u64::from(state.group),
            state: state.state,
        }))
    }
}

pub(crate) struct Hosts;

impl SavedList for Hosts {
    type Item = Host;

    ghost edits = { edits_of_host };

    fn edits_of(host: &Host) -> Result<ItemEdits, AllocError> {
        let first = Edit::HostAdd {
            nqn: host.nqn.try_clone()?,
        };
        if host.live {
            return Ok(ItemEdits::from(first));
        }
        let second = Edit::HostDel {
            nqn: host.nqn.try_clone()?,
        };
        Ok(ItemEdits {
            first,
            second: Some(second),
        })
    }
}

pub(crate) struct Allows;

impl SavedList for Allows {
    type Item = Allow;

    ghost edits = { edits_of_allow };

    fn edits_of(allow: &Allow) -> Result<ItemEdits, AllocError> {
        Ok(ItemEdits::from(Edit::AllowAdd {
            subsystem: allow.subsystem.try_clone()?,
            host: allow.host.try_clone()?,
        }))
    }
}

pub(crate) struct Shows;

impl SavedList for Shows {
    type Item = Show;

    ghost edits = { edits_of_show };

    fn edits_of(show: &Show) -> Result<ItemEdits, AllocError> {
        Ok(ItemEdits::from(Edit::NamespaceShow {
            subsystem: show.subsystem.try_clone()?,
            nsid: u64::from(show.nsid),
            host: show.host.try_clone()?,
        }))
    }
}

/// The ports of discovery controllers elsewhere.
pub(crate) struct Referrals;

impl SavedList for Referrals {
    type Item = Port;

    ghost edits = { edits_of_referral };

    fn edits_of(referral: &Port) -> Result<ItemEdits, AllocError> {
        Ok(ItemEdits::from(Edit::ReferralAdd(endpoint_of(referral)?)))
    }
}
