use nvt_config::{Allow, Config, GroupState, Host, Link, Namespace, Port, Show, Subsystem};

/// Whether two configurations have the same disks and the same lists, each in the same order.
pub fn is_same(config: &Config, other: &Config) -> bool {
    config.units() == other.units()
        && are_subsystems_same(config.subsystems(), other.subsystems())
        && are_ports_same(config.ports(), other.ports())
        && are_links_same(config.links(), other.links())
        && are_hosts_same(config.hosts(), other.hosts())
        && are_namespaces_same(config.namespaces(), other.namespaces())
        && are_allows_same(config.allows(), other.allows())
        && are_states_same(config.states(), other.states())
        && are_ports_same(config.referrals(), other.referrals())
        && are_shows_same(config.shows(), other.shows())
}

fn are_subsystems_same(subsystems: &[Subsystem], others: &[Subsystem]) -> bool {
    for (subsystem, other) in subsystems.iter().zip(others) {
        let is_same = subsystem.nqn == other.nqn
            && subsystem.serial.as_bytes() == other.serial.as_bytes()
            && subsystem.access == other.access;
        if !is_same {
            return false;
        }
    }
    subsystems.len() == others.len()
}

fn are_ports_same(ports: &[Port], others: &[Port]) -> bool {
    for (port, other) in ports.iter().zip(others) {
        let is_same = (port.id, port.service) == (other.id, other.service)
            && port.family == other.family
            && port.address.as_bytes() == other.address.as_bytes();
        if !is_same {
            return false;
        }
    }
    ports.len() == others.len()
}

fn are_links_same(links: &[Link], others: &[Link]) -> bool {
    for (link, other) in links.iter().zip(others) {
        if link.port != other.port || link.subsystem != other.subsystem {
            return false;
        }
    }
    links.len() == others.len()
}

fn are_hosts_same(hosts: &[Host], others: &[Host]) -> bool {
    for (host, other) in hosts.iter().zip(others) {
        if host.nqn != other.nqn || host.live != other.live {
            return false;
        }
    }
    hosts.len() == others.len()
}

fn are_namespaces_same(namespaces: &[Namespace], others: &[Namespace]) -> bool {
    for (namespace, other) in namespaces.iter().zip(others) {
        let is_same = namespace.subsystem == other.subsystem
            && (namespace.nsid, namespace.disk) == (other.nsid, other.disk)
            && (namespace.blocks, namespace.group) == (other.blocks, other.group)
            && namespace.block_size == other.block_size
            && namespace.uuid == other.uuid
            && namespace.visibility == other.visibility;
        if !is_same {
            return false;
        }
    }
    namespaces.len() == others.len()
}

fn are_allows_same(allows: &[Allow], others: &[Allow]) -> bool {
    for (allow, other) in allows.iter().zip(others) {
        if allow.subsystem != other.subsystem || allow.host != other.host {
            return false;
        }
    }
    allows.len() == others.len()
}

fn are_states_same(states: &[GroupState], others: &[GroupState]) -> bool {
    for (state, other) in states.iter().zip(others) {
        let is_same = (state.port, state.group) == (other.port, other.group)
            && state.subsystem == other.subsystem
            && state.state == other.state;
        if !is_same {
            return false;
        }
    }
    states.len() == others.len()
}

fn are_shows_same(shows: &[Show], others: &[Show]) -> bool {
    for (show, other) in shows.iter().zip(others) {
        let is_same = show.subsystem == other.subsystem
            && show.nsid == other.nsid
            && show.host == other.host;
        if !is_same {
            return false;
        }
    }
    shows.len() == others.len()
}
