use nvt_config::{Edit, Endpoint, NewNamespace};

/// Whether two edits are of one kind and have the same values.
pub fn is_same_edit(edit: &Edit, other: &Edit) -> bool {
    match edit {
        Edit::SubsystemAdd { .. } | Edit::SubsystemSet { .. } | Edit::SubsystemDel { .. } => {
            is_same_of_subsystem(edit, other)
        }
        Edit::NamespaceAdd(_)
        | Edit::NamespaceSize { .. }
        | Edit::NamespaceGroup { .. }
        | Edit::NamespaceDel { .. } => is_same_of_namespace(edit, other),
        Edit::NamespaceView { .. } => is_same_of_view(edit, other),
        Edit::NamespaceShow { .. } | Edit::NamespaceHide { .. } => is_same_of_show(edit, other),
        Edit::PortAdd(_)
        | Edit::PortSet(_)
        | Edit::PortDel { .. }
        | Edit::ReferralAdd(_)
        | Edit::ReferralSet(_)
        | Edit::ReferralDel { .. } => is_same_of_endpoint(edit, other),
        Edit::LinkAdd { .. } | Edit::LinkDel { .. } | Edit::AnaSet { .. } => {
            is_same_of_link(edit, other)
        }
        Edit::HostAdd { .. }
        | Edit::HostDel { .. }
        | Edit::AllowAdd { .. }
        | Edit::AllowDel { .. } => is_same_of_host(edit, other),
    }
}

fn is_same_of_subsystem(edit: &Edit, other: &Edit) -> bool {
    match (edit, other) {
        (
            Edit::SubsystemAdd {
                nqn,
                serial,
                access,
            },
            Edit::SubsystemAdd {
                nqn: name,
                serial: number,
                access: who,
            },
        ) => nqn == name && serial.as_bytes() == number.as_bytes() && access == who,
        (
            Edit::SubsystemSet { nqn, access },
            Edit::SubsystemSet {
                nqn: name,
                access: who,
            },
        ) => { nqn == name && access == who }
        (Edit::SubsystemDel { nqn }, Edit::SubsystemDel { nqn: name }) => nqn == name,
        _ => false,
    }
}

fn is_same_of_namespace(edit: &Edit, other: &Edit) -> bool {
    match (edit, other) {
        (Edit::NamespaceAdd(new), Edit::NamespaceAdd(named)) => is_same_new(new, named),
        (
            Edit::NamespaceSize {
                subsystem,
                nsid,
                blocks,
            },
            Edit::NamespaceSize {
                subsystem: name,
                nsid: id,
                blocks: size,
            },
        ) => subsystem == name && (nsid, blocks) == (id, size),
        (
            Edit::NamespaceGroup {
                subsystem,
                nsid,
                group,
            },
            Edit::NamespaceGroup {
                subsystem: name,
                nsid: id,
                group: other_group,
            },
        ) => subsystem == name && (nsid, group) == (id, other_group),
        (
            Edit::NamespaceDel { subsystem, nsid },
            Edit::NamespaceDel {
                subsystem: name,
                nsid: id,
            },
        ) => subsystem == name && nsid == id,
        _ => false,
    }
}

fn is_same_of_view(edit: &Edit, other: &Edit) -> bool {
    match (edit, other) {
        (
            Edit::NamespaceView {
                subsystem,
                nsid,
                visibility,
            },
            Edit::NamespaceView {
                subsystem: name,
                nsid: id,
                visibility: who,
            },
        ) => subsystem == name && nsid == id && visibility == who,
        _ => false,
    }
}

fn is_same_of_show(edit: &Edit, other: &Edit) -> bool {
    match (edit, other) {
        (
            Edit::NamespaceShow {
                subsystem,
                nsid,
                host,
            },
            Edit::NamespaceShow {
                subsystem: name,
                nsid: id,
                host: other_host,
            },
        )
        | (
            Edit::NamespaceHide {
                subsystem,
                nsid,
                host,
            },
            Edit::NamespaceHide {
                subsystem: name,
                nsid: id,
                host: other_host,
            },
        ) => subsystem == name && nsid == id && host == other_host,
        _ => false,
    }
}

fn is_same_new(new: &NewNamespace, other: &NewNamespace) -> bool {
    new.subsystem == other.subsystem
        && (new.nsid, new.disk) == (other.nsid, other.disk)
        && (new.blocks, new.block_size) == (other.blocks, other.block_size)
        && new.uuid == other.uuid
        && new.group == other.group
}

fn is_same_of_endpoint(edit: &Edit, other: &Edit) -> bool {
    match (edit, other) {
        (Edit::PortAdd(endpoint), Edit::PortAdd(other))
        | (Edit::PortSet(endpoint), Edit::PortSet(other))
        | (Edit::ReferralAdd(endpoint), Edit::ReferralAdd(other))
        | (Edit::ReferralSet(endpoint), Edit::ReferralSet(other)) => {
            is_same_endpoint(endpoint, other)
        }
        (Edit::PortDel { id }, Edit::PortDel { id: other })
        | (Edit::ReferralDel { id }, Edit::ReferralDel { id: other }) => id == other,
        _ => false,
    }
}

fn is_same_endpoint(endpoint: &Endpoint, other: &Endpoint) -> bool {
    (endpoint.id, endpoint.service) == (other.id, other.service)
        && endpoint.family == other.family
        && endpoint.address.as_bytes() == other.address.as_bytes()
}

fn is_same_of_link(edit: &Edit, other: &Edit) -> bool {
    match (edit, other) {
        (
            Edit::LinkAdd { port, subsystem },
            Edit::LinkAdd {
                port: id,
                subsystem: name,
            },
        )
        | (
            Edit::LinkDel { port, subsystem },
            Edit::LinkDel {
                port: id,
                subsystem: name,
            },
        ) => port == id && subsystem == name,
        (
            Edit::AnaSet {
                port,
                subsystem,
                group,
                state,
            },
            Edit::AnaSet {
                port: id,
                subsystem: name,
                group: other_group,
                state: other_state,
            },
        ) => (port, group) == (id, other_group) && subsystem == name && state == other_state,
        _ => false,
    }
}

fn is_same_of_host(edit: &Edit, other: &Edit) -> bool {
    match (edit, other) {
        (Edit::HostAdd { nqn }, Edit::HostAdd { nqn: name })
        | (Edit::HostDel { nqn }, Edit::HostDel { nqn: name }) => nqn == name,
        (
            Edit::AllowAdd { subsystem, host },
            Edit::AllowAdd {
                subsystem: name,
                host: other_host,
            },
        )
        | (
            Edit::AllowDel { subsystem, host },
            Edit::AllowDel {
                subsystem: name,
                host: other_host,
            },
        ) => subsystem == name && host == other_host,
        _ => false,
    }
}
