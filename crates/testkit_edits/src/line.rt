use nvt_config::{Access, AnaState, Edit, Endpoint, Family, NewNamespace, Text, Visibility};
use nvt_fields::{Nqn, NqnFault};
use std::alloc::{AllocError, Global};
use uuid::Uuid;

/// An edit with its names and texts lent.
#[derive(Clone, Copy)]
pub enum Line<'a> {
    /// Its name, its serial number and who may use it.
    SubsystemAdd(&'a [u8], &'a [u8], Access),
    SubsystemSet(&'a [u8], Access),
    SubsystemDel(&'a [u8]),
    /// Its subsystem and the rest of it.
    NamespaceAdd(&'a [u8], Blocks),
    /// Its subsystem, its identifier and its size.
    NamespaceSize(&'a [u8], u64, u64),
    /// Its subsystem, its identifier and its group.
    NamespaceGroup(&'a [u8], u64, u64),
    NamespaceDel(&'a [u8], u64),
    /// Its subsystem, its identifier and which hosts see it.
    NamespaceView(&'a [u8], u64, Visibility),
    /// Its subsystem, its identifier and the host.
    NamespaceShow(&'a [u8], u64, &'a [u8]),
    NamespaceHide(&'a [u8], u64, &'a [u8]),
    /// Its number, its IPv4 address and its service.
    PortAdd(u64, &'a [u8], u64),
    /// Its number, its family, its address and its service.
    PortSet(u64, Family, &'a [u8], u64),
    PortDel(u64),
    LinkAdd(u64, &'a [u8]),
    LinkDel(u64, &'a [u8]),
    HostAdd(&'a [u8]),
    HostDel(&'a [u8]),
    /// The subsystem and the host.
    AllowAdd(&'a [u8], &'a [u8]),
    AllowDel(&'a [u8], &'a [u8]),
    /// The port, the subsystem, the group and its state.
    AnaSet(u64, &'a [u8], u64, AnaState),
    /// Its number, its IPv4 address and its service.
    ReferralAdd(u64, &'a [u8], u64),
    /// Its number, its family, its address and its service.
    ReferralSet(u64, Family, &'a [u8], u64),
    ReferralDel(u64),
}

/// A namespace but for its subsystem.
#[derive(Clone, Copy)]
pub struct Blocks {
    pub nsid: u64,
    pub disk: u64,
    pub blocks: u64,
    pub block_size: u64,
    /// Each byte of its UUID.
    pub uuid: u8,
    pub group: u64,
}

/// The edit of a line, or why its name is none. It wants memory for each name and each text alone.
pub fn edit(alloc: Global, line: Line<'_>) -> Result<Edit, NqnFault> {
    match line {
        Line::SubsystemAdd(nqn, serial, access) => subsystem_add(alloc, nqn, serial, access),
        Line::SubsystemSet(nqn, access) => subsystem_set(alloc, nqn, access),
        Line::SubsystemDel(nqn) => subsystem_del(alloc, nqn),
        Line::NamespaceAdd(nqn, blocks) => namespace_add(alloc, nqn, blocks),
        Line::NamespaceSize(nqn, nsid, blocks) => namespace_size(alloc, nqn, nsid, blocks),
        Line::NamespaceGroup(nqn, nsid, group) => namespace_group(alloc, nqn, nsid, group),
        Line::NamespaceDel(nqn, nsid) => namespace_del(alloc, nqn, nsid),
        Line::NamespaceView(nqn, nsid, visibility) => namespace_view(alloc, nqn, nsid, visibility),
        Line::NamespaceShow(nqn, nsid, host) => namespace_show(alloc, nqn, nsid, host),
        Line::NamespaceHide(nqn, nsid, host) => namespace_hide(alloc, nqn, nsid, host),
        Line::PortAdd(id, address, service) => port_add(alloc, id, address, service),
        Line::PortSet(id, family, address, service) => {
            port_set(alloc, id, family, address, service)
        }
        Line::PortDel(id) => Ok(Edit::PortDel { id }),
        Line::LinkAdd(port, nqn) => link_add(alloc, port, nqn),
        Line::LinkDel(port, nqn) => link_del(alloc, port, nqn),
        Line::HostAdd(nqn) => host_add(alloc, nqn),
        Line::HostDel(nqn) => host_del(alloc, nqn),
        Line::AllowAdd(nqn, host) => allow_add(alloc, nqn, host),
        Line::AllowDel(nqn, host) => allow_del(alloc, nqn, host),
        Line::AnaSet(port, nqn, group, state) => ana_set(alloc, port, nqn, group, state),
        Line::ReferralAdd(id, address, service) => referral_add(alloc, id, address, service),
        Line::ReferralSet(id, family, address, service) => {
            referral_set(alloc, id, family, address, service)
        }
        Line::ReferralDel(id) => Ok(Edit::ReferralDel { id }),
    }
}

fn text(alloc: Global, bytes: &[u8]) -> Result<Text, NqnFault> {
    match Vec::from_slice(alloc, bytes) {
        Ok(bytes) => Ok(Text::from(bytes)),
        Err(AllocError) => Err(NqnFault::Memory),
    }
}

fn endpoint(
    alloc: Global,
    id: u64,
    family: Family,
    address: &[u8],
    service: u64,
) -> Result<Endpoint, NqnFault> {
    let address = text(alloc, address)?;
    Ok(Endpoint {
        id,
        family,
        address,
        service,
    })
}

fn port_add(alloc: Global, id: u64, address: &[u8], service: u64) -> Result<Edit, NqnFault> {
    let endpoint = endpoint(alloc, id, Family::Ipv4, address, service)?;
    Ok(Edit::PortAdd(endpoint))
}

fn port_set(
    alloc: Global,
    id: u64,
    family: Family,
    address: &[u8],
    service: u64,
) -> Result<Edit, NqnFault> {
    let endpoint = endpoint(alloc, id, family, address, service)?;
    Ok(Edit::PortSet(endpoint))
}

fn referral_add(alloc: Global, id: u64, address: &[u8], service: u64) -> Result<Edit, NqnFault> {
    let endpoint = endpoint(alloc, id, Family::Ipv4, address, service)?;
    Ok(Edit::ReferralAdd(endpoint))
}

fn referral_set(
    alloc: Global,
    id: u64,
    family: Family,
    address: &[u8],
    service: u64,
) -> Result<Edit, NqnFault> {
    let endpoint = endpoint(alloc, id, family, address, service)?;
    Ok(Edit::ReferralSet(endpoint))
}

fn subsystem_add(
    alloc: Global,
    nqn: &[u8],
    serial: &[u8],
    access: Access,
) -> Result<Edit, NqnFault> {
    let nqn = Nqn::read(alloc, nqn)?;
    let serial = text(alloc, serial)?;
    Ok(Edit::SubsystemAdd {
        nqn,
        serial,
        access,
    })
}

fn subsystem_set(alloc: Global, nqn: &[u8], access: Access) -> Result<Edit, NqnFault> {
    let nqn = Nqn::read(alloc, nqn)?;
    Ok(Edit::SubsystemSet { nqn, access })
}

fn subsystem_del(alloc: Global, nqn: &[u8]) -> Result<Edit, NqnFault> {
    let nqn = Nqn::read(alloc, nqn)?;
    Ok(Edit::SubsystemDel { nqn })
}

fn namespace_add(alloc: Global, nqn: &[u8], blocks: Blocks) -> Result<Edit, NqnFault> {
    let subsystem = Nqn::read(alloc, nqn)?;
    Ok(Edit::NamespaceAdd(NewNamespace {
        subsystem,
        nsid: blocks.nsid,
        disk: blocks.disk,
        blocks: blocks.blocks,
        block_size: blocks.block_size,
        uuid: Uuid::from_bytes([blocks.uuid; 16]),
        group: blocks.group,
    }))
}

fn namespace_size(alloc: Global, nqn: &[u8], nsid: u64, blocks: u64) -> Result<Edit, NqnFault> {
    let subsystem = Nqn::read(alloc, nqn)?;
    Ok(Edit::NamespaceSize {
        subsystem,
        nsid,
        blocks,
    })
}

fn namespace_group(alloc: Global, nqn: &[u8], nsid: u64, group: u64) -> Result<Edit, NqnFault> {
    let subsystem = Nqn::read(alloc, nqn)?;
    Ok(Edit::NamespaceGroup {
        subsystem,
        nsid,
        group,
    })
}

fn namespace_del(alloc: Global, nqn: &[u8], nsid: u64) -> Result<Edit, NqnFault> {
    let subsystem = Nqn::read(alloc, nqn)?;
    Ok(Edit::NamespaceDel { subsystem, nsid })
}

fn namespace_view(
    alloc: Global,
    nqn: &[u8],
    nsid: u64,
    visibility: Visibility,
) -> Result<Edit, NqnFault> {
    let subsystem = Nqn::read(alloc, nqn)?;
    Ok(Edit::NamespaceView {
        subsystem,
        nsid,
        visibility,
    })
}

fn namespace_show(alloc: Global, nqn: &[u8], nsid: u64, host: &[u8]) -> Result<Edit, NqnFault> {
    let subsystem = Nqn::read(alloc, nqn)?;
    let host = Nqn::read(alloc, host)?;
    Ok(Edit::NamespaceShow {
        subsystem,
        nsid,
        host,
    })
}

fn namespace_hide(alloc: Global, nqn: &[u8], nsid: u64, host: &[u8]) -> Result<Edit, NqnFault> {
    let subsystem = Nqn::read(alloc, nqn)?;
    let host = Nqn::read(alloc, host)?;
    Ok(Edit::NamespaceHide {
        subsystem,
        nsid,
        host,
    })
}

fn link_add(alloc: Global, port: u64, nqn: &[u8]) -> Result<Edit, NqnFault> {
    let subsystem = Nqn::read(alloc, nqn)?;
    Ok(Edit::LinkAdd { port, subsystem })
}

fn link_del(alloc: Global, port: u64, nqn: &[u8]) -> Result<Edit, NqnFault> {
    let subsystem = Nqn::read(alloc, nqn)?;
    Ok(Edit::LinkDel { port, subsystem })
}

fn host_add(alloc: Global, nqn: &[u8]) -> Result<Edit, NqnFault> {
    let nqn = Nqn::read(alloc, nqn)?;
    Ok(Edit::HostAdd { nqn })
}

fn host_del(alloc: Global, nqn: &[u8]) -> Result<Edit, NqnFault> {
    let nqn = Nqn::read(alloc, nqn)?;
    Ok(Edit::HostDel { nqn })
}

fn allow_add(alloc: Global, nqn: &[u8], host: &[u8]) -> Result<Edit, NqnFault> {
    let subsystem = Nqn::read(alloc, nqn)?;
    let host = Nqn::read(alloc, host)?;
    Ok(Edit::AllowAdd { subsystem, host })
}

fn allow_del(alloc: Global, nqn: &[u8], host: &[u8]) -> Result<Edit, NqnFault> {
    let subsystem = Nqn::read(alloc, nqn)?;
    let host = Nqn::read(alloc, host)?;
    Ok(Edit::AllowDel { subsystem, host })
}

fn ana_set(
    alloc: Global,
    port: u64,
    nqn: &[u8],
    group: u64,
    state: AnaState,
) -> Result<Edit, NqnFault> {
    let subsystem = Nqn::read(alloc, nqn)?;
    Ok(Edit::AnaSet {
        port,
        subsystem,
        group,
        state,
    })
}
