//! The bytes of log pages, typed from their formats.
use super::bytes::put;
use super::layout::{DISCOVERY_NQN, Layout, SWEPT_END, SWEPT_FIRST, nsid_of, place_of};
use super::past::Past;
use nvt_config::AnaState;
use std::alloc::{AllocError, Global};
use testkit_edits::A;

/// The identifier of the Changed Namespace List.
pub const CHANGED: u8 = 0x04;

/// The identifier of the Asymmetric Namespace Access log page.
pub const ANA: u8 = 0x0C;

/// The identifier of the discovery log page.
pub const DISCOVERY: u8 = 0x70;

// The Changed Namespace List of a controller: of more than it has entries it says so.
fn changed_page(past: &Past, queue: usize, page: &mut Vec<u8>) -> Result<(), AllocError> {
    add_changed(past, queue, page)?;
    if page.len() > 4096 {
        page.clear();
        page.extend_from_slice(&[0xFF; 4])?;
    }
    page.resize(4096, 0)
}

// What changed, rising.
fn add_changed(past: &Past, queue: usize, page: &mut Vec<u8>) -> Result<(), AllocError> {
    for at in 1..4usize {
        if at == 3 && past.has_swept(queue) {
            add_swept(page)?;
        }
        if past.has_changed(queue, at) {
            page.extend_from_slice(&nsid_of(at).to_le_bytes())?;
        }
    }
    Ok(())
}

fn add_swept(page: &mut Vec<u8>) -> Result<(), AllocError> {
    for nsid in SWEPT_FIRST..SWEPT_END {
        page.extend_from_slice(&nsid.to_le_bytes())?;
    }
    Ok(())
}

fn state_code(state: AnaState) -> u8 {
    match state {
        AnaState::Optimized => 1,
        AnaState::NonOptimized => 2,
        AnaState::Inaccessible => 3,
        AnaState::PersistentLoss => 4,
        AnaState::Change => 0x0F,
    }
}

// The descriptor of an ANA group of which the host sees a namespace, before its namespaces.
fn group_head(past: &Past, queue: usize, group: u8, count: u8) -> [u8; 32] {
    let at = usize::from(group);
    let port = place_of(queue).port;
    let mut head = [0u8; 32];
    head[0] = group;
    head[4] = count;
    put(&mut head, 8, &past.changes(queue, Some(at)).to_le_bytes());
    head[16] = state_code(past.layout().states[port % 4][at % 3]);
    head
}

fn add_namespaces(layout: &Layout, group: u8, page: &mut Vec<u8>) -> Result<(), AllocError> {
    for at in 1..4usize {
        if layout.is_in(at, usize::from(group)) {
            page.extend_from_slice(&nsid_of(at).to_le_bytes())?;
        }
    }
    Ok(())
}

fn add_group(
    past: &Past,
    queue: usize,
    group: u8,
    groups_only: bool,
    page: &mut Vec<u8>,
) -> Result<(), AllocError> {
    if groups_only {
        return page.extend_from_slice(&group_head(past, queue, group, 0));
    }
    let layout = past.seen(queue);
    let count = layout.count_in(usize::from(group));
    page.extend_from_slice(&group_head(past, queue, group, count))?;
    add_namespaces(&layout, group, page)
}

fn ana_header(past: &Past, queue: usize, groups: u8) -> [u8; 16] {
    let mut header = [0u8; 16];
    put(&mut header, 0, &past.changes(queue, None).to_le_bytes());
    header[8] = groups;
    header
}

// The Asymmetric Namespace Access log page of a controller: a group is there where its host sees one of its namespaces.
fn ana_page(
    past: &Past,
    queue: usize,
    groups_only: bool,
    page: &mut Vec<u8>,
) -> Result<(), AllocError> {
    let layout = past.seen(queue);
    let groups = u8::from(layout.has_group(1)).saturating_add(u8::from(layout.has_group(2)));
    page.extend_from_slice(&ana_header(past, queue, groups))?;
    for group in [1u8, 2] {
        if layout.has_group(usize::from(group)) {
            add_group(past, queue, group, groups_only, page)?;
        }
    }
    Ok(())
}

// The decimal digits of a service.
fn digits(service: u16) -> &'static [u8] {
    match service {
        4420 => b"4420",
        8009 => b"8009",
        _ => b"",
    }
}

// The record of a port, or of a referral, of this number and this service.
fn record(id: u8, is_referral: bool, service: u16) -> [u8; 1024] {
    let mut record = [0u8; 1024];
    let subtype = if is_referral { 1 } else { 2 };
    put(
        &mut record,
        0,
        &[3, 1, subtype, 0, id, 0, 0xFF, 0xFF, 0x20, 0],
    );
    put(&mut record, 32, &[b' '; 32]);
    put(&mut record, 32, digits(service));
    put(
        &mut record,
        256,
        if is_referral { DISCOVERY_NQN } else { A },
    );
    put(&mut record, 512, &[b' '; 256]);
    put(
        &mut record,
        512,
        if is_referral {
            b"127.0.0.9"
        } else {
            b"127.0.0.1"
        },
    );
    record
}

fn discovery_header(genctr: u64, numrec: u8) -> [u8; 1024] {
    let mut header = [0u8; 1024];
    put(&mut header, 0, &genctr.to_le_bytes());
    header[8] = numrec;
    header
}

fn count_of(services: &[u16; 4]) -> u8 {
    let mut count = 0u8;
    for service in services {
        count = count.saturating_add(u8::from(*service != 0));
    }
    count
}

// The discovery log page of a host.
fn discovery_page(past: &Past, host: usize, page: &mut Vec<u8>) -> Result<(), AllocError> {
    let records = past.layout().records(host);
    let header = discovery_header(past.generation(host), count_of(&records));
    page.extend_from_slice(&header)?;
    for (at, service) in records.iter().enumerate() {
        if *service != 0 {
            let id = if at % 2 == 0 { 1 } else { 2 };
            page.extend_from_slice(&record(id, at > 1, *service))?;
        }
    }
    Ok(())
}

/// A log page of a controller, whole.
pub fn page_of(
    alloc: Global,
    past: &Past,
    queue: usize,
    lid: u8,
    groups_only: bool,
) -> Result<Vec<u8>, AllocError> {
    let mut page = Vec::new(alloc);
    match lid {
        CHANGED => changed_page(past, queue, &mut page)?,
        ANA => ana_page(past, queue, groups_only, &mut page)?,
        _ => discovery_page(past, place_of(queue).host, &mut page)?,
    }
    Ok(page)
}
