//! What Identify returns of the namespaces that a host sees, typed from its formats.
use super::bytes::put;
use super::layout::{Layout, Namespace, nsid_of};
use std::alloc::{AllocError, Global};
use testkit_edits::uuid_byte;

/// What is asked for: a namespace's structure, the list of those that are active, a namespace's descriptors.
pub const NAMESPACE: u8 = 0x00;

pub const ACTIVE: u8 = 0x02;

pub const DESCRIPTORS: u8 = 0x03;

// The greatest identifier that a namespace may have.
const NSID_MAX: u32 = 4_096;

// From here on no list begins.
const LIST_END: u32 = 0xFFFF_FFFE;

// The namespace of that identifier, with its place.
fn named(seen: &Layout, nsid: u32) -> Option<(usize, Namespace)> {
    for at in 1..4usize {
        if nsid_of(at) == nsid {
            return seen.namespace(at).map(|namespace| (at, namespace));
        }
    }
    None
}

// Zeros, where the host sees none.
fn namespace_data(seen: &Layout, nsid: u32) -> [u8; 4096] {
    let mut page = [0u8; 4096];
    if let Some((_, namespace)) = named(seen, nsid) {
        let blocks = u64::from(namespace.blocks).to_le_bytes();
        put(&mut page, 0, &blocks);
        put(&mut page, 8, &blocks);
        put(&mut page, 16, &blocks);
        page[30] = 1;
        page[92] = if namespace.group == 1 { 1 } else { 2 };
        page[130] = if namespace.is_large { 12 } else { 9 };
    }
    page
}

fn active_list(seen: &Layout, above: u32) -> [u8; 4096] {
    let mut page = [0u8; 4096];
    let mut end = 0usize;
    for at in 1..4usize {
        if seen.namespace(at).is_some() && nsid_of(at) > above {
            put(&mut page, end, &nsid_of(at).to_le_bytes());
            end = end.saturating_add(4);
        }
    }
    page
}

// None, where the host sees no namespace of that identifier.
fn descriptors(seen: &Layout, nsid: u32) -> Option<[u8; 4096]> {
    let (at, _) = named(seen, nsid)?;
    let mut page = [0u8; 4096];
    put(&mut page, 0, &[3, 16]);
    put(&mut page, 4, &[uuid_byte(at); 16]);
    Some(page)
}

/// What is returned of the namespaces that a host sees, or none where the identifier is refused.
pub fn structure_of(
    alloc: Global,
    seen: &Layout,
    cns: u8,
    nsid: u32,
) -> Result<Option<Vec<u8>>, AllocError> {
    let page = match cns {
        NAMESPACE if (1..=NSID_MAX).contains(&nsid) => Some(namespace_data(seen, nsid)),
        ACTIVE if nsid < LIST_END => Some(active_list(seen, nsid)),
        DESCRIPTORS => descriptors(seen, nsid),
        _ => None,
    };
    match page {
        Some(page) => Ok(Some(Vec::from_slice(alloc, &page)?)),
        None => Ok(None),
    }
}
