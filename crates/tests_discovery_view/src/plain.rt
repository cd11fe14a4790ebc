//! The generation counter by its definition, slowly: the configuration is built anew after each
//! edit, and the records that it shows to a host are written out and compared.

use nvt_config::{Access, Config, Edit, EditFault, Family, Link, NewFault, Port};
use std::alloc::{AllocError, Global};

// SUBTYPE of a record.
const REFERRAL: u8 = 1;

const NVM_SUBSYSTEM: u8 = 2;

const DISCOVERY_NQN: &[u8] = b"nqn.2014-08.org.nvmexpress.discovery";

/// How many of the edits changed the host's records, from a configuration that holds disks of these
/// sizes alone. An edit that the configuration refuses changes nothing.
pub fn generation(
    alloc: Global,
    units: &[u64],
    edits: &[Edit],
    host: &[u8],
) -> Result<u64, NewFault> {
    let mut generation: u64 = 0;
    let mut before = records_after(alloc, units, &[], host)?;
    for len in 1..=edits.len() {
        let after = records_after(alloc, units, &edits[..len], host)?;
        if after.as_slice() != before.as_slice() {
            generation = generation.wrapping_add(1);
        }
        before = after;
    }
    Ok(generation)
}

fn records_after(
    alloc: Global,
    units: &[u64],
    edits: &[Edit],
    host: &[u8],
) -> Result<Vec<u8>, NewFault> {
    let config = config_after(alloc, units, edits)?;
    match records(alloc, &config, host) {
        Ok(records) => Ok(records),
        Err(AllocError) => Err(NewFault::Memory),
    }
}

// The configuration that these edits make of one that holds disks of these sizes alone.
fn config_after(alloc: Global, units: &[u64], edits: &[Edit]) -> Result<Config, NewFault> {
    let mut config = Config::new(alloc, units)?;
    match apply_all(&mut config, edits) {
        Ok(()) => Ok(config),
        Err(AllocError) => Err(NewFault::Memory),
    }
}

// Makes those of the edits that the configuration accepts.
fn apply_all(config: &mut Config, edits: &[Edit]) -> Result<(), AllocError> {
    for edit in edits {
        if let Err(EditFault::Memory) = config.apply(edit) {
            return Err(AllocError);
        }
    }
    Ok(())
}

/// The bytes of the records that a configuration shows to a host: one for each link of a subsystem
/// that is open or allows the host, of which the least that is left comes next, and then one for each
/// referral, likewise.
pub fn records(alloc: Global, config: &Config, host: &[u8]) -> Result<Vec<u8>, AllocError> {
    let mut bytes = Vec::new(alloc);
    push_links(alloc, &mut bytes, config, host)?;
    push_referrals(alloc, &mut bytes, config)?;
    Ok(bytes)
}

fn push_links(
    alloc: Global,
    bytes: &mut Vec<u8>,
    config: &Config,
    host: &[u8],
) -> Result<(), AllocError> {
    let mut last = None;
    for _ in config.links() {
        if let Some(link) = least_above(config, host, last) {
            if let Some(port) = config.port(link.port) {
                push_record(alloc, bytes, NVM_SUBSYSTEM, port, link.subsystem.as_bytes())?;
            }
            last = Some(link);
        }
    }
    Ok(())
}

fn push_referrals(alloc: Global, bytes: &mut Vec<u8>, config: &Config) -> Result<(), AllocError> {
    let mut last = 0;
    for _ in config.referrals() {
        if let Some(referral) = least_referral_above(config, last) {
            push_record(alloc, bytes, REFERRAL, referral, DISCOVERY_NQN)?;
            last = referral.id;
        }
    }
    Ok(())
}

fn least_referral_above(config: &Config, last: u16) -> Option<&Port> {
    let mut least: Option<&Port> = None;
    for referral in config.referrals() {
        if referral.id > last && least.is_none_or(|least| referral.id < least.id) {
            least = Some(referral);
        }
    }
    least
}

// The least of the links that have a record and are above the last one.
fn least_above<'a>(config: &'a Config, host: &[u8], last: Option<&Link>) -> Option<&'a Link> {
    let mut least: Option<&Link> = None;
    for link in config.links() {
        let is_next = is_shown(config, host, link)
            && last.is_none_or(|last| is_below(last, link))
            && least.is_none_or(|least| is_below(link, least));
        if is_next {
            least = Some(link);
        }
    }
    least
}

fn is_shown(config: &Config, host: &[u8], link: &Link) -> bool {
    match config.subsystem(link.subsystem.as_bytes()) {
        Some(subsystem) => subsystem.access == Access::Open || is_allowed(config, host, link),
        None => false,
    }
}

fn is_allowed(config: &Config, host: &[u8], link: &Link) -> bool {
    for allow in config.allows() {
        if allow.subsystem == link.subsystem && allow.host.as_bytes() == host {
            return true;
        }
    }
    false
}

// By the port's number, and then by the subsystem's name.
fn is_below(link: &Link, other: &Link) -> bool {
    if link.port == other.port {
        link.subsystem.as_bytes() < other.subsystem.as_bytes()
    } else {
        link.port < other.port
    }
}

fn push_record(
    alloc: Global,
    bytes: &mut Vec<u8>,
    subtype: u8,
    port: &Port,
    subsystem: &[u8],
) -> Result<(), AllocError> {
    let family = match port.family {
        Family::Ipv4 => 1,
        Family::Ipv6 => 2,
    };
    let id = port.id.to_le_bytes();
    let head = [3, family, subtype, 0, id[0], id[1], 0xFF, 0xFF, 32, 0];
    push_padded(bytes, &head, 32, 0)?;
    let service = format!(in alloc; "{}", port.service)?;
    push_padded(bytes, service.as_bytes(), 32, b' ')?;
    push_padded(bytes, &[], 192, 0)?;
    push_padded(bytes, subsystem, 256, 0)?;
    push_padded(bytes, port.address.as_bytes(), 256, b' ')?;
    push_padded(bytes, &[], 256, 0)
}

// Pushes a text and as many bytes behind it as make `len`.
fn push_padded(
    bytes: &mut Vec<u8>,
    text: &[u8],
    len: usize,
    padding: u8,
) -> Result<(), AllocError> {
    bytes.extend_from_slice(text)?;
    for _ in text.len()..len {
        bytes.push(padding)?;
    }
    Ok(())
}
