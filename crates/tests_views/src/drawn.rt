//! What both tests of views draw, and which namespaces a host sees.
use nvt_config::{Config, Namespace, Visibility};
use rand_core::utils::NextWord;
use rand_pcg::Pcg32;
use testkit_edits::{A, B, H0, H1, H2};

/// One of these numbers.
pub fn pick(random: &mut Pcg32, numbers: &[u32]) -> u64 {
    let at = random.next_word() as usize % numbers.len().max(1);
    numbers.get(at).map_or(1, |number| u64::from(*number))
}

pub fn subsystem(random: &mut Pcg32) -> &'static [u8] {
    if random.next_word() % 3 == 0 { B } else { A }
}

/// The stranger is named now and then.
pub fn host(random: &mut Pcg32) -> &'static [u8] {
    match random.next_word() % 9 {
        0 => H2,
        1..=4 => H1,
        _ => H0,
    }
}

/// A namespace that is there, if one is.
pub fn present(random: &mut Pcg32, config: &Config) -> (&'static [u8], u64) {
    let namespaces = config.namespaces();
    let at = random.next_word() as usize % namespaces.len().max(1);
    match namespaces.get(at) {
        Some(namespace) if namespace.subsystem.as_bytes() == B => (B, u64::from(namespace.nsid)),
        Some(namespace) => (A, u64::from(namespace.nsid)),
        None => (A, 1),
    }
}

/// Whether a host sees a namespace: each does, or one of the shows says so.
pub fn sees(config: &Config, host: &[u8], namespace: &Namespace) -> bool {
    let is_shown = config.shows().iter().any(|show| {
        show.subsystem == namespace.subsystem
            && show.nsid == namespace.nsid
            && show.host.as_bytes() == host
    });
    namespace.visibility == Visibility::All || is_shown
}
