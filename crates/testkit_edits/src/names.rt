//! The names of subsystems and of hosts that tests use.

/// Subsystems.
pub const A: &[u8] = b"nqn.2026-01.test:a";

pub const B: &[u8] = b"nqn.2026-01.test:b";

/// Hosts.
pub const H0: &[u8] = b"nqn.2026-01.test:h0";

pub const H1: &[u8] = b"nqn.2026-01.test:h1";

pub const H2: &[u8] = b"nqn.2026-01.test:h2";

/// The name of a host: of the first, the second or the third.
pub fn host_name(host: usize) -> &'static [u8] {
    match host {
        0 => H0,
        1 => H1,
        _ => H2,
    }
}
