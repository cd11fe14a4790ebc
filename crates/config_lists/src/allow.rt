//! An allow: a host may use a closed subsystem.
ghost use Rattle.std.specs.Prelude.{◌≡◌, ◌&&◌};
ghost use Rattle.std.specs.List.{list_any};
ghost use Rattle.std.specs.Str.{bytes_eq};
ghost use Rattle.config_lists.specs.Lists.{without};

use nvt_fields::Nqn;
use std::alloc::AllocError;

/// A host may use a closed subsystem. No two allows of a configuration have the same subsystem and host.
#[derive(Drop)]
pub struct Allow {
    /// The name of a subsystem that is there.
    pub subsystem: Nqn,
    /// The name of a host that is live.
    pub host: Nqn,
}

impl Clone for Allow {
    ghost is_clone = { λ allow copy. copy ≡ allow };

    fn clone(&self) -> Result<Allow, AllocError> {
        Ok(Allow {
            subsystem: self.subsystem.try_clone()?,
            host: self.host.try_clone()?,
        })
    }
}

/// Whether the subsystem of that name allows the host of that name.
pub fn has_allow(allows: &[Allow], subsystem: &[u8], host: &[u8]) -> bool
    ensures { result ≡ list_any
        (λ a. bytes_eq a.subsystem subsystem.now && bytes_eq a.host host.now) allows.now }
{
    allows.iter().any(|allow| allow.host.is(host) && allow.subsystem.is(subsystem))
}

/// Whether the subsystem of that name allows a host.
pub fn is_subsystem_allowing(allows: &[Allow], subsystem: &Nqn) -> bool
    ensures { result ≡ list_any (λ a. bytes_eq a.subsystem subsystem.now) allows.now }
{
    allows.iter().any(|allow| allow.subsystem == *subsystem)
}

/// Whether a subsystem allows the host of that name.
pub fn is_host_allowed(allows: &[Allow], host: &Nqn) -> bool
    ensures { result ≡ list_any (λ a. bytes_eq a.host host.now) allows.now }
{
    allows.iter().any(|allow| allow.host == *host)
}

/// Takes the allow of that subsystem and that host away.
pub fn remove_allow(allows: &mut Vec<Allow>, subsystem: &Nqn, host: &Nqn)
    ensures { allows.new.items ≡ without
        (λ a. bytes_eq a.subsystem subsystem.now && bytes_eq a.host host.now) allows.old.items }
{
    allows.retain(|allow| allow.subsystem != *subsystem || allow.host != *host);
}
