//! A link: a subsystem that is served on a port.
ghost use Rattle.std.specs.Prelude.{◌≡◌, ◌==◌, ◌&&◌};
ghost use Rattle.std.specs.List.{list_any};
ghost use Rattle.std.specs.Str.{bytes_eq};
ghost use Rattle.config_lists.specs.Lists.{without};

use nvt_fields::Nqn;
use std::alloc::AllocError;

/// A subsystem is served on a port. No two links of a configuration have the same port and subsystem.
#[derive(Drop)]
pub struct Link {
    /// The number of a port that is there.
    pub port: u16,
    /// The name of a subsystem that is there.
    pub subsystem: Nqn,
}

impl Clone for Link {
    ghost is_clone = { λ link copy. copy ≡ link };

    fn clone(&self) -> Result<Link, AllocError> {
        Ok(Link {
            port: self.port,
            subsystem: self.subsystem.try_clone()?,
        })
    }
}

/// Whether the subsystem of that name is served on that port.
pub fn has_link(links: &[Link], port: u64, subsystem: &[u8]) -> bool
    ensures { result ≡ list_any
        (λ link. link.port == port && bytes_eq link.subsystem subsystem.now) links.now }
{
    links.iter().any(|link| u64::from(link.port) == port && link.subsystem.is(subsystem))
}

/// Whether a subsystem is served on that port.
pub fn is_port_linked(links: &[Link], port: u64) -> bool
    ensures { result ≡ list_any (λ link. link.port == port) links.now }
{
    links.iter().any(|link| u64::from(link.port) == port)
}

/// Whether the subsystem of that name is served on a port.
pub fn is_subsystem_linked(links: &[Link], subsystem: &Nqn) -> bool
    ensures { result ≡ list_any (λ link. bytes_eq link.subsystem subsystem.now) links.now }
{
    links.iter().any(|link| link.subsystem == *subsystem)
}

/// Takes the link of that port and that subsystem away.
pub fn remove_link(links: &mut Vec<Link>, port: u64, subsystem: &Nqn)
    ensures { links.new.items ≡ without
        (λ link. link.port == port && bytes_eq link.subsystem subsystem.now) links.old.items }
{
    links.retain(|link| u64::from(link.port) != port || link.subsystem != *subsystem);
}
