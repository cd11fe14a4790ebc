//! A port: where the target listens.
ghost use Rattle.std.specs.Prelude.{◌≡◌, ◌≢◌, ◌==◌, AllPairs, position};
ghost use Rattle.std.specs.List.{list_any};
ghost use Rattle.config_lists.specs.Lists.{changed_where, without};
ghost use Rattle.config_lists.specs.Port.{is_address, is_port_number};

use crate::text::Text;
use std::alloc::AllocError;

const ADDRESS_MAX: usize = 256;

/// The family of a port's address.
#[derive(Clone, Copy, PartialEq, Eq)]
pub enum Family {
    Ipv4,
    Ipv6,
}

/// A place where the target listens, as hosts name it.
#[derive(Drop)]
pub struct Port {
    /// From 1 to 65,535; no two ports of a configuration have the same.
    pub id: u16,
    pub family: Family,
    /// 1 to 256 bytes, each from 21h to 7Eh.
    pub address: Text,
    /// The TCP port number, from 1 to 65,535.
    pub service: u16,
}

impl Clone for Port {
    ghost is_clone = { λ port copy. copy ≡ port };

    fn clone(&self) -> Result<Port, AllocError> {
        Ok(Port {
            id: self.id,
            family: self.family,
            address: self.address.clone()?,
            service: self.service,
        })
    }
}

/// Whether a port, or its service, may have this number: 1 to 65,535.
pub fn is_port_number(n: u64) -> bool
    ensures { result ≡ is_port_number n }
{
    (1..=65_535).contains(&n)
}

/// Whether a port may have this address: 1 to 256 bytes, each from 21h to 7Eh.
pub fn is_address(text: &Text) -> bool
    ensures { result ≡ is_address text.now }
{
    text.is_word(ADDRESS_MAX)
}

/// Whether a port of that number is there.
pub fn has_port(ports: &[Port], id: u64) -> bool
    ensures { result ≡ list_any (λ port. port.id == id) ports.now }
{
    ports.iter().any(|port| u64::from(port.id) == id)
}

/// Puts a port in the place of the one of its number, where that is there.
pub fn replace_port(ports: &mut [Port], port: Port)
    requires { AllPairs (λ p q. p.id ≢ q.id) ports.old }
    ensures { ports.new ≡ changed_where (λ old. old.id == port.id) (λ _. port) ports.old }
{
    if let Some(at) = place_of(ports, port.id) {
        ports[at] = port;
    }
}

fn place_of(ports: &[Port], id: u16) -> Option<usize>
    ensures { result ≡ position (λ port. port.id == id) ports.now }
{
    ports.iter().position(|port| port.id == id)
}

/// Takes the port of that number away.
pub fn remove_port(ports: &mut Vec<Port>, id: u64)
    ensures { ports.new.items ≡ without (λ port. port.id == id) ports.old.items }
{
    ports.retain(|port| u64::from(port.id) != id);
}
