//! A host: who uses subsystems.
ghost use Rattle.std.specs.Prelude.{◌≡◌, ◌&&◌};
ghost use Rattle.std.specs.List.{list_any};
ghost use Rattle.std.specs.Str.{bytes_eq};
ghost use Rattle.config_lists.specs.declared.host.Host.{Host};
ghost use Rattle.config_lists.specs.Lists.{changed_where};

use nvt_fields::Nqn;
use std::alloc::AllocError;

/// A host that was added. One that was deleted stays in its place, not live.
#[derive(Drop)]
pub struct Host {
    /// No two hosts of a configuration have the same.
    pub nqn: Nqn,
    pub live: bool,
}

impl Clone for Host {
    ghost is_clone = { λ host copy. copy ≡ host };

    fn clone(&self) -> Result<Host, AllocError> {
        Ok(Host {
            nqn: self.nqn.try_clone()?,
            live: self.live,
        })
    }
}

/// Whether a host of that name was ever added.
pub fn has_host(hosts: &[Host], nqn: &Nqn) -> bool
    ensures { result ≡ list_any (λ host. bytes_eq host.nqn nqn.now) hosts.now }
{
    hosts.iter().any(|host| host.nqn == *nqn)
}

/// Whether a live host of that name is there.
pub fn has_live_host(hosts: &[Host], nqn: &Nqn) -> bool
    ensures { result ≡ list_any (λ host. bytes_eq host.nqn nqn.now && host.live) hosts.now }
{
    hosts.iter().any(|host| host.nqn == *nqn && host.live)
}

/// Makes the host of that name live, or not.
pub fn set_live(hosts: &mut [Host], nqn: &Nqn, live: bool)
    ensures { let set : Host → Host = λ host. record host { live = live } in
        hosts.new ≡ changed_where (λ host. bytes_eq host.nqn nqn.now) set hosts.old }
{
    for host in hosts.iter_mut() {
        if host.nqn == *nqn {
            host.live = live;
        }
    }
}
