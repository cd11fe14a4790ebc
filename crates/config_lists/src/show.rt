//! A show: a host is shown a namespace that only named hosts see.
ghost use Rattle.std.specs.Prelude.{◌≡◌, ◌&&◌, filter, find};
ghost use Rattle.std.specs.List.{list_any};
ghost use Rattle.std.specs.Option.{option_copied};
ghost use Rattle.std.specs.Str.{bytes_eq};
ghost use Rattle.config_lists.specs.Lists.{without};
ghost use Rattle.config_lists.specs.Namespace.{is_for_all, is_named};
ghost use Rattle.config_lists.specs.Show.{has_show, is_seen, is_show_of, is_show_to};
ghost use Rattle.config_lists.specs.Show.{is_shown_of};

use crate::namespace::{Namespace, Visibility};
use nvt_fields::Nqn;
use std::alloc::AllocError;

/// A host is shown a namespace. Where each host sees the namespace, it says nothing. No two shows of a
/// configuration have the same namespace and host.
#[derive(Drop)]
pub struct Show {
    /// The name of the namespace's subsystem.
    pub subsystem: Nqn,
    /// The identifier of a namespace of it that is there.
    pub nsid: u32,
    /// The name of a host that is live.
    pub host: Nqn,
}

impl Show {
    fn is_of(&self, subsystem: &[u8], nsid: u64) -> bool
        ensures { result ≡ is_show_of subsystem.now nsid self.now }
    {
        u64::from(self.nsid) == nsid && self.subsystem.is(subsystem)
    }

    fn is_to(&self, subsystem: &[u8], nsid: u64, host: &[u8]) -> bool
        ensures { result ≡ is_show_to subsystem.now nsid host.now self.now }
    {
        self.is_of(subsystem, nsid) && self.host.is(host)
    }
}

impl Clone for Show {
    ghost is_clone = { λ show copy. copy ≡ show };

    fn clone(&self) -> Result<Show, AllocError> {
        Ok(Show {
            subsystem: self.subsystem.try_clone()?,
            nsid: self.nsid,
            host: self.host.try_clone()?,
        })
    }
}

impl Visibility {
    /// Whether each host sees the namespace, whatever shows there are.
    pub fn is_for_all(self) -> bool
        ensures { result ≡ is_for_all self }
    {
        self == Visibility::All
    }
}

/// Whether the host of that name is shown the namespace of that subsystem and that identifier.
pub fn has_show(shows: &[Show], subsystem: &[u8], nsid: u64, host: &[u8]) -> bool
    ensures { result ≡ has_show shows.now subsystem.now nsid host.now }
{
    shows.iter().any(|show| show.is_to(subsystem, nsid, host))
}

/// Whether the host of that name is shown a namespace.
pub fn is_host_shown(shows: &[Show], host: &Nqn) -> bool
    ensures { result ≡ list_any (λ s. bytes_eq s.host host.now) shows.now }
{
    shows.iter().any(|show| show.host == *host)
}

/// Whether the host of that name is shown a namespace of that subsystem.
pub fn is_shown_of(shows: &[Show], subsystem: &[u8], host: &[u8]) -> bool
    ensures { result ≡ is_shown_of shows.now subsystem.now host.now }
{
    shows
        .iter()
        .any(|show| show.host.is(host) && show.subsystem.is(subsystem))
}

/// Takes the show of that namespace to that host away.
pub fn remove_show(shows: &mut Vec<Show>, subsystem: &Nqn, nsid: u64, host: &Nqn)
    ensures { shows.new.items ≡ without (is_show_to subsystem.now nsid host.now) shows.old.items }
{
    shows.retain(|show| !show.is_to(subsystem.as_bytes(), nsid, host.as_bytes()));
}

/// Takes the shows of that namespace to all hosts away.
pub fn remove_shows(shows: &mut Vec<Show>, subsystem: &Nqn, nsid: u64)
    ensures { shows.new.items ≡ without (is_show_of subsystem.now nsid) shows.old.items }
{
    shows.retain(|show| !show.is_of(subsystem.as_bytes(), nsid));
}

/// Whether the host of that name sees a namespace: each host does, or one of the shows names both.
pub fn is_seen(shows: &[Show], host: &[u8], namespace: &Namespace) -> bool
    ensures { result ≡ is_seen shows.now host.now namespace.now }
{
    namespace.visibility.is_for_all()
        || has_show(
            shows,
            namespace.subsystem.as_bytes(),
            u64::from(namespace.nsid),
            host,
        )
}

/// The namespace of that subsystem and that identifier, if it is there and the host of that name sees
/// it. Shows are looked through only where the namespace is one that named hosts see.
pub fn find_seen<'a>(
    namespaces: &'a [Namespace],
    shows: &[Show],
    host: &[u8],
    subsystem: &[u8],
    nsid: u64,
) -> Option<&'a Namespace>
    ensures { option_copied result
        ≡ find (is_named subsystem.now nsid) (filter (is_seen shows.now host.now) namespaces.now) }
{
    first_seen(namespaces, shows, host, subsystem, nsid)
}

// The first that has the name and that the host sees.
fn first_seen<'a>(
    namespaces: &'a [Namespace],
    shows: &[Show],
    host: &[u8],
    subsystem: &[u8],
    nsid: u64,
) -> Option<&'a Namespace>
    ensures { option_copied result ≡ find
        (λ n. is_named subsystem.now nsid n && is_seen shows.now host.now n) namespaces.now }
{
    namespaces
        .iter()
        .find(|n| n.has_name(subsystem, nsid) && is_seen(shows, host, n))
}
