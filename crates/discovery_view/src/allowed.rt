//! The subsystems that allow a host.
ghost use Rattle.std.specs.Prelude.{◌≡◌, ℕ, IfOk, List};
ghost use Rattle.config_lists.specs.Lists.{without};
ghost use Rattle.nvt_config.specs.Configuration.{has_allow};
ghost use Rattle.discovery_view.specs.Allowed.{allows_after, host_of, is_allow_of, is_named};

use nvt_config::Config;
use nvt_fields::Nqn;
use std::alloc::{AllocError, Global};

/// What an edit changes of whom a subsystem allows.
#[derive(Clone, Copy)]
pub(crate) enum Allowance<'e> {
    /// The subsystem comes to allow the host.
    Given { subsystem: &'e Nqn, host: &'e Nqn },
    /// It no longer does.
    Taken { subsystem: &'e Nqn, host: &'e Nqn },
}

impl<'e> Allowance<'e> {
    /// The name of the host.
    pub(crate) fn host(self) -> &'e [u8]
        ensures { result.now ≡ host_of self.entry }
    {
        match self {
            Allowance::Given { host, .. } | Allowance::Taken { host, .. } => host.as_bytes(),
        }
    }
}

/// The names of the subsystems that allow a host. They are looked up once: they are few, and the allows are
/// many.
pub(crate) fn allowed<'a>(
    alloc: Global,
    config: &'a Config,
    host: &[u8],
) -> Result<Vec<&'a [u8]>, AllocError>
    ensures { IfOk result (λ names. (nqn : List ℕ) → is_named names.items nqn
        ≡ has_allow config.now.allows nqn host.now) }
{
    let mut names = Vec::new(alloc);
    for allow in config.allows() {
        if allow.host.is(host) {
            names.push(allow.subsystem.as_bytes())?;
        }
    }
    Ok(names)
}

/// The names of those that allow the host of an edit once that is made.
pub(crate) fn allowed_after<'a>(
    alloc: Global,
    config: &'a Config,
    allowance: Allowance<'a>,
) -> Result<Vec<&'a [u8]>, AllocError>
    ensures { IfOk result (λ names. (nqn : List ℕ) → is_named names.items nqn
        ≡ has_allow (allows_after config.now.allows allowance.entry) nqn (host_of allowance.entry)) }
{
    match allowance {
        Allowance::Given { subsystem, host } => {
            let mut names = allowed(alloc, config, host.as_bytes())?;
            names.push(subsystem.as_bytes())?;
            Ok(names)
        }
        Allowance::Taken { subsystem, host } => allowed_but(alloc, config, subsystem, host),
    }
}

// The names of those that allow a host, without one.
fn allowed_but<'a>(
    alloc: Global,
    config: &'a Config,
    subsystem: &Nqn,
    host: &Nqn,
) -> Result<Vec<&'a [u8]>, AllocError>
    ensures { IfOk result (λ names. (nqn : List ℕ) → is_named names.items nqn
        ≡ has_allow (without (is_allow_of subsystem.now host.now) config.now.allows) nqn host.now) }
{
    let mut names = Vec::new(alloc);
    for allow in config.allows() {
        if allow.host == *host && allow.subsystem != *subsystem {
            names.push(allow.subsystem.as_bytes())?;
        }
    }
    Ok(names)
}

/// Whether a name is among these.
pub(crate) fn is_among(names: &[&[u8]], name: &[u8]) -> bool
    ensures { result ≡ is_named names.now name.now }
{
    names.iter().any(|n| *n == name)
}
