//! The open subsystems of a configuration.
ghost use Rattle.std.specs.Prelude.{◌≡◌, ℕ, IfOk, List};
ghost use Rattle.nvt_config.specs.Permission.{is_open_subsystem};
ghost use Rattle.discovery_view.specs.Allowed.{is_named};

use crate::allowed::is_among;
use nvt_config::Config;
use std::alloc::{AllocError, Global};
use std::marker::Model;

/// The subsystems that every host may use. Their names are looked up once: the records that ask for them
/// are many. A contract sees the configuration.
#[derive(Drop)]
pub(crate) struct OpenSubsystems<'a> {
    config: &'a Config,
    names: Vec<&'a [u8]>,
}

impl<'a> Model for OpenSubsystems<'a> {
    ghost use Rattle.std.specs.Prelude.{◌≡◌, ℕ, List};
    ghost use Rattle.nvt_config.specs.Configuration.{Configuration};
    ghost use Rattle.nvt_config.specs.Permission.{is_open_subsystem};
    ghost use Rattle.discovery_view.specs.Allowed.{is_named};

    ghost Value = { Configuration };

    ghost view = { λ o. o.config.now };

    ghost invariant = { λ o. (nqn : List ℕ) → is_named o.names.items nqn
        ≡ is_open_subsystem o.config.now.subsystems nqn };
}

impl<'a> OpenSubsystems<'a> {
    /// Those of a configuration.
    pub(crate) fn of(alloc: Global, config: &'a Config) -> Result<OpenSubsystems<'a>, AllocError>
        ensures { IfOk result (λ subsystems. subsystems ≡ config.now) }
    {
        Ok(OpenSubsystems {
            config,
            names: open_names(alloc, config)?,
        })
    }

    /// Whether the subsystem of that name is one of them.
    pub(crate) fn has(&self, nqn: &[u8]) -> bool
        ensures { result ≡ is_open_subsystem self.now.subsystems nqn.now }
    {
        is_among(&self.names, nqn)
    }
}

// The names of the open subsystems.
fn open_names<'a>(alloc: Global, config: &'a Config) -> Result<Vec<&'a [u8]>, AllocError>
    ensures { IfOk result (λ names. (nqn : List ℕ) → is_named names.items nqn
        ≡ is_open_subsystem config.now.subsystems nqn) }
{
    let mut names = Vec::new(alloc);
    for subsystem in config.subsystems() {
        if subsystem.access.is_open() {
            names.push(subsystem.nqn.as_bytes())?;
        }
    }
    Ok(names)
}
