//! A subsystem: what hosts connect to.
ghost use Rattle.std.specs.Prelude.{◌≡◌, ◌&&◌};
ghost use Rattle.std.specs.List.{list_any};
ghost use Rattle.std.specs.Str.{bytes_eq};
ghost use Rattle.config_lists.specs.declared.subsystem.Subsystem.{Subsystem};
ghost use Rattle.config_lists.specs.Lists.{changed_where, without};
ghost use Rattle.config_lists.specs.Subsystem.{is_discovery, is_open, is_serial};

use crate::text::Text;
use nvt_fields::{DISCOVERY_NQN, Nqn};
use std::alloc::AllocError;

const SERIAL_MAX: usize = 20;

/// Who may use a subsystem.
#[derive(Clone, Copy, PartialEq, Eq)]
pub enum Access {
    /// Each host.
    Open,
    /// The hosts that it allows.
    Closed,
}

impl Access {
    /// Whether each host may use it.
    pub fn is_open(self) -> bool
        ensures { result ≡ is_open self }
    {
        match self {
            Access::Open => true,
            Access::Closed => false,
        }
    }
}

/// What hosts connect to.
#[derive(Drop)]
pub struct Subsystem {
    /// Not the discovery subsystem's name; no two subsystems of a configuration have the same.
    pub nqn: Nqn,
    /// 1 to 20 bytes, each from 21h to 7Eh.
    pub serial: Text,
    pub access: Access,
}

impl Clone for Subsystem {
    ghost is_clone = { λ subsystem copy. copy ≡ subsystem };

    fn clone(&self) -> Result<Subsystem, AllocError> {
        Ok(Subsystem {
            nqn: self.nqn.try_clone()?,
            serial: self.serial.clone()?,
            access: self.access,
        })
    }
}

/// Whether it is the discovery subsystem's name.
pub fn is_discovery(nqn: &Nqn) -> bool
    ensures { result ≡ is_discovery nqn.now }
{
    nqn.as_bytes() == DISCOVERY_NQN.as_slice()
}

/// Whether a subsystem may have this serial number: 1 to 20 bytes, each from 21h to 7Eh.
pub fn is_serial(text: &Text) -> bool
    ensures { result ≡ is_serial text.now }
{
    text.is_word(SERIAL_MAX)
}

/// Whether a subsystem of that name is there.
pub fn has_subsystem(subsystems: &[Subsystem], nqn: &Nqn) -> bool
    ensures { result ≡ list_any (λ subsystem. bytes_eq subsystem.nqn nqn.now) subsystems.now }
{
    subsystems.iter().any(|subsystem| subsystem.nqn == *nqn)
}

/// Whether a subsystem of that name is there, and each host may use it.
pub fn has_open_subsystem(subsystems: &[Subsystem], nqn: &[u8]) -> bool
    ensures { result ≡ list_any
        (λ s. bytes_eq s.nqn nqn.now && is_open s.access) subsystems.now }
{
    subsystems.iter().any(|subsystem| subsystem.nqn.is(nqn) && subsystem.access.is_open())
}

/// Gives the subsystem of that name this access.
pub fn set_access(subsystems: &mut [Subsystem], nqn: &Nqn, access: Access)
    ensures { let set : Subsystem → Subsystem = λ s. record s { access = access } in
        subsystems.new ≡ changed_where (λ s. bytes_eq s.nqn nqn.now) set subsystems.old }
{
    for subsystem in subsystems.iter_mut() {
        if subsystem.nqn == *nqn {
            subsystem.access = access;
        }
    }
}

/// Takes the subsystem of that name away.
pub fn remove_subsystem(subsystems: &mut Vec<Subsystem>, nqn: &Nqn)
    ensures { subsystems.new.items
        ≡ without (λ s. bytes_eq s.nqn nqn.now) subsystems.old.items }
{
    subsystems.retain(|subsystem| subsystem.nqn != *nqn);
}
