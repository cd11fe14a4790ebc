//! The properties of one controller, and how they change.
ghost use Rattle.std.specs.Prelude.{◌≡◌};
ghost use Rattle.property_regs.specs.Regs.{configuration_set};

use crate::configuration::{asks_shutdown, enabling_by, is_enabled};
use crate::kind::ControllerKind;
use crate::size::PropertySize;
use crate::status::{Enabling, ShutdownStatus};
use thiserror::Error;

// The offsets of the properties, in bytes.
const CAP_AT: u32 = 0x00;

const VS_AT: u32 = 0x08;

const CC_AT: u32 = 0x14;

const CSTS_AT: u32 = 0x1C;

const CRTO_AT: u32 = 0x68;

/// Controller Capabilities: 64 queue entries at most, contiguous queues, a timeout of 1 s, the NVM
/// command set, and a memory page size of 4,096 bytes.
const CAP: u64 = 0x0800_0020_0201_003F;

/// Version 2.0.
const VS: u64 = 0x0002_0000;

/// Controller Ready Timeouts: 1 s, in units of 500 ms.
const CRTO: u64 = 0x0000_0002;

/// A Property Get or Set names no property that it could get or set, or one by another size than
/// its own.
#[derive(Clone, Copy, Debug, PartialEq, Eq, Error)]
#[error("invalid field")]
pub struct InvalidField;

/// What a Set of Controller Configuration did to the controller: the first of these that fits.
#[derive(Clone, Copy, Debug, PartialEq, Eq)]
pub enum Change {
    /// EN fell from 1 to 0.
    Reset,
    /// RDY rose from 0 to 1. Where the same Set asked for a shutdown, SHST became 2 too, and the
    /// controller is not ready.
    Enable,
    /// SHST became 2: it is 2 after the Set, and was not before. So a Set that enables a controller
    /// in vain (CFS 1) and shuts it down, where it was shut down before, is `Stay`.
    Shutdown,
    /// None of these.
    Stay,
}

/// The properties of a controller, of which Controller Configuration and Controller Status change.
#[derive(Clone, Copy, Debug, PartialEq, Eq)]
pub struct Regs {
    kind: ControllerKind,
    /// Controller Configuration as it was last set.
    cc: u32,
    /// CSTS.RDY and CSTS.CFS.
    enabling: Enabling,
    /// CSTS.SHST.
    shutdown: ShutdownStatus,
}

impl Regs {
    ghost use Rattle.property_regs.specs.Regs.{change_by, configured, controller_status, is_ready};
    ghost use Rattle.property_regs.specs.Regs.{property_at, property_get, property_set};
    ghost use Rattle.property_regs.specs.Regs.{regs_after, regs_at_connect};

    /// The properties of a controller that a Connect has just made: neither enabled nor shut down.
    pub fn new(kind: ControllerKind) -> Regs
        ensures { result ≡ regs_at_connect kind }
    {
        Regs {
            kind,
            cc: 0,
            enabling: Enabling::Disabled,
            shutdown: ShutdownStatus::Normal,
        }
    }

    /// Whether the controller processes commands: CSTS.RDY is 1, and CSTS.CFS and CSTS.SHST are 0.
    pub fn ready(&self) -> bool
        ensures { result ≡ is_ready self.now }
    {
        self.enabling == Enabling::Ready && self.shutdown == ShutdownStatus::Normal
    }

    /// Property Get (Base 2.0, section 6.5): the value of the property at an offset in bytes. Fails
    /// where there is none, or bits 2:0 of the attributes do not name its own size.
    pub fn get(&self, offset: u32, attrib: u8) -> Result<u64, InvalidField>
        ensures { result ≡ property_get self.now offset attrib }
    {
        match self.at(offset) {
            Some((size, value)) if size.is_named_by(attrib) => Ok(value),
            _ => Err(InvalidField),
        }
    }

    /// Property Set (Base 2.0, section 6.6): sets Controller Configuration, the only property that
    /// can be set, to the low 32 bits of the value. Fails at each other offset, and where bits 2:0
    /// of the attributes do not name 4 bytes; the properties are then as they were.
    pub fn set(&mut self, offset: u32, attrib: u8, value: u64) -> Result<Change, InvalidField>
        ensures result { result ≡ property_set self.old offset attrib value }
        ensures after { self.new ≡ regs_after self.old offset attrib value }
    {
        let cc = configuration_set(offset, attrib, value)?;
        let change = self.change_by(cc);
        self.configure(cc);
        Ok(change)
    }

    /// Sets Controller Configuration to this value.
    pub fn configure(&mut self, cc: u32)
        ensures { self.new ≡ configured self.old cc }
    {
        *self = self.configured(cc);
    }

    /// What setting Controller Configuration to this value would do to the controller.
    pub fn change_by(&self, cc: u32) -> Change
        ensures { result ≡ change_by self.now cc }
    {
        let after = self.configured(cc);
        if is_enabled(self.cc) && !is_enabled(cc) {
            Change::Reset
        } else if self.enabling != Enabling::Ready && after.enabling == Enabling::Ready {
            Change::Enable
        } else if self.shutdown != after.shutdown && after.shutdown == ShutdownStatus::Complete {
            Change::Shutdown
        } else {
            Change::Stay
        }
    }

    // The property at an offset: its size and its value.
    fn at(&self, offset: u32) -> Option<(PropertySize, u64)>
        ensures { result ≡ property_at self.now offset }
    {
        match offset {
            CAP_AT => Some((PropertySize::EightBytes, CAP)),
            VS_AT => Some((PropertySize::FourBytes, VS)),
            CC_AT => Some((PropertySize::FourBytes, u64::from(self.cc))),
            CSTS_AT => Some((PropertySize::FourBytes, self.status())),
            CRTO_AT => Some((PropertySize::FourBytes, CRTO)),
            _ => None,
        }
    }

    // Controller Status: RDY in bit 0, CFS in bit 1, SHST in bits 3:2.
    fn status(&self) -> u64
        ensures { result ≡ controller_status self.now }
    {
        self.enabling.bits() + self.shutdown.bits()
    }

    // The properties once this value is set.
    fn configured(&self, cc: u32) -> Regs
        ensures { result ≡ configured self.now cc }
    {
        let (enabling, shutdown) = match (is_enabled(self.cc), is_enabled(cc)) {
            (false, true) => (enabling_by(self.kind, cc), ShutdownStatus::Normal),
            (true, false) => (Enabling::Disabled, ShutdownStatus::Normal),
            _ => (self.enabling, self.shutdown),
        };
        let shutdown = if asks_shutdown(cc) {
            ShutdownStatus::Complete
        } else {
            shutdown
        };
        Regs {
            kind: self.kind,
            cc,
            enabling,
            shutdown,
        }
    }
}

/// The value that a Property Set gives to Controller Configuration: the low 32 bits of its own. Fails
/// at each other offset, and where bits 2:0 of the attributes do not name 4 bytes.
pub fn configuration_set(offset: u32, attrib: u8, value: u64) -> Result<u32, InvalidField>
    ensures { result ≡ configuration_set offset attrib value }
{
    if offset != CC_AT || !PropertySize::FourBytes.is_named_by(attrib) {
        return Err(InvalidField);
    }
    Ok((value % 0x1_0000_0000) as u32)
}
