//! The Identify Controller data structure (Base 2.0, section 5.17.2.1).
ghost use Rattle.std.specs.Prelude.{◌≡◌, ◌≤◌, length};
ghost use Rattle.identify_data.specs.Controller.{TextsFit, controller_data, controller_of};
ghost use Rattle.identify_data.specs.Controller.{by_kind, cntlid_of, serial_of, subnqn_of};
ghost use Rattle.identify_data.specs.Controller.{admin_attributes, capabilities};
ghost use Rattle.identify_data.specs.Controller.{fabrics_attributes, nvm_attributes};
ghost use Rattle.identify_data.specs.Fields.{with_fields};

use crate::fields::{clear, put_byte, put_dword, put_spaced, put_word, put_zeroed};
use config_lists::namespace::NSID_MAX;
use nvt_fields::DISCOVERY_NQN;

const MODEL: &[u8; 15] = b"NVMe TCP Target";

const FIRMWARE: &[u8; 3] = b"1.0";

const DISCOVERY_SERIAL: &[u8; 9] = b"DISCOVERY";

/// What tells one controller from another.
#[derive(Clone, Copy)]
pub enum ControllerIdentity<'a> {
    /// A controller of a subsystem with namespaces.
    Io {
        cntlid: u16,
        /// The subsystem's serial number, of at most 20 bytes.
        serial: &'a [u8],
        /// The subsystem's name, of at most 256 bytes.
        subnqn: &'a [u8],
    },
    /// A controller of the discovery subsystem.
    Discovery {
        cntlid: u16,
    },
}

impl<'a> ControllerIdentity<'a> {
    fn cntlid(&self) -> u16
        ensures { result ≡ cntlid_of (controller_of self.now) }
    {
        match *self {
            ControllerIdentity::Io { cntlid, .. } | ControllerIdentity::Discovery { cntlid } => {
                cntlid
            }
        }
    }

    fn serial(&self) -> &'a [u8]
        requires { TextsFit (controller_of self.now) }
        ensures value { result.now ≡ serial_of (controller_of self.now) }
        ensures bound { length result.now ≤ 20 }
    {
        match *self {
            ControllerIdentity::Io { serial, .. } => serial,
            ControllerIdentity::Discovery { .. } => DISCOVERY_SERIAL.as_slice(),
        }
    }

    fn subnqn(&self) -> &'a [u8]
        requires { TextsFit (controller_of self.now) }
        ensures value { result.now ≡ subnqn_of (controller_of self.now) }
        ensures bound { length result.now ≤ 256 }
    {
        match *self {
            ControllerIdentity::Io { subnqn, .. } => subnqn,
            ControllerIdentity::Discovery { .. } => DISCOVERY_NQN.as_slice(),
        }
    }

    // The first value on an I/O controller, and the second on a discovery controller.
    fn by_kind<T: Copy>(&self, io: T, discovery: T) -> T
        ensures { result ≡ by_kind (controller_of self.now) io discovery }
    {
        match *self {
            ControllerIdentity::Io { .. } => io,
            ControllerIdentity::Discovery { .. } => discovery,
        }
    }
}

/// Writes the Identify Controller data structure, of 4,096 bytes, whatever stood there.
pub fn controller(identity: &ControllerIdentity<'_>, out: &mut [u8])
    requires texts { TextsFit (controller_of identity.now) }
    requires len { length out.old ≡ 4096 }
    ensures { out.new ≡ controller_data (controller_of identity.now) }
{
    clear(out);
    put_capabilities(identity, out);
    put_admin_attributes(identity, out);
    put_nvm_attributes(identity, out);
    put_fabrics_attributes(identity, out);
}

// Controller Capabilities and Features.
fn put_capabilities(identity: &ControllerIdentity<'_>, out: &mut [u8])
    requires texts { TextsFit (controller_of identity.now) }
    requires len { length out.old ≡ 4096 }
    ensures { out.new ≡ with_fields (capabilities (controller_of identity.now)) out.old }
{
    put_spaced(out, 4, 20, identity.serial()); // SN
    put_spaced(out, 24, 40, MODEL); // MN
    put_spaced(out, 64, 8, FIRMWARE); // FR
    put_byte(out, 76, identity.by_kind(0x0B, 0)); // CMIC
    put_byte(out, 77, 5); // MDTS
    put_word(out, 78, identity.cntlid()); // CNTLID
    put_dword(out, 80, 0x0002_0000); // VER
    put_dword(out, 92, identity.by_kind(0x0000_0900, 0x8000_0000)); // OAES
    put_dword(out, 96, 1); // CTRATT
    put_byte(out, 111, identity.by_kind(1, 2)); // CNTRLTYPE
}

// Admin Command Set Attributes and Optional Controller Capabilities.
fn put_admin_attributes(identity: &ControllerIdentity<'_>, out: &mut [u8])
    requires { length out.old ≡ 4096 }
    ensures { out.new ≡ with_fields (admin_attributes (controller_of identity.now)) out.old }
{
    put_byte(out, 259, 3); // AERL
    put_byte(out, 261, 0x04); // LPA
    put_word(out, 320, 10); // KAS
    put_byte(out, 342, identity.by_kind(10, 0)); // ANATT
    put_byte(out, 343, identity.by_kind(0x1F, 0)); // ANACAP
    put_dword(out, 344, identity.by_kind(32, 0)); // ANAGRPMAX
    put_dword(out, 348, identity.by_kind(32, 0)); // NANAGRPID
}

// NVM Command Set Attributes.
fn put_nvm_attributes(identity: &ControllerIdentity<'_>, out: &mut [u8])
    requires texts { TextsFit (controller_of identity.now) }
    requires len { length out.old ≡ 4096 }
    ensures { out.new ≡ with_fields (nvm_attributes (controller_of identity.now)) out.old }
{
    put_byte(out, 512, identity.by_kind(0x66, 0)); // SQES
    put_byte(out, 513, identity.by_kind(0x44, 0)); // CQES
    put_word(out, 514, 64); // MAXCMD
    put_dword(out, 516, identity.by_kind(NSID_MAX, 0)); // NN
    put_word(out, 520, identity.by_kind(0x0009, 0)); // ONCS
    put_byte(out, 525, identity.by_kind(0x05, 0)); // VWC
    put_dword(out, 536, 0x0030_0001); // SGLS
    put_dword(out, 540, identity.by_kind(NSID_MAX, 0)); // MNAN
    put_zeroed(out, 768, 256, identity.subnqn()); // SUBNQN
}

// Fabrics Specific.
fn put_fabrics_attributes(identity: &ControllerIdentity<'_>, out: &mut [u8])
    requires { length out.old ≡ 4096 }
    ensures { out.new ≡ with_fields (fabrics_attributes (controller_of identity.now)) out.old }
{
    put_dword(out, 1792, identity.by_kind(516, 0)); // IOCCSZ
    put_dword(out, 1796, identity.by_kind(1, 0)); // IORCSZ
    put_byte(out, 1803, 1); // MSDBD
}
