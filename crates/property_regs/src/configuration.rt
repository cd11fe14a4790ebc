//! The fields of Controller Configuration, CC (Base 2.0, section 3.1.3.5).
ghost use Rattle.std.specs.Prelude.{◌≡◌};
ghost use Rattle.property_regs.specs.Configuration.{asks_shutdown, enabling_by};
ghost use Rattle.property_regs.specs.Configuration.{has_standard_entry_sizes, is_enabled};

use crate::kind::ControllerKind;
use crate::status::Enabling;

/// The size of a submission queue entry on I/O queues, 64 bytes, as a power of two.
const SQ_ENTRY_SIZE: u32 = 6;

/// The size of a completion queue entry on I/O queues, 16 bytes, as a power of two.
const CQ_ENTRY_SIZE: u32 = 4;

// CC.EN, bit 0.
pub(crate) fn is_enabled(cc: u32) -> bool
    ensures { result ≡ is_enabled cc }
{
    cc % 2 == 1
}

// CC.SHN, bits 15:14: whether a shutdown is asked for, normal or abrupt.
pub(crate) fn asks_shutdown(cc: u32) -> bool
    ensures { result ≡ asks_shutdown cc }
{
    cc / 0x4000 % 4 != 0
}

// CC.IOSQES, bits 19:16, and CC.IOCQES, bits 23:20: whether they are the sizes that the NVM command
// set wants.
fn has_standard_entry_sizes(cc: u32) -> bool
    ensures { result ≡ has_standard_entry_sizes cc }
{
    cc / 0x1_0000 % 16 == SQ_ENTRY_SIZE && cc / 0x10_0000 % 16 == CQ_ENTRY_SIZE
}

// What becomes of a controller that is enabled by this configuration. A discovery controller has no
// I/O queues, so that it looks at no size of their entries.
pub(crate) fn enabling_by(kind: ControllerKind, cc: u32) -> Enabling
    ensures { result ≡ enabling_by kind cc }
{
    match kind {
        ControllerKind::Discovery => Enabling::Ready,
        ControllerKind::Io if has_standard_entry_sizes(cc) => Enabling::Ready,
        ControllerKind::Io => Enabling::Failed,
    }
}
