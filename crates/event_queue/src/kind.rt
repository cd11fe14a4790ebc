//! The kinds of asynchronous events.
ghost use Rattle.std.specs.Prelude.{◌≡◌, ◌^◌};
ghost use Rattle.event_queue.specs.Kind.{bit_of, is_in_mask, result_of};

// The bits of Asynchronous Event Configuration (Base 2.0, section 5.27.1.8) that enable the kinds.
const NAMESPACE_BIT: u32 = 0x0000_0100;

const ANA_BIT: u32 = 0x0000_0800;

const DISCOVERY_BIT: u32 = 0x8000_0000;

/// What an event tells a host: that what a log page shows has changed.
#[derive(Clone, Copy, PartialEq, Eq)]
pub enum EventKind {
    /// Namespace Attribute Changed: the Changed Namespace List.
    Namespace,
    /// Asymmetric Namespace Access Change: the Asymmetric Namespace Access log page.
    Ana,
    /// Discovery Log Page Change: the discovery log page.
    Discovery,
}

impl EventKind {
    /// Each kind once, in the order in which pending kinds complete requests.
    pub const ALL: [EventKind; 3] = [EventKind::Namespace, EventKind::Ana, EventKind::Discovery];

    /// The result of the completion that tells it (Base 2.0, section 5.2.1): the event's type in bits
    /// 2:0, which is that of a notice, its information in bits 15:8, and in bits 23:16 the log page to
    /// read.
    pub fn result(self) -> u64
        ensures { result ≡ result_of self }
    {
        match self {
            EventKind::Namespace => 0x0004_0002,
            EventKind::Ana => 0x000C_0302,
            EventKind::Discovery => 0x0070_F002,
        }
    }

    // Its bit of Asynchronous Event Configuration.
    pub(crate) fn bit(self) -> u32
        ensures { result ≡ 2 ^ bit_of self }
    {
        match self {
            EventKind::Namespace => NAMESPACE_BIT,
            EventKind::Ana => ANA_BIT,
            EventKind::Discovery => DISCOVERY_BIT,
        }
    }

    // Whether a value of Asynchronous Event Configuration enables it.
    pub(crate) fn is_in(self, mask: u32) -> bool
        ensures { result ≡ is_in_mask mask self }
    {
        mask / self.bit() % 2 == 1
    }
}
