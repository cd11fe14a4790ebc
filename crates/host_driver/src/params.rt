//! What a queue is opened with.

use nvt_fields::Nqn;

/// What a host connects with (NVMe over Fabrics 1.1, section 3.3).
#[derive(Debug, Drop)]
pub struct HostParams {
    /// Queue identifier: 0 of an admin queue.
    pub qid: u16,
    /// How many commands may be outstanding at a time: 1 to 63.
    pub sqsize: u16,
    /// Controller identifier: FFFFh of an admin queue, for any.
    pub cntlid: u16,
    /// Keep alive timeout, in milliseconds: 0 for none.
    pub kato: u32,
    pub hostid: [u8; 16],
    /// The subsystem's name.
    pub subnqn: Nqn,
    /// The host's name.
    pub hostnqn: Nqn,
    /// The most data of a command that go in its capsule, in bytes: 0 to 8,192.
    pub in_capsule: u32,
}
