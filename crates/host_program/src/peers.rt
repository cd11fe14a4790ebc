//! Who talks to whom, and what a queue is opened with.
ghost use Rattle.std.specs.Prelude.{◌≡◌, ◌≤◌, IfOk};
ghost use Rattle.host_program.specs.Peers.{admin_queue, io_queue, queue};

use host_driver::HostParams;
use nvt_fields::{DISCOVERY_NQN, Nqn};
use std::alloc::{AllocError, Global};

/// The identifier of an admin queue's controller: any (NVMe over Fabrics 1.1, section 3.3).
const ANY_CONTROLLER: u16 = 0xFFFF;

/// How many commands may be outstanding at a time.
const SQSIZE: u16 = 31;

/// The most data of a command that go in its capsule, in bytes.
pub(crate) const IN_CAPSULE: u32 = 8192;

const HOSTID: [u8; 16] = [1; 16];

/// The names of a subsystem, and of the host that asks for its controller.
#[derive(Debug, Drop)]
pub struct Peers {
    pub subsystem: Nqn,
    pub host: Nqn,
}

impl Peers {
    /// The discovery subsystem, and a host.
    pub(crate) fn of_discovery(alloc: Global, host: &Nqn) -> Result<Peers, AllocError>
        ensures { IfOk result (λ peers. (peers.subsystem ≡ DISCOVERY_NQN.now) × (peers.host ≡ host.now)) }
    {
        let Ok(subsystem) = Nqn::read(alloc, DISCOVERY_NQN) else {
            return Err(AllocError);
        };
        Ok(Peers {
            subsystem,
            host: host.try_clone()?,
        })
    }

    /// What the admin queue of a new controller is opened with.
    pub(crate) fn admin_queue(&self) -> Result<HostParams, AllocError>
        ensures { IfOk result (λ params. params ≡ admin_queue self.now) }
    {
        self.queue(0, ANY_CONTROLLER, IN_CAPSULE)
    }

    /// What an I/O queue of a controller is opened with, where at most so many bytes of data go in a capsule.
    pub(crate) fn io_queue(&self, cntlid: u16, in_capsule: u32) -> Result<HostParams, AllocError>
        ensures { IfOk result (λ params. params ≡ io_queue self.now cntlid in_capsule) }
    {
        self.queue(1, cntlid, in_capsule)
    }

    fn queue(&self, qid: u16, cntlid: u16, in_capsule: u32) -> Result<HostParams, AllocError>
        ensures { IfOk result (λ params. params ≡ queue self.now qid cntlid in_capsule) }
    {
        Ok(HostParams {
            qid,
            sqsize: SQSIZE,
            cntlid,
            kato: 0,
            hostid: HOSTID,
            subnqn: self.subsystem.try_clone()?,
            hostnqn: self.host.try_clone()?,
            in_capsule,
        })
    }
}
