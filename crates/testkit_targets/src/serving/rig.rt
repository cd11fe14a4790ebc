//! A target, and ports in memory that go through a script.
use crate::serving::script::{Step, port_steps};
use block_store::MemoryDisk;
use edit_lines::configure;
use nvt_ports::MemoryPorts;
use nvt_serve::{Served, serve};
use std::alloc::{AllocError, Global};
use target_core::Target;

// What the target is configured by: port 1.
const PORT_1: &[u8] = b"port add 1 ipv4 127.0.0.1 4420\n";

/// A target with port 1, and ports that go through a script.
#[derive(Drop)]
pub struct Rig {
    ports: MemoryPorts,
    target: Target<MemoryDisk>,
}

impl Rig {
    /// Ports that go through these steps, and a target that was not served yet.
    pub(crate) fn new(alloc: Global, steps: &[Step<'_>]) -> Result<Rig, AllocError> {
        let ports = MemoryPorts::new(alloc, port_steps(alloc, steps)?)?;
        match configure(alloc, PORT_1, &[8]) {
            Ok(target) => Ok(Rig { ports, target }),
            Err(_) => {
                // What is dropped at the end of a scope is proved there field by field.
                drop(ports);
                Err(AllocError)
            }
        }
    }

    /// Serves the target for so many turns.
    pub fn serve(&mut self, turns: u64) -> Served {
        serve(&mut self.ports, &mut self.target, turns)
    }

    /// All that was given in a slot.
    pub fn got(&self, slot: usize) -> &[u8] {
        self.ports.got(slot)
    }

    /// The replies to lines, in their order.
    pub fn replies(&self) -> &[Vec<u8>] {
        self.ports.replies()
    }

    /// Whether there was memory for all that the ports keep of lines.
    pub fn tells(&self) -> bool {
        self.ports.tells()
    }

    /// Makes the `n`th call of `give` from here on fail.
    pub fn fail_give(&mut self, n: u64) {
        self.ports.fail_give(n);
    }

    /// Opens a connection on port 1 that has no slot; whether it is this one.
    pub fn opens(&mut self, k: usize) -> bool {
        self.target.open(1) == Ok(k)
    }

    /// Whether a connection receives all of these bytes, which the ports do not hand out.
    pub fn receives(&mut self, k: usize, bytes: &[u8]) -> bool {
        self.target.receive(k, bytes) == Ok(bytes.len())
    }

    /// How many bytes a connection may receive; none where it is ended or not known.
    pub fn room(&self, k: usize) -> usize {
        self.target.room(k)
    }

    /// Whether a connection is ended and not given up.
    pub fn is_ended(&self, k: usize) -> bool {
        self.target.ended(k)
    }

    /// Takes away all that a connection has to send; whether it is anything.
    pub fn empties(&mut self, k: usize) -> bool {
        let len = self.target.output(k).len();
        self.target.taken(k, len);
        len > 0
    }
}

/// What some turns are to count.
pub fn counted(turns: u64, opened: u64, edits: u64, refused: u64) -> Served {
    Served {
        turns,
        opened,
        edits,
        refused,
        memory: 0,
    }
}
