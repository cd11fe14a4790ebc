//! What a host is owed, by a target that is served over ports in memory for this host alone.
use block_store::MemoryDisk;
use edit_lines::configure;
use nvt_ports::{MemoryPorts, PortStep};
use nvt_serve::serve;
use std::alloc::{AllocError, Global};
use target_core::Target;

/// What each target is configured by: a port, and an open subsystem with a namespace.
pub const EDITS: &[u8] = b"port add 1 ipv4 127.0.0.1 4420
subsys add nqn.2026-01.test:a SN-A open
ns add nqn.2026-01.test:a 1 0 512 512 0b5cfe8e-55b0-4f1c-9a3e-2f1d4a6b7c80 1
link add 1 nqn.2026-01.test:a
";

/// The units of its disk.
pub const UNITS: &[u64] = &[512];

fn steps(alloc: Global, sends: &[u8]) -> Result<Vec<PortStep>, AllocError> {
    let mut steps = Vec::with_capacity(alloc, 2)?;
    steps.push(PortStep::Open { slot: 0, port: 1 })?;
    steps.push(PortStep::Bytes {
        slot: 0,
        bytes: Vec::from_slice(alloc, sends)?,
    })?;
    Ok(steps)
}

fn got(
    alloc: Global,
    sends: &[u8],
    turns: u64,
    target: &mut Target<MemoryDisk>,
) -> Result<Vec<u8>, AllocError> {
    let mut ports = MemoryPorts::new(alloc, steps(alloc, sends)?)?;
    serve(&mut ports, target, turns);
    Vec::from_slice(alloc, ports.got(0))
}

/// All that a host is owed that sends an opening and so many commands.
pub fn owed_for(alloc: Global, sends: &[u8], commands: u64) -> Result<Vec<u8>, AllocError> {
    match configure(alloc, EDITS, UNITS) {
        Ok(mut target) => {
            let turns = commands.saturating_mul(4).saturating_add(20);
            let owed = got(alloc, sends, turns, &mut target);
            drop(target);
            owed
        }
        Err(_) => Err(AllocError),
    }
}
