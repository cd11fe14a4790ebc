//! A target that is served over a scripted network.
use crate::network::{CONTROL, ScriptedNetwork};
use crate::owed::{EDITS, UNITS};
use block_store::MemoryDisk;
use edit_lines::configure;
use nvt_serve::serve;
use nvt_sockets::{Log, SocketPorts};
use std::alloc::Global;
use target_core::Target;
use testkit_tables::{Outcome, check};

/// What is to hold of a network that a target was served over.
pub trait Wish {
    fn holds(&self, network: &ScriptedNetwork<'_>) -> Outcome;
}

fn serve_over<W: Wish>(
    alloc: Global,
    network: ScriptedNetwork<'_>,
    target: &mut Target<MemoryDisk>,
    turns: u64,
    wish: &W,
) -> Outcome {
    match SocketPorts::open(network, alloc, CONTROL, target.config(), Log::Printed) {
        Ok(mut ports) => {
            serve(&mut ports, target, turns);
            let outcome = wish.holds(ports.network());
            drop(ports);
            outcome
        }
        Err(_) => check(false, "memory for ports"),
    }
}

/// Serves a target over a network for so many turns, and lends the network to a wish: all is as it has to be.
pub fn holds_over<W: Wish>(
    alloc: Global,
    network: ScriptedNetwork<'_>,
    turns: u64,
    wish: &W,
) -> Outcome {
    holds_over_edits(alloc, network, EDITS, turns, wish)
}

/// The same of a target that these edits configure.
// A target is owned here alone, since each way out of a function is proved with all that is owned there.
pub fn holds_over_edits<W: Wish>(
    alloc: Global,
    network: ScriptedNetwork<'_>,
    edits: &[u8],
    turns: u64,
    wish: &W,
) -> Outcome {
    match configure(alloc, edits, UNITS) {
        Ok(mut target) => {
            let outcome = serve_over(alloc, network, &mut target, turns, wish);
            drop(target);
            outcome
        }
        Err(_) => {
            drop(network);
            check(false, "memory for a target")
        }
    }
}
