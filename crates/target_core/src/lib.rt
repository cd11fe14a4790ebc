//! The state machine of an NVMe over TCP target: bytes and edits come in by calls, and the PDUs
//! that it owes go out by `output` and `taken`. Nothing in it waits, reads a clock or a socket: the
//! caller hands in the time by `tick`. It serves discovery and I/O controllers on up to 64
//! connections, with edits between their PDUs. `Marks` say which connections are known, for who walks over them.
//!
//! A caller with a connection's bytes does this:
//!
//! ```text
//! let k = target.open(port)?;
//! while !target.ended(k) {
//!     let piece = ..;                     // at most `target.room(k)` bytes that the host sent
//!     target.receive(k, piece)?;
//!     while target.step(k)? != Stepped::Idle {}
//!     let sent = send(target.output(k));  // how many of these bytes went out
//!     target.taken(k, sent);
//! }
//! target.end(k);
//! ```
#![tactic(auto)]

mod connection;
mod disks;
mod fault;
pub mod marks;
mod settle;
mod target;

pub use fault::{NoConn, OpenFault, StepFault, Stepped};
pub use marks::Marks;
pub use target::Target;
pub use target_decision::CONNECTIONS_MAX;
