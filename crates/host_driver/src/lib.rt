//! One queue of an NVMe over TCP host: it connects, sends commands and their data, and gives their answers.
//! It does no IO: bytes that came are handed to `receive`, what is to be sent is lent by `output`, and
//! `step` takes what came, PDU by PDU (NVMe TCP Transport 1.0, section 3). `decide` says what a PDU that came comes to,
//! as a value; what is sent is written into room that was made before, so that nothing fails half-way. What a host
//! reads by it, log pages and lists, is named here too.
#![tactic(auto)]

mod act;
mod answer;
mod capsule;
mod command;
mod connect;
mod data;
pub mod decision;
mod fault;
pub mod history_laws;
mod initialize;
mod output;
pub mod outstanding;
mod params;
pub mod pdu;
mod pending;
pub mod phase;
mod queue;
mod reply;
mod requested;
mod session;
mod state;
pub mod wire_laws;

pub use answer::{Answer, HostStep};
pub use capsule::{capsule_room, write_capsule};
pub use command::{Data, HostCommand};
pub use connect::{CONNECT_ROOM, write_connect};
pub use decision::{CommandCompletion, HostDecision, HostTermination};
pub use fault::HostFault;
pub use host_pages::{
    AnaLog, BadPage, Discover, DiscoverFault, DiscoveryPage, GetLog, NsList, Progress,
};
pub use outstanding::Outstanding;
pub use params::HostParams;
pub use pdu::{cid_named, decide};
pub use phase::{Phase, TransportLimits};
pub use queue::HostQueue;
pub use requested::{requested_room, write_requested};
