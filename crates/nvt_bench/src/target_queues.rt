//! The work of a benchmark: I/O commands on a target over a disk in memory, one after the other on one
//! queue, bare copies of as many bytes, hosts that read what they are told of edits, and a target at the
//! limits of its configuration. It takes no time itself.

mod capsules;
mod copying;
mod hosts;
mod limits;
mod work;

pub use copying::copies;
pub use hosts::{Hosts, Page};
pub use limits::Limits;
pub use work::{Work, runs};
