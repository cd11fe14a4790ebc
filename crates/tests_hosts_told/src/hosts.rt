//! A plain program of what hosts are told on the admin queues of I/O and of discovery controllers beside one
//! another. It keeps all that happened in one list, and looks back over it for each answer: which requests
//! are completed, and every byte of a log page or of what Identify returns. Of namespaces each host is told
//! as it sees them: where it does not see one, none is there. What it expects is typed from the formats and
//! the rules of NVMe. `told` runs a target beside it; it stands on nothing of a target.

mod answers;
mod bytes;
mod hosts;
mod identify;
mod layout;
mod pages;
mod past;
mod pdus;
mod queues;

pub use hosts::Hosts;
pub use identify::{ACTIVE, DESCRIPTORS, NAMESPACE};
pub use layout::{
    Change, FIRST, Layout, Namespace, Place, QUEUES, SWEPT_END, SWEPT_FIRST, Sight, UNITS, line_of,
    place_of, swept_lines,
};
pub use pages::{ANA, CHANGED, DISCOVERY};
pub use past::Past;
pub use pdus::{Command, Read, capsule_of, connect};
pub use queues::{NOTHING_SEEN, Queue, Seen, Stage};
