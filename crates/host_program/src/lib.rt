//! The commands of a host's program, over links: what each asks a controller for, and what it prints of the answers.
//! It reads no command line and opens no socket.
#![tactic(auto)]

mod access;
mod asked;
mod awaited_line;
mod changes;
mod discovery;
mod fault;
mod identified;
mod lines;
mod links;
mod namespaces;
mod opened;
mod peers;
mod printed;
mod reading;
mod writing;

pub use access::ana;
pub use changes::changed;
pub use discovery::discover;
pub use fault::CommandFault;
pub use host_link::{Blocks, SessionFault};
pub use links::HostLinks;
pub use namespaces::list;
pub use peers::Peers;
pub use reading::read;
pub use writing::{Fill, write, write_held};
