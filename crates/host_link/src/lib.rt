//! A host's conversation with a controller over a link: it connects a queue, sends one command at a time and
//! waits for its answer, by turns. A link moves bytes; nothing here knows a socket.
#![tactic(auto)]

pub mod blocks;
pub mod commands;
pub mod fault;
pub mod laws;
pub mod link;
mod piece;
pub mod session;

pub use blocks::Blocks;
pub use fault::SessionFault;
pub use link::{Link, LinkFault};
pub use session::LinkSession;
