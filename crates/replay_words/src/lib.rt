//! Says in words what the PDUs are that a replay prints: it hears the lines of the script before they
//! are played, knows from them which command a response or data belong to, whatever pieces a host's stream comes in,
//! and writes the words behind each line of output that has a PDU. It checks nothing and decides nothing.
#![tactic(auto)]

pub mod explained;
mod hearing;
pub mod host_stream;
pub mod host_streams;
pub mod laws;
pub mod lines;
pub mod notes;
pub mod outstanding;

pub use explained::Explained;
pub use host_stream::HostStream;
pub use host_streams::{CONNECTIONS_MAX, HostStreams};
pub use lines::{PrintedLine, ScriptLine, read_printed, read_script};
pub use notes::{Note, Notes};
pub use outstanding::{COMMANDS_MAX, OutstandingCommands, Sent};
