//! The ports of a target over sockets: a listener for each port of the configuration and one for lines of edits,
//! the hosts that connected, and those whose slot was closed before all was sent. Nothing here waits for a socket: each
//! call tries some of them, in turn. What decides which one, what is kept to be sent, who is given up and where a line
//! ends holds no socket, and stands in `nvt_ports`. `Network` is what the ports ask of a machine; `Tcp` is this one.
#![tactic(auto)]

mod aside;
mod control;
mod editor;
mod host;
mod hosts;
pub mod journal;
mod keep_alive;
mod listeners;
pub mod network;
pub mod ports;
mod sockets;
mod speech;
mod standard_streams;
pub mod tcp;

pub use journal::Log;
pub use network::{Channel, Network, Received};
pub use ports::{GivenUpHosts, SocketPorts};
pub use tcp::Tcp;
