//! What the host's program has of this machine: links over TCP sockets, of which no call waits, and the lab.
//!
//! The lab is a target and two hosts, each a process of its own: a Write that waits for its data changes nothing that
//! another host reads, and is done once it has them. Each process that is started is killed and waited for, whatever
//! comes, and what it prints is echoed on standard error, a line after its name.
#![tactic(auto)]

mod children;
mod commands;
mod control;
mod course;
mod hosts;
mod lines;
mod tcp_link;

pub use course::{LabFault, LabPlan, lab};
pub use tcp_link::TcpLink;
