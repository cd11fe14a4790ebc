//! What a PDU is, by its bytes and the command that it belongs to, and its words, for an engineer who
//! reads a replay's output in place of a dissector. It checks nothing and decides nothing.
#![tactic(auto)]

pub mod command;
pub mod explanation;
mod fields;
mod names;
pub mod pages;
pub mod subject;
pub mod words;

pub use command::{Command, QueueKind};
pub use explanation::{Explanation, ResponseFields, explain};
pub use pages::Described;
pub use subject::{Subject, Which};
pub use words::ConnectAnswer;
