//! What a target owes to a PDU. `decide` looks at what stands at the front of a connection's
//! stream, and at what a decision may look at beside it, and answers a value: a reply with what
//! follows from it, a wish for its data, or the connection's end. `new_row` makes what other connections will
//! see of a controller that this begins. `make_disk_room` makes room for what it writes; `prepare` for all that it sends, and carries on the
//! transfer that it is about; `fulfil` then does the operation, writes what is sent, and moves the session.
//! Nothing here keeps anything.
#![tactic(auto)]

mod admin;
mod alignment;
mod capsule;
mod carry;
mod connect;
mod consequence;
mod controller;
mod data;
mod decision;
mod fabrics;
mod fulfilment;
mod io;
mod notice;
mod queue;
mod received;
mod session;
mod tell;
mod transfer;
mod wire;
mod world;

pub use alignment::Alignment;
pub use carry::Carried;
pub use consequence::{Beginning, ConfigurationSet, Consequence, Joining, Update};
pub use controller::Controller;
pub use decision::{DataRequest, Decision, Given, Reply, ReplyAnswer, Termination, decide};
pub use fulfilment::{consumed_of, fulfil, make_disk_room, new_row, prepare};
pub use queue::SubmissionQueue;
pub use session::{ConnectionState, Role, Session};
pub use tell::TOLD_ROOM;
pub use transfer::{OwnTransfers, WaitingCommand};
pub use world::{CONNECTIONS_MAX, World};
