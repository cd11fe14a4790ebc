//! How a target answers a Connect (Base 2.0, section 6.3): by its configuration and the controllers
//! that live it admits a new controller with its admin queue, or an I/O queue of one that is there,
//! or refuses. `Controllers` holds what a Connect looks at of each controller. Nothing here reads a
//! stream, sends a byte or knows a property.
#![tactic(auto)]

mod checks;
mod command;
mod controllers;
mod decision;
pub mod laws;
mod queue_ids;
mod row;
mod walk;

pub use command::{Connect, Request, SQSIZE_MAX};
pub use controllers::{CONTROLLERS_MAX, Controllers};
pub use decision::{AdmitAs, Decision, NewController, Refusal, decide};
pub use queue_ids::{QID_MAX, QueueIds};
pub use row::Row;
pub use walk::Walk;
