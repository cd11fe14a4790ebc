//! What a target holds beside its connections, its disks and its configuration. `Views` are what log pages and lists
//! are written from, as one: they are made and follow each edit together, and lend their pages to a decision.
//! `ControllerTables` are the controllers that live, under their identifiers: they lend a decision what it may look at,
//! end the controllers that an event ends, and make the change of a reply. Nothing here knows a connection.
#![tactic(auto)]

mod controllers;
mod views;

pub use controllers::{ControllerTables, PLACES, consequence_of};
pub use views::{Plans, Views};
