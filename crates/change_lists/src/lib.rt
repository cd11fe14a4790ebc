//! The lists of namespaces that a controller tells its host: those that are active in its subsystem, and
//! those that changed since the host last read which. It knows no connection and no command.
#![tactic(auto)]

pub mod active_list;
mod active_lists;
pub mod active_view;
pub mod changed_set;
mod differences;
mod nsid_list;
pub mod plan;

pub use active_view::ActiveView;
pub use changed_set::{ChangedSet, empties};
pub use plan::Plan;
