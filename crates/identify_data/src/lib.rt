//! The data structures that the Identify command returns, 4,096 bytes each (Base 2.0, section
//! 5.17.2; NVM Command Set 1.0, section 4.1.5): what is told of a controller and of a namespace, and
//! the descriptors that identify a namespace. It knows no command.
#![tactic(auto)]

pub mod controller_data;
pub mod descriptor_list;
mod fields;
pub mod laws;
pub mod namespace_data;

pub use controller_data::{ControllerIdentity, controller};
pub use descriptor_list::descriptors;
pub use namespace_data::namespace;
