//! The properties of a controller (Base 2.0, section 3.1.3), which a host reads and writes over
//! Fabrics by Property Get and Property Set: capabilities, configuration and status, and what a
//! write of Controller Configuration does. It knows no queue, no command and no capsule.
#![tactic(auto)]

mod configuration;
pub mod kind;
pub mod laws;
pub mod regs;
pub mod size;
pub mod status;

pub use kind::ControllerKind;
pub use laws::{changes_tell_of_readiness, readiness_is_as_set};
pub use regs::{Change, InvalidField, Regs, configuration_set};
