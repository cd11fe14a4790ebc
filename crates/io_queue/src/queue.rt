//! The controller that a command was submitted to.

use nvt_fields::Nqn;

/// What commands ask of their controller.
#[derive(Clone, Copy)]
pub struct IoController<'a> {
    /// The name of the host that made it.
    pub host: &'a Nqn,
    /// The number of the port through which it was made.
    pub port: u16,
    /// The name of its subsystem.
    pub subsystem: &'a Nqn,
}
