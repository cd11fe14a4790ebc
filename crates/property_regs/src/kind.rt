//! The kinds of controllers.

/// What a controller is for (Base 2.0, section 3.1.2).
#[derive(Clone, Copy, Debug, PartialEq, Eq)]
pub enum ControllerKind {
    /// It has an admin queue alone, and shows which subsystems there are.
    Discovery,
    /// It also has queues for reads and writes.
    Io,
}
