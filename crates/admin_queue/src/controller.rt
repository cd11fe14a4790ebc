//! The controller that a command was submitted to.
ghost use Rattle.std.specs.Prelude.{◌≡◌};

use crate::Notices;
use nvt_fields::Nqn;

/// What commands ask of their controller.
#[derive(Clone, Copy)]
pub struct AdminController<'a> {
    pub cntlid: u16,
    /// The name of the host that made it.
    pub host: &'a Nqn,
    /// The name of its subsystem; `None` for a discovery controller.
    pub subsystem: &'a Option<Nqn>,
    /// The port that its host made it on.
    pub port: u16,
    /// Keep alive timeout, in ms.
    pub kato: u32,
    /// What its host is to be told.
    pub notices: &'a Notices,
}
