//! What a decision may look at beside its own connection.
ghost use Rattle.std.specs.Prelude.{◌≡◌};
ghost use Rattle.target_decision.specs.Controller.{registers_at};
ghost use Rattle.std.specs.Option.{option_copied, option_map};
ghost use Rattle.admin_queue.specs.Controller.{controller_in};
ghost use Rattle.target_decision.specs.World.{admin_controller, admin_controller_by, admin_controller_in, world_in};

use crate::controller::Controller;
use crate::session::{ConnectionState, Role, Session};
use admin_queue::{AdminController, Notices, Pages};
use fabrics_connect::{Controllers, Row};
use nvt_config::Config;
use property_regs::{ControllerKind, Regs};
use tables::NumberTable;

/// The most connections at a time.
pub const CONNECTIONS_MAX: usize = 64;

/// The pages, the configuration and the controllers.
#[derive(Drop)]
pub struct World<'a> {
    pub pages: &'a Pages<'a>,
    pub config: &'a Config,
    /// What all connections may see of each controller that lives.
    pub rows: &'a Controllers,
    /// What its own admin queue alone uses of it, under the same identifier.
    pub controllers: &'a NumberTable<Controller>,
}

impl<'a> World<'a> {
    /// The properties of a controller. Where none lives they are a new one's.
    pub(crate) fn registers(&self, cntlid: u16) -> Regs
        ensures { result ≡ registers_at ((world_in self.now).controller cntlid) }
    {
        match self.controllers.get(usize::from(cntlid)) {
            Some(controller) => controller.registers,
            None => Regs::new(ControllerKind::Discovery),
        }
    }

    /// The controller of this identifier, with what its host is to be told, as its admin commands see
    /// it.
    pub(crate) fn admin_controller<'b>(
        &'b self,
        notices: &'b Notices,
        cntlid: u16,
    ) -> Option<AdminController<'b>>
        ensures { option_map controller_in result
            ≡ admin_controller (world_in self.now) notices.now cntlid }
    {
        self.admin_controller_by(notices, cntlid, self.rows.get(cntlid))
    }

    /// .. whose row was looked up already.
    pub(crate) fn admin_controller_by<'b>(
        &'b self,
        notices: &'b Notices,
        cntlid: u16,
        row: Option<&'b Row>,
    ) -> Option<AdminController<'b>>
        ensures { option_map controller_in result ≡ admin_controller_by notices.now cntlid
            (option_copied row.entry) ((world_in self.now).controller cntlid) }
    {
        let row = row?;
        let own = self.controllers.get(usize::from(cntlid))?;
        Some(AdminController {
            cntlid,
            host: &row.host,
            subsystem: &row.subsystem,
            port: row.port,
            kato: own.kato,
            notices,
        })
    }

    /// The controller whose admin queue a connection is.
    pub(crate) fn admin_controller_in<'b>(
        &'b self,
        v: &'b ConnectionState,
    ) -> Option<AdminController<'b>>
        ensures { option_map controller_in result
            ≡ admin_controller_in (world_in self.now) v.now }
    {
        match v.session {
            Session::Connected {
                role: Role::Admin { cntlid },
                ..
            } => self.admin_controller(&v.notices, cntlid),
            Session::Connected {
                role: Role::Io { .. },
                ..
            }
            | Session::Opened
            | Session::Initialized
            | Session::Ended => None,
        }
    }
}
