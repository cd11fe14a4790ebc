//! A controller that lives, as a Connect looks at it.
ghost use Rattle.std.specs.Prelude.{◌≡◌, IfOk};
ghost use Rattle.nvt_fields.specs.Name.{IsName};

use crate::command::Connect;
use crate::decision::NewController;
use crate::queue_ids::QueueIds;
use nvt_fields::Nqn;
use property_regs::ControllerKind;
use std::alloc::{AllocError, Global};

/// A controller that lives.
#[derive(Debug, Drop)]
pub struct Row {
    /// Controller identifier (CNTLID), from 1 to 32.
    pub cntlid: u16,
    /// The name of its subsystem; `None` for a discovery controller.
    pub subsystem: Option<Nqn>,
    /// The number of the port through which it was made.
    pub port: u16,
    /// The name of the host that made it.
    pub host: Nqn,
    /// Host identifier.
    pub hostid: [u8; 16],
    /// Whether it processes commands: CSTS.RDY (Base 2.0, section 3.1.3.6).
    pub ready: bool,
    /// Its I/O queues.
    pub qids: QueueIds,
}

impl Row {
    ghost use Rattle.fabrics_connect.specs.Command.{HasNames};
    ghost use Rattle.fabrics_connect.specs.Row.{row_begun, subsystem_named};

    /// The row of a controller that begins by this Connect through that port: not ready, without
    /// I/O queues.
    pub fn new(
        alloc: Global,
        port: u16,
        command: &Connect<'_>,
        controller: NewController,
    ) -> Result<Row, AllocError>
        requires { HasNames command.now.entry command.now.payload }
        ensures { IfOk result (λ row.
            row ≡ row_begun controller port command.now.entry command.now.payload) }
    {
        let Ok(request) = command.request() else {
            unreachable!()
        };
        Ok(Row {
            cntlid: controller.cntlid,
            subsystem: Row::subsystem_named(alloc, controller.kind, request.subsystem())?,
            port,
            host: named(alloc, request.host())?,
            hostid: *request.data.hostid,
            ready: false,
            qids: QueueIds::none(),
        })
    }

    // A discovery controller is of no subsystem of the configuration.
    fn subsystem_named(
        alloc: Global,
        kind: ControllerKind,
        name: &[u8],
    ) -> Result<Option<Nqn>, AllocError>
        requires { IsName name.now }
        ensures { IfOk result (λ subsystem. subsystem ≡ subsystem_named kind name.now) }
    {
        match kind {
            ControllerKind::Discovery => Ok(None),
            ControllerKind::Io => Ok(Some(named(alloc, name)?)),
        }
    }
}

fn named(alloc: Global, name: &[u8]) -> Result<Nqn, AllocError>
    requires { IsName name.now }
    ensures { IfOk result (λ nqn. nqn ≡ name.now) }
{
    match Nqn::read(alloc, name) {
        Ok(nqn) => Ok(nqn),
        Err(_) => Err(AllocError),
    }
}
