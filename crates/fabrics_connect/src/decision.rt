//! What a target answers to a Connect, as a value.
ghost use Rattle.std.specs.Prelude.{◌≡◌, ℕ};
ghost use Rattle.tables.specs.NumberTable.{place};
ghost use Rattle.fabrics_connect.specs.Command.{HasNames};
ghost use Rattle.fabrics_connect.specs.Connect.{answer_to, connect};
ghost use Rattle.fabrics_connect.specs.Connect.{CanJoin, IfController, IfQueue};
ghost use Rattle.fabrics_connect.specs.Controllers.{CanBegin};

use crate::checks::{begin, check_format, check_names, check_permission, check_queue, join};
use crate::command::Connect;
use crate::controllers::Controllers;
use nvt_config::Config;
use nvt_fields::Status;
use property_regs::ControllerKind;

/// What a target answers to a Connect.
#[derive(Clone, Copy, Debug, PartialEq, Eq)]
pub enum Decision {
    Admit(AdmitAs),
    Deny {
        status: Status,
        /// With Connect Invalid Parameters, the offset of the parameter, with bit 16 set where it
        /// is in the data. Else 0.
        result: u64,
    },
}

/// What a connection is admitted as.
#[derive(Clone, Copy, Debug, PartialEq, Eq)]
pub enum AdmitAs {
    /// The admin queue of a controller that begins.
    Controller(NewController),
    /// An I/O queue of a controller that is there.
    Queue { cntlid: u16, qid: u16 },
}

/// A controller that begins.
#[derive(Clone, Copy, Debug, PartialEq, Eq)]
pub struct NewController {
    /// The identifier that it gets.
    pub cntlid: u16,
    pub kind: ControllerKind,
}

/// Why a Connect is refused: a status other than success, and the result beside it.
#[derive(Clone, Copy, Debug, PartialEq, Eq)]
pub struct Refusal {
    pub status: Status,
    pub result: u64,
}

impl Refusal {
    ghost use Rattle.fabrics_connect.specs.Refusal.{invalid_parameter, refusal_of};

    /// A refusal whose status says all.
    pub(crate) fn new(status: Status) -> Refusal
        ensures { result ≡ refusal_of status }
    {
        Refusal { status, result: 0 }
    }

    /// A parameter is invalid, which the result names.
    pub(crate) fn invalid_parameter(parameter: u64) -> Refusal
        ensures { result ≡ invalid_parameter parameter }
    {
        Refusal {
            status: Status::CONNECT_INVALID_PARAMETERS,
            result: parameter,
        }
    }
}

/// Answers a Connect that came through that port, without memory.
#[tactic(auto, unfolding(crate::specs::Connect::connect))]
pub fn decide(
    config: &Config,
    controllers: &Controllers,
    port: u16,
    command: &Connect<'_>,
) -> Decision
    ensures decision { result ≡ connect config.now (λ c. place controllers.now c) port
        command.now.entry command.now.payload }
    // A new controller has an identifier that is free, and names for its row.
    ensures begins { IfController result (λ c. CanBegin controllers.now c.cntlid) }
    ensures named { IfController result (λ _.
        HasNames command.now.entry command.now.payload) }
    // A queue is one that its controller has not.
    ensures joins { IfQueue result (CanJoin controllers.now) }
{
    match admit(config, controllers, port, command) {
        Ok(admit) => Decision::Admit(admit),
        Err(refusal) => Decision::Deny {
            status: refusal.status,
            result: refusal.result,
        },
    }
}

// The checks in their order, and what they admit.
#[tactic(auto, unfolding(crate::specs::Connect::admitted))]
fn admit(
    config: &Config,
    controllers: &Controllers,
    port: u16,
    command: &Connect<'_>,
) -> Result<AdmitAs, Refusal>
    ensures { let row = λ (c : ℕ). place controllers.now c in
        result ≡ answer_to config.now row port command.now.entry command.now.payload }
{
    let request = command.request()?;
    check_format(&request)?;
    check_queue(&request)?;
    check_names(config, port, &request)?;
    check_permission(config, port, &request)?;
    if request.fields.qid == 0 {
        begin(controllers, &request)
    } else {
        join(controllers, port, &request)
    }
}
