//! The checks of a Connect whose data is there, in their order.
ghost use Rattle.std.specs.Prelude.{◌≡◌, Some};
ghost use Rattle.nvt_fields.specs.Name.{up_to_zero};
ghost use Rattle.tables.specs.NumberTable.{place};
ghost use Rattle.config_lists.specs.Subsystem.{is_discovery};
ghost use Rattle.fabrics_connect.specs.Connect.{begun, format_verdict, is_controller_of};
ghost use Rattle.fabrics_connect.specs.Connect.{is_served, is_well_formed, join_verdict};
ghost use Rattle.fabrics_connect.specs.Connect.{joined_by, kind_of, names_verdict};
ghost use Rattle.fabrics_connect.specs.Connect.{permission_verdict, queue_verdict};

use crate::command::{Request, SQSIZE_MAX};
use crate::controllers::Controllers;
use crate::decision::{AdmitAs, NewController, Refusal};
use crate::queue_ids::QID_MAX;
use crate::row::Row;
use config_lists::link::has_link;
use nvt_config::Config;
use nvt_fields::{DISCOVERY_NQN, Status, nqn_field};
use pdu_codec::{Connect, ConnectData};
use property_regs::ControllerKind;

/// What a host writes where the subsystem chooses the controller.
const ANY_CONTROLLER: u16 = 0xFFFF;

/// Where a result names a parameter of the data: bit 16, beside the parameter's offset.
const IN_DATA: u64 = 0x1_0000;

// The results that name each parameter.
const QID: u64 = Connect::QID_AT as u64;

const SQSIZE: u64 = Connect::SQSIZE_AT as u64;

const HOSTID: u64 = IN_DATA + ConnectData::HOSTID_AT as u64;

const CNTLID: u64 = IN_DATA + ConnectData::CNTLID_AT as u64;

const SUBNQN: u64 = IN_DATA + ConnectData::SUBNQN_AT as u64;

const HOSTNQN: u64 = IN_DATA + ConnectData::HOSTNQN_AT as u64;

/// The record format.
#[tactic(auto, unfolding(crate::specs::Connect::format_verdict))]
pub(crate) fn check_format(request: &Request<'_>) -> Result<(), Refusal>
    ensures { result ≡ format_verdict request.now }
{
    if request.fields.recfmt != 0 {
        return Err(Refusal::new(Status::INCOMPATIBLE_FORMAT));
    }
    Ok(())
}

/// The queue's identifier and its size.
#[tactic(auto, unfolding(crate::specs::Connect::queue_verdict))]
pub(crate) fn check_queue(request: &Request<'_>) -> Result<(), Refusal>
    ensures { result ≡ queue_verdict request.now }
{
    if request.fields.qid > QID_MAX {
        return Err(Refusal::invalid_parameter(QID));
    }
    if request.fields.sqsize < 1 || request.fields.sqsize > SQSIZE_MAX {
        return Err(Refusal::invalid_parameter(SQSIZE));
    }
    Ok(())
}

/// The names: a subsystem that the port serves, and a host.
#[tactic(auto, unfolding(crate::specs::Connect::names_verdict))]
pub(crate) fn check_names(config: &Config, port: u16, request: &Request<'_>) -> Result<(), Refusal>
    ensures { result ≡ names_verdict config.now port request.now }
{
    if !is_well_formed(request.data.subnqn) || !is_served(config, port, request.subsystem()) {
        return Err(Refusal::invalid_parameter(SUBNQN));
    }
    if !is_well_formed(request.data.hostnqn) {
        return Err(Refusal::invalid_parameter(HOSTNQN));
    }
    Ok(())
}

/// Whether the host may use the subsystem through the port. Each may use the discovery subsystem,
/// which has no I/O queues.
#[tactic(auto, unfolding(crate::specs::Connect::permission_verdict))]
pub(crate) fn check_permission(
    config: &Config,
    port: u16,
    request: &Request<'_>,
) -> Result<(), Refusal>
    ensures { result ≡ permission_verdict config.now port request.now }
{
    let subsystem = request.subsystem();
    if is_discovery(subsystem) {
        if request.fields.qid != 0 {
            return Err(Refusal::invalid_parameter(QID));
        }
        return Ok(());
    }
    if !config.may_use(request.host(), subsystem, port) {
        return Err(Refusal::new(Status::CONNECT_INVALID_HOST));
    }
    Ok(())
}

/// The controller that an admin queue begins, of the least identifier that is free.
#[tactic(auto, unfolding(crate::specs::Connect::begun))]
pub(crate) fn begin(controllers: &Controllers, request: &Request<'_>) -> Result<AdmitAs, Refusal>
    ensures { result ≡ begun (λ c. place controllers.now c) request.now }
{
    if request.data.cntlid != ANY_CONTROLLER {
        return Err(Refusal::invalid_parameter(CNTLID));
    }
    let Some(cntlid) = controllers.free_cntlid() else {
        return Err(Refusal::new(Status::CONNECT_CONTROLLER_BUSY));
    };
    let kind = kind_of(request.subsystem());
    Ok(AdmitAs::Controller(NewController { cntlid, kind }))
}

/// The I/O queue that joins the controller that it names.
#[tactic(auto, unfolding(crate::specs::Connect::joined_by))]
pub(crate) fn join(
    controllers: &Controllers,
    port: u16,
    request: &Request<'_>,
) -> Result<AdmitAs, Refusal>
    ensures { result ≡ joined_by port request.now (place controllers.now request.now.cntlid) }
{
    let cntlid = request.data.cntlid;
    let Some(row) = controllers.get(cntlid) else {
        return Err(Refusal::invalid_parameter(CNTLID));
    };
    check_join(port, request, row)?;
    let qid = request.fields.qid;
    Ok(AdmitAs::Queue { cntlid, qid })
}

// The controller is one of the subsystem and the port, made by this host; it is ready and has no
// such queue.
fn check_join(port: u16, request: &Request<'_>, row: &Row) -> Result<(), Refusal>
    ensures { result ≡ join_verdict port request.now (Some row.now) }
{
    if !is_controller_of(request.subsystem(), port, row) {
        return Err(Refusal::invalid_parameter(CNTLID));
    }
    if row.host.as_bytes() != request.host() {
        return Err(Refusal::invalid_parameter(HOSTNQN));
    }
    if row.hostid.as_slice() != request.data.hostid.as_slice() {
        return Err(Refusal::invalid_parameter(HOSTID));
    }
    if !row.ready || row.qids.contains(request.fields.qid) {
        return Err(Refusal::new(Status::COMMAND_SEQUENCE_ERROR));
    }
    Ok(())
}

fn is_controller_of(nqn: &[u8], port: u16, row: &Row) -> bool
    ensures { result ≡ is_controller_of nqn.now port row.now }
{
    match &row.subsystem {
        Some(subsystem) => subsystem.as_bytes() == nqn && row.port == port,
        None => false,
    }
}

fn is_well_formed(field: &[u8; 256]) -> bool
    ensures { result ≡ is_well_formed (up_to_zero field.now) }
{
    nqn_field(field).is_ok()
}

fn is_served(config: &Config, port: u16, nqn: &[u8]) -> bool
    ensures { result ≡ is_served config.now port nqn.now }
{
    is_discovery(nqn) || has_link(config.links(), u64::from(port), nqn)
}

fn kind_of(nqn: &[u8]) -> ControllerKind
    ensures { result ≡ kind_of nqn.now }
{
    if is_discovery(nqn) {
        ControllerKind::Discovery
    } else {
        ControllerKind::Io
    }
}

fn is_discovery(nqn: &[u8]) -> bool
    ensures { result ≡ is_discovery nqn.now }
{
    nqn == DISCOVERY_NQN.as_slice()
}
