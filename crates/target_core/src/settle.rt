//! What an event ends: controllers, and with them connections; and what an edit tells of those that stay.
//! One walk of each table, for every cause.
ghost use Rattle.std.specs.Prelude.{◌≡◌, ℕ, None, if◌then◌else◌, map};
ghost use Rattle.std.specs.Option.{option_copied, option_map};
ghost use Rattle.data_transfer.specs.Parts.{part_at};
ghost use Rattle.tables.specs.NumberTable.{place};
ghost use Rattle.target_state.specs.Controllers.{gone_by, is_gone};
ghost use Rattle.target_core.specs.Connection.{ends_known, settled, told_known};
ghost use Rattle.nvt_config.specs.Configuration.{Configuration};
ghost use Rattle.admin_queue.specs.Planned.{Plans};
ghost use Rattle.target_history.specs.Occurrence.{row_kept};

use crate::connection::Connection;
use admin_queue::PlannedEdit;
use data_transfer::Transfers;
use nvt_config::Config;
use tables::NumberTable;
use target_decision::WaitingCommand;
use target_history::EndCause;
use target_state::ControllerTables;

/// Ends the controllers and the connections that it ends, where the configuration has become this,
/// and takes from the controllers that stay the queues that are gone.
pub(crate) fn settle(
    connections: &mut NumberTable<Connection>,
    transfers: &mut Transfers<WaitingCommand>,
    tables: &mut ControllerTables,
    config: &Config,
    cause: &EndCause,
)
    ensures connections { let gone = gone_by cause.now config.now tables.old in
        connections.new ≡ map (option_map (settled cause.now gone)) connections.old }
    ensures parts { let gone = gone_by cause.now config.now tables.old in
        (k t : ℕ) → part_at transfers.new k t ≡ (if ends_known cause.now gone (place connections.old k)
        then None else part_at transfers.old k t) }
    ensures rows { let gone = gone_by cause.now config.now tables.old in
        (c : ℕ) → place tables.new.rows c ≡ (if gone c then None else
        option_map (row_kept cause.now c) (place tables.old.rows c)) }
    ensures own { let gone = gone_by cause.now config.now tables.old in
        (c : ℕ) → place tables.new.own c ≡ (if gone c then None else place tables.old.own c) }
{
    match cause {
        EndCause::Nothing => {}
        _ => {
            let gone = tables.end(config, cause);
            drop_transfers(transfers, connections, &gone, cause);
            end_connections(connections, &gone, cause);
        }
    }
}

/// Tells the host of each controller that lives, on its admin queue, what an edit changes of what the
/// controller shows.
#[tactic(auto, using(tables::proofs::NumberWalks::walks))]
pub(crate) fn tell(
    connections: &mut NumberTable<Connection>,
    tables: &ControllerTables,
    plan: &PlannedEdit<'_>,
)
    ensures { (old new : Configuration) → Plans old new plan.now
        → let row = (λ (c : ℕ). place tables.now.rows c) in
        connections.new ≡ map (option_map (told_known old new row)) connections.old }
{
    for k in 0..connections.places() {
        if let Some(connection) = connections.get_mut(k) {
            connection.tell(tables, plan);
        }
    }
}

// Drops the transfers of the connections that it ends.
#[tactic(auto, using(crate::proofs::Settling::dropping))]
fn drop_transfers(
    transfers: &mut Transfers<WaitingCommand>,
    connections: &NumberTable<Connection>,
    gone: &[bool],
    cause: &EndCause,
)
    ensures { (k t : ℕ) → part_at transfers.new k t ≡ (if ends_known cause.now (is_gone gone.now) (place connections.now k)
        then None else part_at transfers.old k t) }
{
    for k in 0..connections.places() {
        if ends(connections.get(k), gone, cause) {
            transfers.drop_queue(k);
        }
    }
}

fn ends(connection: Option<&Connection>, gone: &[bool], cause: &EndCause) -> bool
    ensures { result ≡ ends_known cause.now (is_gone gone.now) (option_copied connection.entry) }
{
    match connection {
        Some(connection) => cause.ends(gone, connection.state()),
        None => false,
    }
}

#[tactic(auto, using(tables::proofs::NumberWalks::walks))]
fn end_connections(connections: &mut NumberTable<Connection>, gone: &[bool], cause: &EndCause)
    ensures { connections.new
        ≡ map (option_map (settled cause.now (is_gone gone.now))) connections.old }
{
    for k in 0..connections.places() {
        if let Some(connection) = connections.get_mut(k) {
            connection.settle(cause, gone);
        }
    }
}
