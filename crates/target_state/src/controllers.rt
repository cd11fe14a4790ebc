//! The controllers that live, in two tables by their identifiers: what all connections may see of
//! each, and what its own admin queue alone uses. Both have the same controllers.
ghost use Rattle.std.specs.Prelude.{◌≡◌, ℕ, IfOk, None, Some, if◌then◌else◌, length};
ghost use Rattle.std.specs.Option.{option_copied, option_map};
ghost use Rattle.tables.specs.NumberTable.{place};
ghost use Rattle.target_state.specs.Controllers.{AreTables, CanFollow, IsNewTables, gone_by, is_gone, world_with};
ghost use Rattle.target_decision.specs.declared.consequence.Consequence.TheVariants as consequence;
ghost use Rattle.admin_queue.specs.Pages.{pages_in};
ghost use Rattle.target_decision.specs.World.{world_in};
ghost use Rattle.target_history.specs.Occurrence.{consequence_decided, controller_changed, ready_after, row_changed, row_kept};

use admin_queue::Pages;
use fabrics_connect::{Controllers, Row};
use nvt_config::Config;
use std::alloc::{AllocError, Global};
use std::marker::Model;
use tables::NumberTable;
use target_decision::{Consequence, Controller, Decision, Update, World};
use target_history::EndCause;

/// The places of a table, and of the answer of `ControllerTables::end`: one for each controller
/// identifier from 1 to 32, and for 0, which is never given.
pub const PLACES: usize = 33;

/// The controllers that live, at most 32, under their identifiers (CNTLID; Base 2.0, section 3.1).
/// A contract sees two lists, each with a place for each identifier: `rows`, with what a Connect
/// looks at, and `own`, with what only the admin queue of the controller uses.
#[derive(Drop)]
pub struct ControllerTables {
    rows: Controllers,
    own: NumberTable<Controller>,
}

impl Model for ControllerTables {
    ghost use Rattle.target_state.specs.Controllers.{AreTables, TablesState};

    ghost Value = { TablesState };

    ghost view = { λ t. record { rows = t.rows; own = t.own } };

    ghost invariant = { λ t. AreTables (record { rows = t.rows; own = t.own }) };
}

impl ControllerTables {
    /// No controller. It takes the memory of both tables, or answers that it is not there; no later
    /// call takes memory.
    pub fn new(alloc: Global) -> Result<ControllerTables, AllocError>
        ensures { IfOk result IsNewTables }
    {
        Ok(ControllerTables {
            rows: Controllers::new(alloc)?,
            own: NumberTable::new(alloc, PLACES)?,
        })
    }

    /// What a decision may look at, with these pages and this configuration. It lends the tables.
    pub fn world<'a>(&'a self, pages: &'a Pages<'a>, config: &'a Config) -> World<'a>
        ensures { world_in result ≡ world_with (pages_in pages.now) config.now self.now }
    {
        World {
            pages,
            config,
            rows: &self.rows,
            controllers: &self.own,
        }
    }

    /// What all connections may see of the controller of this identifier, where it lives.
    pub fn row(&self, cntlid: u16) -> Option<&Row>
        ensures { option_copied result ≡ place self.now.rows cntlid }
    {
        self.rows.get(cntlid)
    }

    /// Removes the controllers that an event ends, where it has left this configuration: by a Keep
    /// Alive Timeout (Base 2.0, section 3.9), with their admin connection, their port or their host's
    /// permission. From those that stay it takes the I/O queues that are gone, of one that is reset
    /// all. It answers for each identifier whether its controller is ended.
    pub fn end(&mut self, config: &Config, cause: &EndCause) -> [bool; PLACES]
        ensures gone { (c : ℕ) → is_gone result c
            ≡ gone_by cause.now config.now self.old c }
        ensures rows { (c : ℕ) → place self.new.rows c
            ≡ (if gone_by cause.now config.now self.old c then None else
            option_map (row_kept cause.now c) (place self.old.rows c)) }
        ensures own { (c : ℕ) → place self.new.own c
            ≡ (if gone_by cause.now config.now self.old c then None else
            place self.old.own c) }
    {
        let gone = gone(&self.rows, &self.own, config, cause);
        remove_rows(&mut self.rows, &gone);
        remove(&mut self.own, &gone);
        leave(&mut self.rows, cause);
        gone
    }

    /// Does what follows from a reply, with the row of the controller that it begins, when the clock
    /// shows `now`, in ms: a controller begins, an I/O queue joins one (both by a Connect; Base 2.0,
    /// section 6.3), or a command on its admin queue changes one. A controller that begins has to have
    /// a row of its identifier, and that has to be free. What names a controller that is not there changes
    /// nothing.
    pub fn change(&mut self, now: u64, consequence: &Consequence, row: Option<Row>)
        requires { CanFollow consequence.now row self.old }
        ensures rows { (c : ℕ) → place self.new.rows c
            ≡ row_changed consequence.now row (place self.old.own c) c (place self.old.rows c) }
        ensures own { (c : ℕ) → place self.new.own c
            ≡ controller_changed consequence.now now c (place self.old.own c) }
    {
        match (consequence, row) {
            (Consequence::Begin(beginning), Some(row)) => {
                let cntlid = beginning.controller.cntlid;
                let own = Controller::new(beginning.controller.kind, beginning.kato, now);
                self.rows.put(row);
                self.own.put(usize::from(cntlid), own);
            }
            (Consequence::Join(joining), _) => self.rows.join(joining.cntlid, joining.qid),
            (Consequence::Update { cntlid, update }, _) => {
                let ready = updated(&mut self.own, *cntlid, update, now);
                self.rows.set_ready(*cntlid, ready);
            }
            (Consequence::Begin(_), None) | (Consequence::Nothing, _) => {}
        }
    }
}

// The controllers that it ends, by their identifiers.
fn gone(
    rows: &Controllers,
    own: &NumberTable<Controller>,
    config: &Config,
    cause: &EndCause,
) -> [bool; PLACES]
    requires { AreTables (record { rows = rows.now; own = own.now }) }
    ensures { (c : ℕ) → is_gone result c
        ≡ gone_by cause.now config.now (record { rows = rows.now; own = own.now }) c }
{
    let mut gone = [false; PLACES];
    for cntlid in 0..PLACES as u16 {
        let controller = own.get(usize::from(cntlid));
        gone[usize::from(cntlid)] = cause.ends_controller(
            config,
            cntlid,
            rows.get(cntlid),
            controller,
        );
    }
    gone
}

fn remove_rows(rows: &mut Controllers, gone: &[bool; PLACES])
    ensures { (c : ℕ) → place rows.new c
        ≡ (if is_gone gone.now c then None else place rows.old c) }
{
    for cntlid in 0..PLACES as u16 {
        if gone[usize::from(cntlid)] {
            rows.remove(cntlid);
        }
    }
}

fn remove(own: &mut NumberTable<Controller>, gone: &[bool; PLACES])
    ensures each { (c : ℕ) → place own.new c
        ≡ (if is_gone gone.now c then None else place own.old c) }
    ensures places { length own.new ≡ length own.old }
{
    for cntlid in 0..PLACES {
        if gone[cntlid] {
            drop(own.remove(cntlid));
        }
    }
}

// An I/O queue leaves its controller, or all leave one that is reset.
fn leave(rows: &mut Controllers, cause: &EndCause)
    ensures { (c : ℕ) → place rows.new c ≡ option_map (row_kept cause.now c) (place rows.old c) }
{
    match cause {
        EndCause::Queue { cntlid, qid } => rows.leave(*cntlid, *qid),
        EndCause::Reset(cntlid) => rows.leave_all(*cntlid),
        EndCause::Nothing
        | EndCause::Port(_)
        | EndCause::Permission
        | EndCause::Controller(_)
        | EndCause::Clock(_) => {}
    }
}

// Changes a controller as its own command says, if it is there, and says whether it is ready then.
fn updated(own: &mut NumberTable<Controller>, cntlid: u16, update: &Update, now: u64) -> bool
    ensures ready { result ≡ ready_after update.now (place own.old cntlid) }
    ensures each { (c : ℕ) → place own.new c
        ≡ controller_changed (consequence.Update cntlid update.now) now c (place own.old c) }
    ensures places { length own.new ≡ length own.old }
{
    match own.get_mut(usize::from(cntlid)) {
        Some(controller) => {
            controller.update(update, now);
            controller.registers.ready()
        }
        None => false,
    }
}

/// What follows from a decision: what follows from its reply, and nothing where it is none.
pub fn consequence_of(decision: &Decision) -> Consequence
    ensures { result ≡ consequence_decided (Some decision.now) }
{
    match decision {
        Decision::Reply(reply) => reply.consequence,
        Decision::Initialize(_)
        | Decision::Request(_)
        | Decision::Receive { .. }
        | Decision::Wait { .. }
        | Decision::Terminate(_)
        | Decision::Close => Consequence::Nothing,
    }
}
