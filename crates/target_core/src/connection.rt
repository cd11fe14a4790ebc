//! One connection: how far it has come, and what it has to send.
ghost use Rattle.std.specs.Prelude.{◌≡◌, ◌<◌, ◌≤◌, OnErr, OnOk, drop, length};
ghost use Rattle.target_state.specs.Controllers.{is_gone};
ghost use Rattle.data_transfer.specs.Parts.{Stand, part_at};
ghost use Rattle.io_queue.specs.Execution.{sizes};
ghost use Rattle.nvt_config.specs.Configuration.{Configuration};
ghost use Rattle.admin_queue.specs.Planned.{Plans};
ghost use Rattle.admin_queue.specs.Viewer.{views_of as viewed};
ghost use Rattle.tables.specs.NumberTable.{place};
ghost use Rattle.pdu_cut.specs.Cut.{front_shown};
ghost use Rattle.target_core.specs.Connection.{Acts, fresh_on, settled, told_known};
ghost use Rattle.target_decision.specs.Carry.{CanCarry, brought_by, tags_after, with_own};
ghost use Rattle.target_decision.specs.Decision.{CanPerform};
ghost use Rattle.target_decision.specs.Session.{is_ended};
ghost use Rattle.target_decision.specs.World.{world_in};
ghost use Rattle.target_history.specs.Occurrence.{views_of};

use admin_queue::{PlannedEdit, Viewer};
use block_store::{Disk, Store};
use bytes::BytesMut;
use data_transfer::Transfers;
use fabrics_connect::Row;
use pdu_cut::Cut;
use std::alloc::{AllocError, Global};
use std::marker::Model;
use target_decision::{
    ConnectionState, Decision, Role, Session, WaitingCommand, World, fulfil, make_disk_room,
    prepare,
};
use target_history::EndCause;
use target_state::ControllerTables;

/// A connection that is known.
#[derive(Drop)]
pub(crate) struct Connection {
    state: ConnectionState,
    output: BytesMut,
}

impl Model for Connection {
    ghost use Rattle.std.specs.Prelude.{◌*◌, ◌≤◌, length};
    ghost use Rattle.target_core.specs.Connection.{KnownConnection};

    ghost Value = { KnownConnection };

    ghost view = { λ c. record { state = c.state; output = c.output.items } };

    // An edit completes requests that wait, and takes no memory for it.
    ghost invariant = { λ c. 24 * length c.state.notices.events.waiting ≤ c.output.spare };
}

impl Connection {
    /// A connection on which nothing has come yet.
    pub(crate) fn new(alloc: Global, port: u16) -> Connection
        ensures { result ≡ fresh_on port }
    {
        Connection {
            state: ConnectionState::opened_on(port),
            output: BytesMut::new(alloc),
        }
    }

    pub(crate) fn state(&self) -> &ConnectionState
        ensures { result.now ≡ self.now.state }
    {
        &self.state
    }

    pub(crate) fn is_ended(&self) -> bool
        ensures { result ≡ is_ended self.now.state.session }
    {
        self.state.session.is_ended()
    }

    /// What is to be sent and was not taken.
    pub(crate) fn output(&self) -> &[u8]
        ensures { result.now ≡ self.now.output }
    {
        self.output.as_slice()
    }

    /// Takes the first `len` bytes of the output away. Where none is left, all its room is there again.
    pub(crate) fn taken(&mut self, len: usize)
        requires { len ≤ length self.old.output }
        ensures { self.new ≡ record {
          state = self.old.state;
          output = drop len self.old.output;
        } }
    {
        if len == self.output.len() {
            self.output.clear();
        } else {
            self.output.advance(len);
        }
    }

    /// Does what was decided on this front, with these disks and its own transfers, of those of all. All
    /// growth comes first: where memory runs out, nothing changes.
    pub(crate) fn act<D: Disk>(
        &mut self,
        world: &World<'_>,
        stores: &mut [Store<D>],
        transfers: &mut Transfers<WaitingCommand>,
        number: usize,
        decision: &Decision,
        front: &Cut<'_>,
    ) -> Result<(), AllocError>
        requires carries { CanCarry number transfers.old decision.now (front_shown front.now) }
        requires performs { let brought = brought_by (part_at transfers.old number) decision.now (front_shown front.now) in
            CanPerform (sizes stores.old) decision.now brought (front_shown front.now) }
        ensures acts { let brought = brought_by (part_at transfers.old number) decision.now (front_shown front.now) in
            OnOk result (Acts (world_in world.now) decision.now (front_shown front.now) brought
            self.old self.new stores.old stores.new) }
        ensures parts { let tags = tags_after decision.now (front_shown front.now) (part_at transfers.old number) in
            OnOk result (Stand transfers.new (with_own (part_at transfers.old) number tags)) }
        ensures err { OnErr result ((self.new ≡ self.old) × (stores.new ≡ stores.old) × (transfers.new ≡ transfers.old)) }
    {
        make_disk_room(stores, decision)?;
        let carried = prepare(
            world,
            transfers,
            number,
            &self.state,
            &mut self.output,
            decision,
            front,
        )?;
        fulfil(
            world,
            stores,
            &mut self.state,
            &mut self.output,
            decision,
            front,
            &carried,
        );
        // prover: at most 4 requests wait, and there is room for their completions
        self.state.notices.events().waiting();
        Ok(())
    }

    /// Tells the host of the controller whose admin queue it is what an edit changes of what the
    /// controller shows, where that lives. It takes no memory.
    pub(crate) fn tell(&mut self, tables: &ControllerTables, plan: &PlannedEdit<'_>)
        ensures { (old new : Configuration) → Plans old new plan.now
            → self.new ≡ told_known old new (λ c. place tables.now.rows c) self.old }
    {
        let Session::Connected {
            role: Role::Admin { cntlid },
            ..
        } = self.state.session
        else {
            return;
        };
        if let Some(row) = tables.row(cntlid) {
            self.state.tell(plan, &viewer_of(row), &mut self.output);
        }
    }

    /// Ends it where this ends it, with these controllers, by their identifiers.
    pub(crate) fn settle(&mut self, cause: &EndCause, gone: &[bool])
        ensures { self.new ≡ settled cause.now (is_gone gone.now) self.old }
    {
        if cause.ends(gone, &self.state) {
            self.state.session = Session::Ended;
        }
    }
}

// What the controller of a row shows.
fn viewer_of(row: &Row) -> Viewer<'_>
    ensures { viewed result ≡ views_of row.now }
{
    match &row.subsystem {
        None => Viewer::Discovery {
            host: row.host.as_bytes(),
        },
        Some(subsystem) => Viewer::Io {
            host: row.host.as_bytes(),
            subsystem: subsystem.as_bytes(),
            port: row.port,
        },
    }
}
