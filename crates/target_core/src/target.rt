//! The target: a configuration and the connections that hosts made.
ghost use Rattle.std.specs.Prelude.{◌≡◌, ◌<◌, ◌≤◌, ◌+◌, IfOk, IfErr, IsOk, IsOkUnless, Ok, OnErr, OnOk, MatchOption, MatchResult, Some, None, [], drop, is_some, length, map, replicate, true};
ghost use Rattle.std.specs.Bool.{OnFalse, OnTrue};
ghost use Rattle.std.specs.Option.{option_copied};
ghost use Rattle.tables.specs.NumberTable.{place};
ghost use Rattle.nvt_config.specs.Accept.{accept};
ghost use Rattle.nvt_config.specs.Configuration.{are_disks};
ghost use Rattle.target_state.specs.Controllers.{controller_places};
ghost use Rattle.discovery_view.specs.Catalog.{catalog_of};
ghost use Rattle.discovery_view.specs.Forming.{reach};
ghost use Rattle.fabrics_connect.specs.Controllers.{no_controllers};
ghost use Rattle.target_core.specs.Agreement.{Agrees, AgreesAfter, EditAgrees, EndAgrees, EndedAgrees, OpenAgrees, ReceiveAgrees, StepAgrees, TakenAgrees, nothing};
ghost use Rattle.target_core.specs.Faithful.{AreFaithful, FaithfulStepAgrees};
ghost use Rattle.data_transfer.specs.Parts.{Stand, no_parts, part_at};
ghost use Rattle.io_queue.specs.Execution.{sizes};
ghost use Rattle.pdu_cut.specs.Cut.{front_shown};
ghost use Rattle.target_core.specs.Transition.{ActedAt, ActsAt, CanConsume, Transition, StepsAt, stepped_by};
ghost use Rattle.target_decision.specs.Carry.{CanCarry, brought_by, tags_after, with_own};
ghost use Rattle.target_decision.specs.Decision.{CanPerform, is_end};
ghost use Rattle.target_decision.specs.World.{connections_max, world_in};
ghost use Rattle.target_core.specs.Target.{free_number, is_ended_at, is_incomplete, open_fault, output_at, room_at, IsNewTarget, IsOver, ReceivesAt, TakenAt};
ghost use Rattle.target_history.specs.Event.{edited, given_up, opened, ticked};
ghost use Rattle.target_state.specs.Views.{AreViewsOf, ShowFirst};

use crate::connection::Connection;
use crate::disks::{are_disks, promise_of, stores_over, units_of};
use crate::fault::{NoConn, OpenFault, StepFault, Stepped};
use crate::settle::{settle, tell};
use block_store::{Disk, Faithful, Store};
use data_transfer::Transfers;
use nvt_config::{Config, Edit, EditFault, NewFault};
use pdu_cut::{Cut, OfTarget, Stream};
use std::alloc::{AllocError, Global};
use std::marker::Model;
use tables::NumberTable;
use target_decision::{
    CONNECTIONS_MAX, Decision, OwnTransfers, WaitingCommand, World, consumed_of, decide, new_row,
};
use target_history::EndCause;
use target_state::{ControllerTables, Views, consequence_of};

/// A target. It serves up to 64 connections, each by the least number that was free when it was
/// opened, and up to 32 controllers.
pub struct Target<D: Disk> {
    alloc: Global,
    config: Config,
    views: Views,
    clock: u64,
    streams: NumberTable<Stream<OfTarget>>,
    connections: NumberTable<Connection>,
    transfers: Transfers<WaitingCommand>,
    controllers: ControllerTables,
    stores: Vec<Store<D>>,
}

// Written out, and not derived, so that whoever lets a target fall proves one call.
impl<D: Disk + Drop> Drop for Target<D> {
    fn drop(self) {
        let Target {
            alloc: _,
            config,
            views,
            clock: _,
            streams,
            connections,
            transfers,
            controllers,
            stores,
        } = self;
        drop(config);
        drop(views);
        drop(streams);
        drop(connections);
        drop(transfers);
        drop(controllers);
        drop(stores);
    }
}

impl<D: Disk> Model for Target<D> {
    ghost use Rattle.target_core.specs.Target.{IsSound, TargetState};

    ghost Value = { TargetState };

    ghost view = { λ t. record {
      config = t.config;
      shown = t.views.shown;
      formed = t.views.formed;
      clock = t.clock;
      streams = t.streams;
      connections = t.connections;
      transfers = t.transfers;
      rows = t.controllers.rows;
      controllers = t.controllers.own;
      disks = t.stores.items;
    } };

    ghost invariant = { λ t. IsSound t.config t.views t.stores.items t.streams t.connections };
}

// What each call promises is in two parts: what becomes of the target's own state, exactly, and that
// the target goes on to agree with the history of all events, longer by the call's own.
impl<D: Disk + Drop> Target<D> {
    /// A target over these disks, with no port and no connection. Answers `Disks` for more than 256
    /// disks or one of more than 2^40 units, and then `Memory`; the disks are dropped then.
    pub fn new(alloc: Global, disks: Vec<D>) -> Result<Target<D>, NewFault>
        ensures ok { IfOk result (IsNewTarget (map D.contents disks.items)) }
        ensures accepted { OnTrue (are_disks (map length (map D.contents disks.items)))
            (IsOkUnless result NewFault.Memory) }
        ensures refused { OnFalse (are_disks (map length (map D.contents disks.items)))
            (result ≡ Err NewFault.Disks) }
        ensures agrees { IfOk result (λ target.
            Agrees target (map D.contents disks.items) [] nothing nothing) }
    {
        if !are_disks(&disks) {
            return Err(NewFault::Disks);
        }
        match Target::with_disks(alloc, disks) {
            Ok(target) => Ok(target),
            Err(AllocError) => Err(NewFault::Memory),
        }
    }

    pub fn config(&self) -> &Config
        ensures { result.now ≡ self.now.config }
    {
        &self.config
    }

    /// The allocator that it takes its memory from.
    pub fn allocator(&self) -> Global {
        self.alloc
    }

    /// How many records of the discovery log page were formed, or the greatest number of 64 bits where
    /// they are more.
    pub fn formed(&self) -> u64
        ensures { result ≡ self.now.formed }
    {
        self.views.formed()
    }

    /// Whether a connection of this number is known: opened, and not given up.
    pub fn is_known(&self, k: usize) -> bool
        ensures known { result ≡ is_some (place self.now.connections k) }
        ensures most { length self.now.connections ≡ connections_max }
    {
        self.connections.get(k).is_some()
    }

    /// Makes the edit, or says why not. It forms no more records of the discovery log page than it reaches.
    /// After a refusal, `Memory` included, the target is as it was, and no record was formed.
    pub fn edit(&mut self, edit: &Edit) -> Result<(), EditFault>
        ensures ok { OnOk result (accept self.old.config edit.now ≡ Ok self.new.config) }
        ensures transition { OnOk result (Transition (edited edit.now) self.old self.new) }
        ensures accepted { OnOk (accept self.old.config edit.now)
            (IsOkUnless result EditFault.Memory) }
        ensures refused { IfErr (accept self.old.config edit.now) (λ fault. result ≡ Err fault) }
        ensures err { OnErr result (self.new ≡ self.old) }
        ensures reach { self.new.formed ≤ self.old.formed + reach self.old.config edit.now }
        ensures agrees { EditAgrees edit.now self.old result self.new }
    {
        self.config.check(edit)?;
        self.commit_edit(edit)?;
        Ok(())
    }

    /// Opens a connection on a port, and returns its number, the least that is free. After a refusal,
    /// `Memory` included, the target is as it was.
    #[tactic(auto, using(crate::proofs::Places::stream_free, crate::proofs::Places::open_is_target, tables::proofs::NumberTables::laws, crate::proofs::Moving::open_moves))]
    pub fn open(&mut self, port: u16) -> Result<usize, OpenFault>
        ensures refused { MatchOption (open_fault self.old port)
            (IsOkUnless result OpenFault.Memory) (λ fault. result ≡ Err fault) }
        ensures opened { IfOk result (λ k.
            (free_number self.old ≡ Some k) × Transition (opened port k) self.old self.new) }
        ensures number { IfOk result (λ k. k < connections_max) }
        ensures err { OnErr result (self.new ≡ self.old) }
        ensures agrees { OpenAgrees port self.old result self.new }
    {
        if self.config.port(port).is_none() {
            return Err(OpenFault::NoSuchPort);
        }
        let Some(k) = self.connections.least_free() else {
            return Err(OpenFault::Full);
        };
        match Stream::new(self.alloc) {
            Ok(stream) => {
                self.streams.put(k, stream);
                self.connections.put(k, Connection::new(self.alloc, port));
                self.transfers.drop_queue(k);
                Ok(k)
            }
            Err(AllocError) => Err(OpenFault::Memory),
        }
    }

    /// How many bytes the connection may receive: 32,768 less those it holds, and none where it is
    /// ended or not known.
    pub fn room(&self, k: usize) -> usize
        ensures { result ≡ room_at (place self.now.streams k) (place self.now.connections k) }
    {
        room_of(self.streams.get(k), self.connections.get(k))
    }

    /// Takes as many of the piece's first bytes as there is room for, and returns their number. A
    /// number that is not known is refused, and changes nothing.
    #[tactic(auto, using(crate::proofs::Places::stream_is_target))]
    pub fn receive(&mut self, k: usize, piece: &[u8]) -> Result<usize, NoConn>
        ensures receives { ReceivesAt k (place self.old.streams k) (place self.old.connections k)
            self.old piece.now result self.new }
        ensures agrees { ReceiveAgrees k piece.now self.old result self.new }
    {
        let Some(connection) = self.connections.get(k) else {
            return Err(NoConn);
        };
        let Some(stream) = self.streams.get_mut(k) else {
            return Err(NoConn);
        };
        if connection.is_ended() {
            return Ok(0);
        }
        Ok(stream.receive(piece))
    }

    /// Takes one PDU of the connection's stream, or the fault in its place. After a refusal, `Memory`
    /// included, and after Idle, the target is as it was.
    #[tactic(auto, using(crate::proofs::Fronts::head_bound, crate::proofs::Fronts::front_within))]
    pub fn step(&mut self, k: usize) -> Result<Stepped, StepFault>
        ensures err { OnErr result (self.new ≡ self.old) }
        ensures steps { StepsAt k (place self.old.streams k) (place self.old.connections k)
            self.old result self.new }
        ensures agrees { StepAgrees k self.old result self.new }
    {
        let stream = self.streams.get(k).ok_or(StepFault::NoConn)?;
        let connection = self.connections.get(k).ok_or(StepFault::NoConn)?;
        if connection.is_ended() {
            return Ok(Stepped::Idle);
        }
        let front = stream.peek();
        if is_incomplete(&front) {
            return Ok(Stepped::Idle);
        }
        let before = connection.state();
        let session = before.session;
        let pages = self.views.pages();
        let world = self.controllers.world(&pages, &self.config);
        let own = OwnTransfers {
            transfers: &self.transfers,
            connection: k,
        };
        let decision = decide(&world, before, &own, &front);
        let len = consumed_of(&front);
        let row = new_row(self.alloc, before.port, &decision, &front)?;
        act(
            &mut self.connections,
            &mut self.stores,
            &mut self.transfers,
            k,
            &world,
            &decision,
            &front,
        )?;
        consume(&mut self.streams, k, len);
        settle(
            &mut self.connections,
            &mut self.transfers,
            &mut self.controllers,
            &self.config,
            &EndCause::of_decision(&session, &decision),
        );
        self.controllers
            .change(self.clock, &consequence_of(&decision), row);
        Ok(stepped(&decision))
    }

    /// What the connection has to send and was not taken; nothing where it is not known.
    pub fn output(&self, k: usize) -> &[u8]
        ensures { result.now ≡ output_at (place self.now.connections k) }
    {
        match self.connections.get(k) {
            Some(connection) => connection.output(),
            None => &[],
        }
    }

    /// Takes the first `len` bytes of the connection's output away.
    #[tactic(auto, using(crate::proofs::Places::connection_is_target, crate::proofs::Calls::taken_keeps))]
    pub fn taken(&mut self, k: usize, len: usize)
        requires { len ≤ length (output_at (place self.old.connections k)) }
        ensures taken { TakenAt k (place self.old.connections k) self.old len self.new }
        ensures agrees { TakenAgrees k len self.old self.new }
    {
        if let Some(connection) = self.connections.get_mut(k) {
            connection.taken(len);
        }
    }

    /// Whether the connection is known and ended: nothing more of its stream is consumed or added to
    /// its output.
    pub fn ended(&self, k: usize) -> bool
        ensures value { result ≡ is_ended_at (place self.now.connections k) }
        ensures agrees { EndedAgrees k self.now result }
    {
        match self.connections.get(k) {
            Some(connection) => connection.is_ended(),
            None => false,
        }
    }

    /// Gives the connection up, with all that is its own: as an admin queue its controller too, whose
    /// I/O connections end. Its number is free again. A number that is not known changes nothing.
    pub fn end(&mut self, k: usize)
        ensures transition { MatchOption (place self.old.connections k) (self.new ≡ self.old)
            (λ c. Transition (given_up k) self.old self.new) }
        ensures agrees { EndAgrees k self.old self.new }
    {
        let Some(connection) = self.connections.get(k) else {
            return;
        };
        let cause = EndCause::of_loss(&connection.state().session);
        settle(
            &mut self.connections,
            &mut self.transfers,
            &mut self.controllers,
            &self.config,
            &cause,
        );
        drop(self.streams.remove(k));
        drop(self.connections.remove(k));
        self.transfers.drop_queue(k);
    }

    /// Sets the clock, in ms, which never goes back, and ends each controller whose Keep Alive Timer
    /// has run out.
    pub fn tick(&mut self, now_ms: u64)
        ensures transition { Transition (ticked now_ms) self.old self.new }
        ensures agrees { AgreesAfter (ticked now_ms) self.old self.new }
    {
        self.clock = self.clock.max(now_ms);
        settle(
            &mut self.connections,
            &mut self.transfers,
            &mut self.controllers,
            &self.config,
            &EndCause::Clock(self.clock),
        );
    }

    #[tactic(auto, using(crate::proofs::Units::sizes_are, crate::proofs::Units::is_new))]
    fn with_disks(alloc: Global, disks: Vec<D>) -> Result<Target<D>, AllocError>
        requires { are_disks (map length (map D.contents disks.items)) ≡ true }
        ensures { IfOk result (IsNewTarget (map D.contents disks.items)) }
    {
        let units = units_of(alloc, &disks)?;
        let stores = stores_over(alloc, disks)?;
        match Config::new(alloc, &units) {
            Ok(config) => Target::over(alloc, config, stores),
            Err(_) => Err(AllocError),
        }
    }

    fn over(alloc: Global, config: Config, stores: Vec<Store<D>>) -> Result<Target<D>, AllocError>
        requires { config.units ≡ sizes stores.items }
        ensures { IfOk result (IsOver config stores.items) }
    {
        match Parts::new(alloc, &config) {
            Ok(
                Parts {
                    streams,
                    connections,
                    transfers,
                    controllers,
                    views,
                },
            ) => Ok(Target {
                alloc,
                config,
                views,
                clock: 0,
                streams,
                connections,
                transfers,
                controllers,
                stores,
            }),
            Err(AllocError) => Err(AllocError),
        }
    }

    // Makes an edit that is accepted. It takes the configuration over, ends what the edit ends, tells the
    // hosts of the controllers that stay, and takes the views over last. It takes all memory first, that of
    // the views last, so that no record is formed where memory runs out.
    fn commit_edit(&mut self, edit: &Edit) -> Result<(), AllocError>
        requires { IsOk (accept self.old.config edit.now) }
        ensures ok { OnOk result (accept self.old.config edit.now ≡ Ok self.new.config) }
        ensures transition { OnOk result (Transition (edited edit.now) self.old self.new) }
        ensures err { OnErr result (self.new ≡ self.old) }
    {
        edit.promise();
        let change = self.config.prepare(edit)?;
        let (change, plans) = both(change, self.views.prepare(&self.config, edit))?;
        self.config.commit(change);
        settle(
            &mut self.connections,
            &mut self.transfers,
            &mut self.controllers,
            &self.config,
            &EndCause::of_edit(edit),
        );
        let planned = self.views.planned(&plans);
        tell(&mut self.connections, &self.controllers, &planned);
        self.views.commit(plans);
        Ok(())
    }
}

// Over disks whose reads find what was written. What is read is then what the history says that was written.
impl<D: Faithful + Drop> Target<D> {
    /// What such disks promise: no read of them found other bytes than were written. It asks each disk, and does nothing
    /// else: its contract is for who proves what follows.
    pub fn promise(&self)
        ensures { AreFaithful self.now.disks }
    {
        promise_of(&self.stores);
    }

    /// `step`, over such disks: whatever history the target agrees with, it agrees with the longer one, at whose event the
    /// disks found no other bytes. It costs a look at each disk more than `step`, which does the same.
    #[tactic(auto, using(crate::proofs::Faithfulness::step_faithfully))]
    pub fn step_faithfully(&mut self, k: usize) -> Result<Stepped, StepFault>
        ensures err { OnErr result (self.new ≡ self.old) }
        ensures steps { StepsAt k (place self.old.streams k) (place self.old.connections k)
            self.old result self.new }
        ensures agrees { FaithfulStepAgrees k self.old result self.new }
    {
        self.promise();
        let result = self.step(k);
        self.promise();
        result
    }
}

// What a target makes beside its configuration and its disks.
struct Parts {
    streams: NumberTable<Stream<OfTarget>>,
    connections: NumberTable<Connection>,
    transfers: Transfers<WaitingCommand>,
    controllers: ControllerTables,
    views: Views,
}

impl Parts {
    // What there is before the first connection. The views, which are the deepest, come last.
    fn new(alloc: Global, config: &Config) -> Result<Parts, AllocError>
        ensures streams { IfOk result (λ parts. parts.streams ≡ replicate connections_max None) }
        ensures connections { IfOk result (λ parts.
            parts.connections ≡ replicate connections_max None) }
        ensures transfers { IfOk result (λ parts. Stand parts.transfers no_parts) }
        ensures rows { IfOk result (λ parts. parts.controllers.rows ≡ no_controllers) }
        ensures own { IfOk result (λ parts.
            parts.controllers.own ≡ replicate controller_places None) }
        ensures views { IfOk result (λ parts. ShowFirst config.now parts.views.shown) }
        ensures of { IfOk result (λ parts. AreViewsOf config.now parts.views) }
        ensures formed { IfOk result (λ parts.
            parts.views.formed ≤ length (catalog_of config.now)) }
    {
        Ok(Parts {
            streams: NumberTable::new(alloc, CONNECTIONS_MAX)?,
            connections: NumberTable::new(alloc, CONNECTIONS_MAX)?,
            transfers: Transfers::new(alloc)?,
            controllers: ControllerTables::new(alloc)?,
            views: Views::new(alloc, config)?,
        })
    }
}

// Both, where the second is there. What drops the first is proved for any type, and not of each kind of
// change.
fn both<A: Drop, B: Drop>(first: A, second: Result<B, AllocError>) -> Result<(A, B), AllocError>
    ensures { MatchResult second (λ b. result ≡ Ok (first, b)) (λ error. result ≡ Err error) }
{
    match second {
        Ok(second) => Ok((first, second)),
        Err(error) => Err(error),
    }
}

fn room_of(stream: Option<&Stream<OfTarget>>, connection: Option<&Connection>) -> usize
    ensures { result ≡ room_at (option_copied stream.entry) (option_copied connection.entry) }
{
    match (stream, connection) {
        (Some(stream), Some(connection)) if !connection.is_ended() => stream.room(),
        _ => 0,
    }
}

fn is_incomplete(front: &Cut<'_>) -> bool
    ensures { result ≡ is_incomplete (front_shown front.now) }
{
    matches!(front, Cut::More)
}

// Does what was decided to its own connection, where that is known, with these disks and its transfers.
// The connection is looked up again: until it was decided, its table was lent to be read.
fn act<D: Disk>(
    connections: &mut NumberTable<Connection>,
    stores: &mut Vec<Store<D>>,
    transfers: &mut Transfers<WaitingCommand>,
    k: usize,
    world: &World<'_>,
    decision: &Decision,
    front: &Cut<'_>,
) -> Result<(), AllocError>
    requires carries { CanCarry k transfers.old decision.now (front_shown front.now) }
    requires performs { let brought = brought_by (part_at transfers.old k) decision.now (front_shown front.now) in
        CanPerform (sizes stores.old.items) decision.now brought (front_shown front.now) }
    ensures acts { let brought = brought_by (part_at transfers.old k) decision.now (front_shown front.now) in
        OnOk result (ActsAt k (world_in world.now) decision.now (front_shown front.now) brought
        (place connections.old k) connections.old connections.new stores.old.items stores.new.items) }
    ensures parts { let tags = tags_after decision.now (front_shown front.now) (part_at transfers.old k) in
        OnOk result (MatchOption (place connections.old k) (transfers.new ≡ transfers.old)
        (λ c. Stand transfers.new (with_own (part_at transfers.old) k tags))) }
    ensures err { OnErr result ((connections.new ≡ connections.old)
        × (stores.new.items ≡ stores.old.items) × (transfers.new ≡ transfers.old)) }
{
    let Some(connection) = connections.get_mut(k) else {
        return Ok(());
    };
    connection.act(world, stores, transfers, k, decision, front)
}

// Takes the first `len` bytes of its own stream, where that is known. The front lent them until now.
fn consume(streams: &mut NumberTable<Stream<OfTarget>>, k: usize, len: usize)
    requires { CanConsume len (place streams.old k) }
    ensures { ActedAt k (drop len) (place streams.old k) streams.old streams.new }
{
    if let Some(stream) = streams.get_mut(k) {
        stream.consume(len);
    }
}

fn stepped(decision: &Decision) -> Stepped
    ensures { result ≡ stepped_by (is_end decision.now) }
{
    if decision.is_end() {
        Stepped::Ended
    } else {
        Stepped::One
    }
}
