//! The controllers that live, by their identifiers.
ghost use Rattle.std.specs.Prelude.{◌≡◌, ◌+◌, ◌<◌, ◌∷◌, [], IfOk, IfSome, MatchOption, is_none};
ghost use Rattle.std.specs.Prelude.{length};
ghost use Rattle.std.specs.Option.{option_copied};
ghost use Rattle.tables.specs.NumberTable.{place, with_value, without};
ghost use Rattle.fabrics_connect.specs.Controllers.{CanBegin, ChangedAt, free_cntlid};
ghost use Rattle.fabrics_connect.specs.Controllers.{live_from, live_rows, no_controllers};
ghost use Rattle.fabrics_connect.specs.Row.{joined, left, left_all, with_ready};

use crate::queue_ids::QueueIds;
use crate::row::Row;
use crate::walk::Walk;
use std::alloc::{AllocError, Global};
use std::marker::Model;
use tables::NumberTable;

/// The most controllers at a time.
pub const CONTROLLERS_MAX: u16 = 32;

// A place for each identifier up to the greatest, and for 0.
const PLACES: usize = 33;

/// A row for each controller that lives, under its identifier: 1 to 32, since 0 is never given.
#[derive(Debug, Drop)]
pub struct Controllers {
    rows: NumberTable<Row>,
}

impl Model for Controllers {
    ghost use Rattle.std.specs.Prelude.{List, Option};
    ghost use Rattle.fabrics_connect.specs.declared.row.Row.{Row};
    ghost use Rattle.fabrics_connect.specs.Controllers.{AreControllers};

    ghost Value = { List (Option Row) };

    ghost view = { λ c. c.rows };

    ghost invariant = { λ c. AreControllers c.rows };
}

impl Controllers {
    /// No controller. No later call takes memory.
    pub fn new(alloc: Global) -> Result<Controllers, AllocError>
        ensures { IfOk result (λ controllers. controllers ≡ no_controllers) }
    {
        Ok(Controllers {
            rows: NumberTable::new(alloc, PLACES)?,
        })
    }

    /// The controller of that identifier, if it is there.
    pub fn get(&self, cntlid: u16) -> Option<&Row>
        ensures { option_copied result ≡ place self.now cntlid }
    {
        self.rows.get(usize::from(cntlid))
    }

    /// The least identifier from 1 to 32 that no controller has, if there is one.
    #[tactic(auto, unfolding(crate::specs::Controllers::free_cntlid))]
    pub fn free_cntlid(&self) -> Option<u16>
        ensures { result ≡ free_cntlid (λ c. place self.now c) }
    {
        (1..CONTROLLERS_MAX + 1).find(|cntlid| self.is_free(*cntlid))
    }

    fn is_free(&self, cntlid: u16) -> bool
        ensures { result ≡ is_none (place self.now cntlid) }
    {
        self.get(cntlid).is_none()
    }

    /// The controllers that live, one after the other, by rising identifier.
    pub fn iter(&self) -> Walk<'_>
        ensures { result ≡ live_rows self.now }
    {
        Walk::new(self)
    }

    /// The controller of this identifier, or else the one of the next above it.
    pub(crate) fn first_from(&self, from: u16) -> Option<&Row>
        ensures row { MatchOption result (live_from self.now from ≡ [])
            (λ row. live_from self.now from ≡ row.now ∷ live_from self.now (row.now.cntlid + 1)) }
        ensures within { IfSome result (λ row. row.now.cntlid < 33) }
    {
        for next in from..PLACES as u16 {
            if let Some(row) = self.rows.get(usize::from(next)) {
                return Some(row);
            }
        }
        None
    }

    /// Puts a controller under its identifier, which is free. It takes no memory.
    pub fn put(&mut self, row: Row)
        requires { CanBegin self.old row.cntlid }
        ensures row { self.new ≡ with_value self.old row.cntlid row }
        ensures within { row.cntlid < length self.old }
    {
        self.rows.put(usize::from(row.cntlid), row);
    }

    /// Takes the controller of that identifier away, if it is there.
    pub fn remove(&mut self, cntlid: u16)
        ensures { self.new ≡ without self.old cntlid }
    {
        let _ = self.rows.remove(usize::from(cntlid));
    }

    /// Says whether the controller of that identifier, if it is there, is ready.
    pub fn set_ready(&mut self, cntlid: u16, ready: bool)
        ensures { ChangedAt cntlid (with_ready ready) (place self.old cntlid) self.old self.new }
    {
        if let Some(row) = self.rows.get_mut(usize::from(cntlid)) {
            row.ready = ready;
        }
    }

    /// Adds an I/O queue to the controller of that identifier, if it is there. A queue identifier
    /// past 8 changes nothing.
    pub fn join(&mut self, cntlid: u16, qid: u16)
        ensures { ChangedAt cntlid (joined qid) (place self.old cntlid) self.old self.new }
    {
        if let Some(row) = self.rows.get_mut(usize::from(cntlid)) {
            row.qids.insert(qid);
        }
    }

    /// Takes an I/O queue of the controller of that identifier away, if they are there.
    pub fn leave(&mut self, cntlid: u16, qid: u16)
        ensures { ChangedAt cntlid (left qid) (place self.old cntlid) self.old self.new }
    {
        if let Some(row) = self.rows.get_mut(usize::from(cntlid)) {
            row.qids.remove(qid);
        }
    }

    /// Takes all I/O queues of the controller of that identifier away, if it is there.
    pub fn leave_all(&mut self, cntlid: u16)
        ensures { ChangedAt cntlid left_all (place self.old cntlid) self.old self.new }
    {
        if let Some(row) = self.rows.get_mut(usize::from(cntlid)) {
            row.qids = QueueIds::none();
        }
    }
}
