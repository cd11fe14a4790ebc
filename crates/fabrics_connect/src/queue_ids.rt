//! The I/O queues of a controller, by their identifiers.
ghost use Rattle.std.specs.Prelude.{◌≡◌, true, false, slice_index_or, slice_set};
ghost use Rattle.fabrics_connect.specs.QueueIds.{no_queues};

use std::marker::Model;

/// The greatest identifier of an I/O queue.
pub const QID_MAX: u16 = 8;

/// Which I/O queue identifiers a controller has, of 1 to 8.
#[derive(Clone, Copy, Debug, PartialEq, Eq)]
pub struct QueueIds {
    // By identifier. Place 0 is never used.
    has: [bool; 9],
}

impl Model for QueueIds {
    ghost use Rattle.std.specs.Prelude.{Bool, List};

    ghost Value = { List Bool };

    ghost view = { λ q. q.has };

    ghost inverse = { λ has. record { has = has } };
}

impl QueueIds {
    /// No queue.
    pub fn none() -> QueueIds
        ensures { result ≡ no_queues }
    {
        QueueIds { has: [false; 9] }
    }

    /// Whether the queue is there. None is past 8.
    pub fn contains(&self, qid: u16) -> bool
        ensures { result ≡ slice_index_or self.now qid false }
    {
        match self.has.get(usize::from(qid)) {
            Some(has) => *has,
            None => false,
        }
    }

    /// Adds the queue. An identifier past 8 changes nothing.
    pub fn insert(&mut self, qid: u16)
        ensures { self.new ≡ slice_set self.old qid true }
    {
        self.set(qid, true);
    }

    /// Takes the queue away. An identifier past 8 changes nothing.
    pub fn remove(&mut self, qid: u16)
        ensures { self.new ≡ slice_set self.old qid false }
    {
        self.set(qid, false);
    }

    fn set(&mut self, qid: u16, has: bool)
        ensures { self.new ≡ slice_set self.old qid has }
    {
        let at = usize::from(qid);
        if at < self.has.len() {
            self.has[at] = has;
        }
    }
}
