//! Which connections of a target are known.
ghost use Rattle.std.specs.Prelude.{◌≡◌, ◌<◌, length, slice_index_or, false, true};
ghost use Rattle.target_core.specs.Marks.{AreMarks, SetsMark};

use crate::{CONNECTIONS_MAX, Target};
use block_store::Disk;
use std::marker::Model;

/// Which connections of a target are known: opened, and not given up. Whoever opens one or gives it up says so here.
#[derive(Drop)]
pub struct Marks {
    known: [bool; CONNECTIONS_MAX],
}

impl Model for Marks {
    ghost use Rattle.std.specs.Prelude.{List, Bool};

    ghost Value = { List Bool };

    ghost view = { λ marks. marks.known };
}

impl Marks {
    /// The marks of a target.
    pub fn of<D: Disk + Drop>(target: &Target<D>) -> Marks
        ensures { AreMarks result target.now }
    {
        let mut known = [false; CONNECTIONS_MAX];
        for k in 0..CONNECTIONS_MAX {
            known[k] = target.is_known(k);
        }
        Marks { known }
    }

    pub fn is_known(&self, k: usize) -> bool
        ensures known { result ≡ slice_index_or self.now k false }
        ensures most { length self.now ≡ 64 }
    {
        self.known.get(k).copied().unwrap_or(false)
    }

    /// The connection is opened.
    pub fn add(&mut self, k: usize)
        requires { k < 64 }
        ensures { SetsMark k true self.old self.new }
    {
        self.known[k] = true;
    }

    /// The connection is given up.
    pub fn remove(&mut self, k: usize)
        ensures { SetsMark k false self.old self.new }
    {
        if k < CONNECTIONS_MAX {
            self.known[k] = false;
        }
    }
}
