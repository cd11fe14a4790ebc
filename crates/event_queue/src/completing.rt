//! The completions that an edit makes.
ghost use Rattle.std.specs.Prelude.{◌≡◌, ◌<◌, ◌≤◌, ◌++◌, length};
ghost use Rattle.event_queue.specs.Completion.{completions_in};

use crate::completion::Completion;
use arrayvec::ArrayVec;
use std::marker::Model;

// How many kinds of events there are.
const KINDS: usize = 3;

/// The completions that an edit makes, in the order in which they are sent: at most one of each kind.
#[derive(Drop)]
pub struct Completing {
    completions: ArrayVec<Completion, KINDS>,
}

impl Model for Completing {
    ghost use Rattle.std.specs.Prelude.{List};
    ghost use Rattle.event_queue.specs.declared.completion.Completion.{Completion};

    ghost Value = { List Completion };

    ghost view = { λ c. c.completions.items };
}

impl Completing {
    /// These completions, in order.
    pub fn as_slice(&self) -> &[Completion]
        ensures value { result.now ≡ self.now }
        ensures fits { length result.now ≤ 3 }
    {
        self.completions.as_slice()
    }

    // Those of the three kinds, where they are made.
    pub(crate) fn of(
        namespace: Option<Completion>,
        ana: Option<Completion>,
        discovery: Option<Completion>,
    ) -> Completing
        ensures { result
            ≡ completions_in namespace ++ (completions_in ana ++ completions_in discovery) }
    {
        let mut completing = Completing {
            completions: ArrayVec::new(),
        };
        completing.push(namespace);
        completing.push(ana);
        completing.push(discovery);
        completing
    }

    // Puts one more behind them, where it is made.
    fn push(&mut self, completion: Option<Completion>)
        requires { length self.old < 3 }
        ensures { self.new ≡ self.old ++ completions_in completion }
    {
        if let Some(completion) = completion {
            self.completions.push(completion);
        }
    }
}
