//! The turn of one call among those of a disk for tests.
ghost use Rattle.std.specs.Prelude.{◌≡◌, Some};
ghost use Rattle.block_store.specs.Turn.{is_due, passes_after};

/// Which call is the one that a disk for tests answers in its own way.
#[derive(Drop)]
pub struct Turn {
    // How many calls pass before that one; none once it has come.
    passes: Option<u64>,
}

impl Turn {
    /// So many calls pass, the next one is that one, and all later ones pass.
    pub fn after(passes: u64) -> Turn
        ensures { result.passes ≡ Some passes }
    {
        Turn {
            passes: Some(passes),
        }
    }

    /// Counts a call, and says whether it is that one.
    pub fn comes(&mut self) -> bool
        ensures passes { self.new.passes ≡ passes_after self.old.passes }
        ensures due { result ≡ is_due self.old.passes }
    {
        match self.passes {
            None => false,
            Some(0) => {
                self.passes = None;
                true
            }
            Some(passes) => {
                self.passes = Some(passes - 1);
                false
            }
        }
    }
}
