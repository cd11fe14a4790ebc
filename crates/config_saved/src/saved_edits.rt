//! The saved edits of a configuration, one after another.
ghost use Rattle.std.specs.Prelude.{◌≡◌};
ghost use Rattle.config_saved.specs.Saved.{saved_edits};
ghost use Rattle.config_saved.specs.Walk.{TakesFirst};

use crate::edits_left::EditsLeft;
use config_lists::Edit;
use nvt_config::Config;
use std::alloc::AllocError;
use std::marker::Model;

/// What is left of a walk over the saved edits of a configuration. A contract sees these edits.
#[derive(Drop)]
pub struct SavedEdits<'a> {
    config: &'a Config,
    left: EditsLeft,
}

impl<'a> Model for SavedEdits<'a> {
    ghost use Rattle.std.specs.Prelude.{List};
    ghost use Rattle.config_lists.specs.declared.edit.Edit.{Edit};
    ghost use Rattle.config_saved.specs.Walk.{edits_left};

    ghost Value = { List Edit };

    ghost view = { λ saved. edits_left saved.config.now saved.left };
}

impl<'a> SavedEdits<'a> {
    /// All of them.
    pub fn of(config: &'a Config) -> SavedEdits<'a>
        ensures { result ≡ saved_edits config.now }
    {
        SavedEdits {
            config,
            left: EditsLeft::all(),
        }
    }

    /// The next edit, with its own copies of what it names; none where all were taken. Where no memory is
    /// for them, the edit is the next one still.
    pub fn next(&mut self) -> Result<Option<Edit>, AllocError>
        ensures { TakesFirst self.old self.new result }
    {
        self.left.next(self.config)
    }
}
