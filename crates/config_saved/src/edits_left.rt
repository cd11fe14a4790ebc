//! How far a walk over the saved edits of a configuration is.
ghost use Rattle.std.specs.Prelude.{◌≡◌};
ghost use Rattle.nvt_config.specs.Configuration.{Configuration};
ghost use Rattle.config_saved.specs.Saved.{saved_edits};
ghost use Rattle.config_saved.specs.Walk.{TakesFirst, edits_left};

use crate::items_over::ItemsOver;
use config_lists::Edit;
use nvt_config::Config;
use std::alloc::AllocError;

/// How far a walk over the saved edits of a configuration is. It does not hold the configuration, so that
/// whoever owns one can walk over it.
#[derive(Drop)]
pub(crate) struct EditsLeft {
    // The second edit of the item whose first was taken.
    due: Option<Edit>,
    items: ItemsOver,
}

impl EditsLeft {
    /// All are left.
    pub(crate) fn all() -> EditsLeft
        ensures { (config : Configuration) → edits_left config result ≡ saved_edits config }
    {
        EditsLeft {
            due: None,
            items: ItemsOver::none(),
        }
    }

    /// The next edit of the configuration that the walk goes over, with its own copies of what it names; none
    /// where all were taken. Where no memory is for them, the edit is the next one still.
    pub(crate) fn next(&mut self, config: &Config) -> Result<Option<Edit>, AllocError>
        ensures { TakesFirst (edits_left config.now self.old) (edits_left config.now self.new) result }
    {
        if let Some(edit) = self.due.take() {
            return Ok(Some(edit));
        }
        match self.items.next(config)? {
            Some(edits) => {
                self.due = edits.second;
                Ok(Some(edits.first))
            }
            None => Ok(None),
        }
    }
}
