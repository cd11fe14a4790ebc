//! A walk over the controllers that live.
ghost use Rattle.std.specs.Prelude.{◌≡◌};
ghost use Rattle.std.specs.Iterator.{YieldsFirstRef, item_count};
ghost use Rattle.fabrics_connect.specs.Controllers.{live_rows};

use crate::controllers::Controllers;
use crate::row::Row;
use std::marker::Model;

/// What is left of a walk over the controllers that live, by rising identifier. A contract sees
/// their rows.
#[derive(Drop)]
pub struct Walk<'a> {
    controllers: &'a Controllers,
    // Those below this identifier are done.
    from: u16,
}

impl<'a> Model for Walk<'a> {
    ghost use Rattle.std.specs.Prelude.{List};
    ghost use Rattle.fabrics_connect.specs.declared.row.Row.{Row};
    ghost use Rattle.fabrics_connect.specs.Controllers.{live_from};

    ghost Value = { List Row };

    ghost view = { λ w. live_from w.controllers.now w.from };
}

impl<'a> Walk<'a> {
    /// A walk over all of them.
    pub(crate) fn new(controllers: &'a Controllers) -> Walk<'a>
        ensures { result ≡ live_rows controllers.now }
    {
        Walk {
            controllers,
            from: 0,
        }
    }
}

impl<'a> Iterator for Walk<'a> {
    type Item = &'a Row;

    ghost next_gives = { YieldsFirstRef (λ left. left) };

    ghost remaining = { item_count (λ left. left) };

    fn next(&mut self) -> Option<&'a Row> {
        let row = self.controllers.first_from(self.from)?;
        self.from = row.cntlid + 1;
        Some(row)
    }
}
