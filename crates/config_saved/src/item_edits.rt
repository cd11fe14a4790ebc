//! The edits that add an item.

use config_lists::Edit;

/// The edits that add an item, in order.
#[derive(Drop)]
pub(crate) struct ItemEdits {
    pub(crate) first: Edit,
    pub(crate) second: Option<Edit>,
}

impl From<Edit> for ItemEdits {
    ghost use Rattle.std.specs.Prelude.{◌≡◌, None};

    ghost from_gives = { λ edit edits. edits ≡ record { first = edit; second = None } };

    fn from(edit: Edit) -> ItemEdits {
        ItemEdits {
            first: edit,
            second: None,
        }
    }
}
