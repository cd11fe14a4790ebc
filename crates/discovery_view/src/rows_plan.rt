//! What becomes of the rows of places.
use crate::ready::Ready;
use crate::table::Table;

/// What an edit will make of the rows of a view.
#[derive(Drop)]
pub(crate) enum RowsPlan {
    /// Each stays.
    Stay,
    /// The row at this place among those of hosts becomes this one.
    One(usize, Ready),
    /// All are replaced.
    All(Table),
}
