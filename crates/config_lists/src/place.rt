//! A place of a table.
ghost use Rattle.std.specs.Prelude.{◌≡◌};
ghost use Rattle.config_lists.specs.Tables.{with_first};

/// Sets what a place has, where the table has the place and nothing is there yet.
pub(crate) fn put_first<'a, T>(table: &mut [Option<&'a T>], at: usize, item: &'a T)
    ensures { table.new ≡ with_first table.old at item.entry }
{
    if at < table.len() && table[at].is_none() {
        table[at] = Some(item);
    }
}
