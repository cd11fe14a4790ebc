//! A list with others between the first of it and the last.
ghost use Rattle.std.specs.Prelude.{◌≡◌, ◌≤◌, ◌+◌, length, vec_capacity, vec_len};
ghost use Rattle.discovery_view.specs.Plan.{spliced};

/// Puts others between the first items, as many as that, and the last. Takes no memory.
pub(crate) fn splice<T: Drop>(items: &mut Vec<T>, first: usize, fresh: Vec<T>, last: usize)
    requires fits { first + last ≤ vec_len items.old }
    requires room { vec_len items.old + length fresh.items ≤ vec_capacity items.old }
    ensures { items.new.items ≡ spliced items.old.items first fresh.items last }
{
    let passed = items.len() - last - first;
    items[first..].rotate_left(passed);
    items.truncate(first + last);
    for item in fresh {
        items.push_reserved(item);
    }
    items[first..].rotate_left(last);
}
