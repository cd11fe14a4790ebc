//! How the places of what a host is shown are found.

/// How the places of the records that a host is shown are found in a catalog.
#[derive(Clone, Copy)]
pub(crate) enum Finding {
    /// They are looked for.
    Sought,
    /// They are where they were before.
    Kept,
}
