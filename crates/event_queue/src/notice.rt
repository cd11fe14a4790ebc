//! How far a host was told of one kind of events.

/// How far a host was told of what an event of one kind tells.
#[derive(Clone, Copy, PartialEq, Eq)]
pub enum Notice {
    /// Nothing has changed that the host could not have read.
    Quiet,
    /// Something has changed, and the next request is completed by it.
    Pending,
    /// A request was completed by it, and the host has not read the log page yet.
    Reported,
}

/// One kind of events: whether its bit of Asynchronous Event Configuration is set, and how far the
/// host was told.
#[derive(Clone, Copy, PartialEq, Eq)]
pub struct KindState {
    pub enabled: bool,
    pub notice: Notice,
}
