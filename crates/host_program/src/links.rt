//! The links of a command that needs two queues.

/// Two links to one controller.
#[derive(Drop)]
pub struct HostLinks<A, L> {
    /// For its admin queue.
    pub admin: A,
    /// For an I/O queue.
    pub io: L,
}
