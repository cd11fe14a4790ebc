//! What a controller shows.

/// What a controller shows of a configuration, by which an edit is told to it. Names are whole.
#[derive(Clone, Copy)]
pub enum Viewer<'a> {
    /// A discovery controller shows the discovery log page of its host, and nothing else.
    Discovery {
        /// The name of the host.
        host: &'a [u8],
    },
    /// An I/O controller shows the namespaces of its subsystem that its host sees, and the subsystem's
    /// ANA groups of these on its port.
    Io {
        /// The name of the host.
        host: &'a [u8],
        /// The name of the subsystem.
        subsystem: &'a [u8],
        port: u16,
    },
}
