//! Which of a controller's views an edit changes.

/// Which of a controller's views an edit changes. A controller has some of them: a discovery
/// controller the discovery log page, an I/O controller the two others. One that it does not have
/// does not change.
#[derive(Clone, Copy, PartialEq, Eq)]
pub struct ViewChanges {
    /// Size, block size, UUID or presence of a namespace of its subsystem.
    pub namespace: bool,
    /// Its Asymmetric Namespace Access log page.
    pub ana: bool,
    /// The discovery log page of its host.
    pub discovery: bool,
}
