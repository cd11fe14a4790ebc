//! The reads of a discovery log page.

/// A part of the discovery log page that is to be read (Base 2.0, section 5.16, Get Log Page, of log page
/// 70h: section 5.16.1.23).
#[derive(Clone, Copy, Debug, PartialEq, Eq)]
pub struct GetLog {
    /// Where the part begins in the page, in bytes.
    pub offset: u64,
    /// How long it is, in bytes: a multiple of 4.
    pub len: u32,
}
