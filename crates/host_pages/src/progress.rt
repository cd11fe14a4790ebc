//! How far a page is read.

/// How far a page is read.
#[derive(Clone, Copy, Debug, PartialEq, Eq)]
pub enum Progress {
    /// There is more to read.
    Asking,
    /// The page is there.
    Done,
}
