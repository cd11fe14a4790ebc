//! Why bytes are no page.

use thiserror::Error;

/// What is wrong with bytes that are no page, in the order in which it is looked for.
#[derive(Clone, Copy, Debug, PartialEq, Eq, Error)]
pub enum BadPage {
    #[error("the page is shorter than what it counts")]
    TooShort,
    #[error("the records have another format than 0")]
    OtherFormat,
    #[error("the page has more than 1024 records")]
    TooManyRecords,
    /// Of a page that is read in parts: an answer does not have the length that was asked for.
    #[error("the answer has another length than was asked for")]
    OtherLength,
}
