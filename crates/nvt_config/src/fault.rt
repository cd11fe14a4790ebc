//! Why there is no new configuration.

use thiserror::Error;

/// Why disks make no configuration, in the order of the answers.
#[derive(Clone, Copy, Debug, PartialEq, Eq, Error)]
pub enum NewFault {
    #[error("more than 256 disks, or a disk of more than 2^40 units")]
    Disks,
    #[error("memory")]
    Memory,
}
