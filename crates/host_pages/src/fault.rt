//! Why no page is had.
ghost use Rattle.std.specs.Prelude.{◌≡◌};

use crate::BadPage;
use nvt_fields::Status;
use std::alloc::AllocError;
use thiserror::Error;

/// Why no page is had. After `Memory` the same answer may be given again; the others are final.
#[derive(Clone, Copy, Debug, PartialEq, Eq, Error)]
pub enum DiscoverFault {
    /// A read was answered with this status.
    #[error("status {:02x} {:02x}", .0.sct, .0.sc)]
    Refused(Status),
    /// An answer is no part of a page.
    #[error("bad page: {0}")]
    BadPage(BadPage),
    /// The page changed in each of eight tries.
    #[error("unsettled")]
    Unsettled,
    /// An allocation was refused.
    #[error("memory")]
    Memory,
}

impl From<AllocError> for DiscoverFault {
    ghost use Rattle.host_pages.specs.declared.fault.DiscoverFault.TheVariants as fault;

    ghost from_gives = { λ _ e. e ≡ fault.Memory };

    fn from(_: AllocError) -> DiscoverFault {
        DiscoverFault::Memory
    }
}
