//! Where a test failed: in which row of its table, or at which step of which random script, and what was
//! wanted there and what came. A test answers an `Outcome`, whose failure is printed. The crates of tests
//! share it; no other stands on it.
#![tactic(auto)]

mod checks;
mod failure;
mod passes;

pub use checks::{Placed, check, check_bytes, check_lines, check_number, check_rows, check_steps};
pub use failure::{Failure, Outcome};
