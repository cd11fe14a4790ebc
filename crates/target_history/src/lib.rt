//! What happens to a target, and what a history of events makes of it: definitions that look back
//! over all that happened, in `specs/`, and laws of them. What ends connections from elsewhere is a
//! type that the target's code shares.
#![tactic(auto)]

mod end_cause;
pub mod lasting_laws;
pub mod laws;
pub mod own_laws;

pub use end_cause::EndCause;
