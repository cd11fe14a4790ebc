//! A target that is served: what its ports hand out goes to it, and what it sends goes to them, for so many
//! turns. It knows no socket and no clock: these are the ports'.
#![tactic(auto)]

mod asking;
mod closing;
mod connection_set;
mod giving;
pub mod laws;
mod reply;
pub mod served;
pub mod serving;
mod stepping;
mod ties;

pub use served::Served;
pub use serving::serve;
