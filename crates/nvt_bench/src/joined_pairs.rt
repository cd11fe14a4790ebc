//! The work of a benchmark: a host joined to a target over a disk in memory, whose I/O queue is kept full of commands.
//! It takes no time itself.

mod commands;
mod joined;
mod pair;
mod work;

pub use work::{PairWork, pair_runs};
