//! Tests of a host's queue, through its public calls: random walks of a controller, and texts that no program prints.
#![tactic(auto)]

#[cfg(test)]
mod texts;
#[cfg(test)]
mod walk;
