//! Tests of the target and of its replays, through public calls: a random walk holds two targets, whose streams are cut
//! differently, together; output that is not taken waits; a writer fails. And the texts that no program prints.
#![tactic(auto)]

#[cfg(test)]
mod random;
#[cfg(test)]
mod replays;
#[cfg(test)]
mod texts;
#[cfg(test)]
mod waiting;
#[cfg(test)]
mod walk;
