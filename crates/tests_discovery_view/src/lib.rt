//! Tests of the discovery view while edits are made, through its public calls, beside a plain count of its changes.
#![tactic(auto)]

#[cfg(test)]
mod changes;
#[cfg(test)]
mod followed;
#[cfg(test)]
mod formed;
#[cfg(test)]
mod plain;
#[cfg(test)]
mod random;
