//! Tests of what hosts are told of edits, beside plain hosts that look back over all that happened.
#![tactic(auto)]

#[cfg(test)]
mod hosts;
#[cfg(test)]
mod told;
