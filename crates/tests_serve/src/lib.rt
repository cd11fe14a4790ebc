//! Tests of serving, through public calls: a target over ports that a test plays, and the ports themselves.
#![tactic(auto)]

#[cfg(test)]
mod ports;
#[cfg(test)]
mod served;
