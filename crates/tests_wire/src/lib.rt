//! Tests of what goes over the wire, through public calls: the transfers of data.
#![tactic(auto)]

#[cfg(test)]
mod transfers;
