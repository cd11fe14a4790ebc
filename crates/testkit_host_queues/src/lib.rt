//! What the tests of a host's queue share: the PDUs of a controller, and what is done with a queue.
#![tactic(auto)]

pub mod pdus;
pub mod queues;
