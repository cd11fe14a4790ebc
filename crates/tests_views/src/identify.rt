//! Tests of active namespace lists: those of two hosts and of a stranger while random edits are made, beside a plain filter
//! and sort.

mod followed;
mod random;
