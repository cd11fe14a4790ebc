//! Tests of the Asymmetric Namespace Access log page and its change counts: random edits, beside a plain program that keeps
//! what was to be seen after each edit and looks back over it.

mod followed;
mod random;
mod seen;
