//! Tests of the text of edits, through public calls: random edits are written and read back, and a configuration is
//! saved, whole and in pieces.
#![tactic(auto)]

#[cfg(test)]
mod drawn;
#[cfg(test)]
mod lines;
#[cfg(test)]
mod saved;
