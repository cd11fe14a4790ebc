//! Tests of the foundations, through their public calls: a table of numbers, disks that fail, that stray
//! and that take their memory in pieces, and disks in files. Memory that is refused is tested in
//! `tests_growths`.
#![tactic(auto)]

#[cfg(test)]
mod checked;
#[cfg(test)]
mod counts;
#[cfg(test)]
mod faults;
#[cfg(test)]
mod files;
#[cfg(test)]
mod pieces;
#[cfg(test)]
mod random;
#[cfg(test)]
mod strays;
#[cfg(test)]
mod table;
