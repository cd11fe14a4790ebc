//! Tests of what is outstanding on a queue, beside a plain model of it, over random draws.
#![tactic(auto)]

#[cfg(test)]
mod draws;
#[cfg(test)]
mod plain;
#[cfg(test)]
mod reads;
