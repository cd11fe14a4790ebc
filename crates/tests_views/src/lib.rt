//! Tests of what hosts see of a configuration, through public calls, at random: the Asymmetric Namespace Access log page,
//! lists of active namespaces, and lists of changed ones. Memory that is refused is tested in `tests_growths`.
#![tactic(auto)]

#[cfg(test)]
mod ana;
#[cfg(test)]
mod changed;
#[cfg(test)]
mod drawn;
#[cfg(test)]
mod identify;
