//! Tests of I/O commands, from a host's capsules to the disks of a target. The expected bytes are typed
//! from the formats of NVMe over TCP. A disk fails at each of its calls in turn, one finds other bytes
//! than were written, one counts its calls, and a random run on two controllers is held together with
//! a plain list of each disk's bytes.
#![tactic(auto)]

#[cfg(test)]
mod commands;
#[cfg(test)]
mod random;
#[cfg(test)]
mod strays;
#[cfg(test)]
mod syncs;
#[cfg(test)]
mod turns;
