//! Tests of the ports over sockets, without a socket: a target is served over a network whose sockets take and give
//! pieces as a script says, and whose time is counted. Nobody starves anybody: whatever some hosts read, send and leave
//! out, a good one beside them is answered soon, and each gets exactly what it is owed, or is given up when it has to be.
#![tactic(auto)]

#[cfg(test)]
mod crowds;
#[cfg(test)]
mod draws;
#[cfg(test)]
mod host;
#[cfg(test)]
mod manner;
#[cfg(test)]
mod network;
#[cfg(test)]
mod owed;
#[cfg(test)]
mod pdus;
#[cfg(test)]
mod rig;
#[cfg(test)]
mod script;
#[cfg(test)]
mod silent;
#[cfg(test)]
mod slow;
#[cfg(test)]
mod steady;
