//! Memory that is refused in a target, in a replay and while a target is served.

mod conversation;
mod pdus;
mod replays;
mod serves;
mod targets;
mod transfers;
