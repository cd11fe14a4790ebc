//! Tests of serving, over ports in memory: that what a target has to send is given, and in which turn, whichever slot fails;
//! and that what has ended is given up. The expected bytes are typed from the formats of NVMe over TCP.

mod cuts;
mod ends;
mod failing;
mod pdus;
mod turns;
