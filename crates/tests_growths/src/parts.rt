//! Memory that is refused in the parts below the target.

mod ana;
mod configs;
mod disks;
mod lists;
mod pages;
mod parts;
mod queues;
mod transfers;
mod views;
