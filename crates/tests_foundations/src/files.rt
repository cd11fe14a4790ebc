//! Disks in files: calls of the system that fail, that come short or that are not made.
mod checked;
mod faults;
mod opening;
mod shorts;
