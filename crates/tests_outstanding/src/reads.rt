//! Random scripts with many commands outstanding at once, on several I/O queues of several controllers: a target
//! beside a plain program, which says what is owed to each PDU and each edit.

mod first;
mod random;
mod script;
mod step;
