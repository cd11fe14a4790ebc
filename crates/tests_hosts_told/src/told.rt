//! Random scripts of what hosts are told, on the admin queues of I/O and of discovery controllers beside one
//! another: event requests that wait, edits, of who sees a namespace too, reads of log pages, Identify,
//! features, resets and ends of connections, by a target beside the plain program of `hosts`.

mod draw;
mod random;
mod script;
