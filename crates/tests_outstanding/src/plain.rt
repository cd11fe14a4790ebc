//! A plain program for a target with many commands outstanding at once, on several I/O queues of several
//! controllers. It keeps lists, reads the bytes of each PDU and each edit itself, and says what is owed to each:
//! which status, which data, under which tag data are asked for, what every disk holds then, and which
//! connections end. What it expects is typed from the formats and the rules of NVMe over TCP.

mod answers;
mod blocks;
mod bytes;
mod changes;
mod pdus;
mod places;
mod plain;
mod seen;

pub use blocks::{disk_len, finish};
pub use bytes::part;
pub use changes::{Change, Layout, Namespace, UNITS, line_of};
pub use pdus::{
    COMPARE, Command, FLUSH, Head, IN_CAPSULE, READ, TRANSPORT, WRITE, WRITE_ZEROES,
    begin_h2c_data, begin_io_capsule, configure, connect, ic_req, term_req,
};
pub use places::{CONTROLLERS, QUEUES, admin_of, place_of, qid_of};
pub use plain::{Controller, Plain, Transfer};
pub use seen::{NOTHING_SEEN, Seen};
