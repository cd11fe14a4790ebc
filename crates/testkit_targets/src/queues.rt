//! A target over disks of a test's own, and a host on it with two controllers, each with one I/O queue: the
//! capsules that it sends, and what it is answered. Tests and a benchmark share it; no other stands on it.

mod command;
mod driver;
mod plain;
mod script;
mod transfer;

pub use command::{
    COMPARE_FAILURE, Command, Opcode, READ_ERROR, SUCCESS, WRITE_FAULT, block_len, connect_to,
    enable,
};
pub use driver::{Driver, SMALL};
pub use plain::{fill, part, put};
pub use script::{Script, holds_over};
pub use transfer::{H2C_DATA_MAX, h2c_data};
