//! The data of commands that comes in parts: what each Ready to Transfer asked for, the bytes that its
//! H2CData brought so far, and why an H2CData is refused. All memory of a transfer is taken when it
//! begins, and its bytes are copied once, straight from where they are lent. It also says into which
//! pieces the data of a reply is split. It reads and writes no PDU (NVMe TCP Transport 1.0, section 3.3).
#![tactic(auto)]

pub mod fault;
pub mod laws;
pub mod piece;
mod queue;
pub mod transfer;
pub mod transfers;

pub use fault::DataFault;
pub use piece::{PIECE_LEN, Piece, Split, pieces};
pub use transfer::{MAX_H2C_DATA, Progress, Whole};
pub use transfers::Transfers;
