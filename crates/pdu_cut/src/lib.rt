//! Cuts the byte stream of one NVMe over TCP connection into its PDUs. A receive buffer takes the
//! bytes in any pieces and lends the PDU at its front, or the first fault of the common header
//! there (TCP Transport 1.0, section 3.6). `Stream` is one whose side is named by its type. Nothing here
//! reads a field behind the common header, answers a fault or opens a socket.
#![tactic(auto)]

pub mod buffer;
pub mod cut;
mod header;
pub mod receiver;
pub mod side;
pub mod stream;
pub mod view;

pub use buffer::RxBuf;
pub use cut::Cut;
pub use receiver::{OfHost, OfTarget, Receiver};
pub use side::Side;
pub use stream::Stream;
pub use view::PduView;
