//! Lines of edits, made on a target: each is made whole, or refused with a reply and nothing changed. A target
//! that the lines of a file configured, or the configuration alone. And the lines of a replay: those of a script, read,
//! those that it prints, and why it ends.
#![tactic(auto)]

pub mod checked;
pub mod configured;
mod disks;
pub mod fault;
pub mod line;
pub mod print;
pub mod reply;
pub mod stream_line;
pub mod writes;

pub use checked::configuration;
pub use configured::{configure, configure_over};
pub use fault::ReplayFault;
pub use line::{NotMade, make_line};
pub use print::{Printer, written};
pub use reply::{Reply, text_of_refusal};
pub use stream_line::{StreamLine, read_stream_line};
