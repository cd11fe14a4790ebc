//! The text of edits: each edit has one line, which is read and written. A line says a command with values, each of
//! which is one word. It knows no configuration, so that a line may well say an edit that is refused. The parts that
//! any reader of such files needs, lines and numbers, stand here too.
#![tactic(auto)]

mod build;
pub mod command;
pub mod edit_line;
pub mod fault;
pub mod lines;
pub mod number;
pub mod operand;
pub mod read;
mod word;
mod words;
pub mod write;

pub use command::{COMMANDS, EditCommand};
pub use edit_line::{lines_are_read_back, read_edit};
pub use fault::{LineFault, LineFaultKind};
pub use lines::{Lines, find_byte};
pub use number::read_number;
pub use operand::{Form, Operand, Operands, Scratch};
pub use read::read_words;
pub use write::{Full, write_edit};
