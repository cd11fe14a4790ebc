//! What the command lines of programs have in common: the words of the process, a command that is declared part by part,
//! numbers among its words, and how a program ends whose words are none of its commands.
#![tactic(auto)]

mod declared;
mod given;
mod numbers;

pub use declared::{port_option, turns, with, with_command};
pub use given::{ArgumentsRefusal, parsed, refusal_of, take_words};
pub use numbers::{number, numbers_of};
