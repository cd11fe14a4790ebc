//! The commands of the target's program, over files, the standard output and sockets: `run` serves a target that a file
//! of edits configured, `replay` plays a script, `check` applies a file of edits and serves nothing. What their
//! arguments ask for, and the exit status that says how they ended, stand here too. It reads no command line.
#![tactic(auto)]

mod check_arguments;
mod checking;
mod command_fault;
mod disks;
mod explained;
mod files;
mod replay_arguments;
pub mod replaying;
mod serve_arguments;
mod served_disk;
pub mod serving;
mod status;

pub use check_arguments::CheckArguments;
pub use checking::check;
pub use command_fault::CommandFault;
pub use disks::DiskArgument;
pub use edit_lines::ReplayFault;
pub use files::{read_file, read_file_into};
pub use replay_arguments::ReplayArguments;
pub use serve_arguments::ServeArguments;
pub use status::exit_status;
