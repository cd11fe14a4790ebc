//! The command `check`, from its file to the standard output.

use crate::disks::disk_sizes;
use crate::{CheckArguments, CommandFault, read_file};
use edit_lines::configuration;
use nvt_replay::written;
use std::fs::File;
use std::rt::Files;

/// Applies the edits of the file that the arguments name to disks alone, and prints `ok` where each is
/// accepted. Of disks in files only the sizes are asked.
pub fn check<R: Files<File = File> + Print + AllocGlobal>(
    rt: &R,
    arguments: &CheckArguments,
) -> Result<(), CommandFault> {
    let alloc = rt.alloc();
    let edits = read_file(rt, alloc, arguments.edits.as_str())?;
    let units = disk_sizes(rt, &arguments.disks)?;
    configuration(alloc, &edits, &units)?;
    written(println!(rt; "ok"))?;
    Ok(())
}
