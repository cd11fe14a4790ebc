//! The disks that the words of a command ask for.

use crate::command_line::DISKS_MAX;
use clap::ArgMatches;
use program_words::{number, numbers_of};
use std::alloc::{AllocError, Global};
use target_programs::DiskArgument;

/// The size of each disk in memory, in units: as many of one size as `--disks` and `--units` say, or one of each size
/// that `--memory` gives. None where the words ask for no disks that there may be.
pub fn memory_sizes(
    alloc: Global,
    matches: &ArgMatches<'_>,
) -> Result<Option<Vec<u64>>, AllocError> {
    match matches.get_strs("memory") {
        Some(words) if words.len() <= DISKS_MAX as usize => numbers_of(alloc, words),
        Some(_) => Ok(None),
        None => one_size(alloc, matches),
    }
}

/// Each disk: as many in memory of one size, or one for each `--memory` and `--file`, in their order.
pub fn each_disk(
    alloc: Global,
    matches: &ArgMatches<'_>,
) -> Result<Option<Vec<DiskArgument>>, AllocError> {
    if matches.get_strs("memory").is_some() || matches.get_strs("file").is_some() {
        return in_order(alloc, matches);
    }
    match one_size(alloc, matches)? {
        Some(sizes) => {
            let mut disks = Vec::new(alloc);
            for units in sizes {
                disks.push(DiskArgument::Memory(units))?;
            }
            Ok(Some(disks))
        }
        None => Ok(None),
    }
}

fn one_size(alloc: Global, matches: &ArgMatches<'_>) -> Result<Option<Vec<u64>>, AllocError> {
    match (number(matches, "disks"), number(matches, "units")) {
        (Some(disks), Some(units)) => Ok(Some(vec![in alloc; units; disks as usize]?)),
        _ => Ok(None),
    }
}

// The disks of `--memory` and `--file`, by their places among the words.
fn in_order(
    alloc: Global,
    matches: &ArgMatches<'_>,
) -> Result<Option<Vec<DiskArgument>>, AllocError> {
    let Some(sizes) = numbers_of(alloc, matches.get_strs("memory").unwrap_or_default())? else {
        return Ok(None);
    };
    let paths = matches.get_strs("file").unwrap_or_default();
    let count = sizes.len().saturating_add(paths.len());
    if count > DISKS_MAX as usize {
        return Ok(None);
    }
    let mut disks = Vec::new(alloc);
    // How many of either kind are there already.
    let (mut memory, mut files) = (0usize, 0usize);
    for _ in 0..count {
        let is_file = place(matches, "file", files) < place(matches, "memory", memory);
        match (is_file, sizes.get(memory), paths.get(files)) {
            (true, _, Some(path)) => {
                disks.push(DiskArgument::File(String::from_str(alloc, path)?))?;
                files = files.saturating_add(1);
            }
            (false, Some(units), _) => {
                disks.push(DiskArgument::Memory(*units))?;
                memory = memory.saturating_add(1);
            }
            _ => {}
        }
    }
    Ok(Some(disks))
}

// The place among the words of an option's value of this number, behind all others where there is none.
fn place(matches: &ArgMatches<'_>, name: &str, number: usize) -> usize {
    let places = matches.indices_of(name).unwrap_or_default();
    places.get(number).copied().unwrap_or(usize::MAX)
}
