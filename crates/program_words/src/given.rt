//! The words of the process.

use clap::error::ErrorKind;
use clap::{ArgMatches, Command, Error};
use std::alloc::AllocError;
use std::rt::Env;
use std::{env, io};

/// How a program ends whose words are none of its commands.
#[derive(Clone, Copy, Debug, PartialEq, Eq)]
pub enum ArgumentsRefusal {
    /// The help was asked for, and is printed.
    Help,
    /// The words are bad.
    Bad,
    /// The help cannot be printed.
    Io,
    /// An allocation was refused.
    Memory,
}

/// Appends the words of the process, and answers whether each of them is text.
pub fn take_words<R: Env + AllocGlobal>(
    rt: &R,
    words: &mut Vec<String>,
) -> Result<bool, AllocError> {
    let given = match env::args(rt) {
        Ok(given) => given,
        Err(error) if error.kind() == io::ErrorKind::OutOfMemory => return Err(AllocError),
        Err(_) => return Ok(false),
    };
    // `collect` would ask for room by a hint, and pass over its refusal.
    for word in given {
        words.push(word)?;
    }
    Ok(true)
}

/// What the words say of a program's command line.
pub fn parsed<'a>(
    program: Result<Command<'a>, AllocError>,
    words: &'a [String],
) -> Result<ArgMatches<'a>, Error> {
    match program {
        Ok(program) => program.try_get_matches_from(words),
        Err(AllocError) => Err(Error::from(AllocError)),
    }
}

/// How a program ends by this error of its words: prints the help, where they ask for it.
pub fn refusal_of<R: Print>(rt: &R, error: &Error) -> ArgumentsRefusal {
    match error.kind() {
        ErrorKind::DisplayHelp => match rt.print(error) {
            Ok(()) => ArgumentsRefusal::Help,
            Err(_) => ArgumentsRefusal::Io,
        },
        ErrorKind::OutOfMemory => ArgumentsRefusal::Memory,
        _ => ArgumentsRefusal::Bad,
    }
}
