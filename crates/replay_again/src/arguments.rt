//! What the words of the command line ask for.
use std::env;
use std::rt::Env;

/// The files that are played, and how.
#[derive(Clone, Copy)]
pub struct Arguments<'a> {
    pub edits: &'a str,
    pub stream: &'a str,
    pub how: How,
}

/// How a script is played.
#[derive(Clone, Copy, PartialEq, Eq)]
pub enum How {
    /// Each call that answers Memory is made again.
    Again,
    /// But an edit that does is not.
    EditsOnce,
    /// The second call of the first disk fails, and no other.
    FailingDisk,
}

/// Reads the command line, again where that fails, since it wants memory. What it says lies in the words, of which
/// there are none at first.
pub fn read_arguments<'a, R: Env + AllocGlobal>(
    rt: &R,
    words: &'a mut Vec<String>,
    refused: &mut u32,
) -> Option<Arguments<'a>> {
    if take_words(rt, words).is_none() {
        *refused = refused.saturating_add(1);
        words.clear();
        take_words(rt, words)?;
    }
    arguments_of(words)
}

fn take_words<R: Env + AllocGlobal>(rt: &R, words: &mut Vec<String>) -> Option<()> {
    for word in env::args(rt).ok()? {
        words.push(word).ok()?;
    }
    Some(())
}

fn arguments_of(words: &[String]) -> Option<Arguments<'_>> {
    match words {
        [_, edits, stream] => Some(Arguments {
            edits,
            stream,
            how: How::Again,
        }),
        [_, edits, stream, flag] => Some(Arguments {
            edits,
            stream,
            how: how_of(flag)?,
        }),
        _ => None,
    }
}

fn how_of(flag: &str) -> Option<How> {
    match flag {
        "--edits-once" => Some(How::EditsOnce),
        "--failing-disk" => Some(How::FailingDisk),
        _ => None,
    }
}
