//! Numbers among the words of a command.
ghost use Rattle.std.specs.Prelude.{◌≡◌, IfOk, IfSome, MatchOption, None, is_some, map};
ghost use Rattle.std.specs.Fmt.{decimal};
ghost use Rattle.std.specs.List.{list_all};
ghost use Rattle.clap.specs.Matches.{first_value, found_of};
ghost use Rattle.config_text.specs.Number.{is_number};
ghost use Rattle.program_words.specs.Number.{IsRead};

use clap::ArgMatches;
use config_text::read_number;
use std::alloc::{AllocError, Global};

/// The number that is given under this name, as in the line of an edit: decimal, without a sign or leading zeros. None
/// where another word is, or none.
pub fn number(matches: &ArgMatches<'_>, name: &str) -> Option<u64>
    ensures { MatchOption (first_value (found_of matches.now) name.now) (result ≡ None) (IsRead result) }
{
    read_number(matches.get_str(name)?.as_bytes())
}

/// The number that each word spells, in their order, as in the line of an edit. None where a word spells none.
pub fn numbers_of(alloc: Global, words: &[&str]) -> Result<Option<Vec<u64>>, AllocError>
    ensures variant { IfOk result (λ read. is_some read ≡ list_all (λ word. is_number word.now) words.now) }
    ensures spelled { IfOk result (λ read. IfSome read (λ numbers.
        map decimal numbers.items ≡ map (λ word. word.now) words.now)) }
{
    let mut numbers = Vec::new(alloc);
    for word in words {
        match read_number(word.as_bytes()) {
            Some(number) => numbers.push(number)?,
            None => return Ok(None),
        }
    }
    Ok(Some(numbers))
}
