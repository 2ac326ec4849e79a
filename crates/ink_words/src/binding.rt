//! Objects for the program's words, on a desk (docs/PROGRAM.md).

use crate::objects::{Script, Table};
use crate::options::{PlayOption, WordsRefused, command, read_options};
use clap::ArgMatches;
use ink_host::{Desk, Observer};
use std::alloc::Global;

/// A desk of the program's objects.
pub type PlayDesk = Desk<Table, Script, Observer>;

/// Reads the words that a program of this name was started with: binds what they say, and gives the story's file, where they name one.
/// The one error is words that are none of the program, words that `bind_words` refuses, or a refused request for memory.
pub fn read_words<'a>(
    alloc: Global,
    program: &'a str,
    words: &'a [String],
    desk: &mut PlayDesk,
) -> Result<Option<&'a str>, WordsRefused> {
    let Ok(matches) = command(alloc, program)?.try_get_matches_from(words) else {
        return Err(WordsRefused);
    };
    bind_words(alloc, desk, &matches)?;
    Ok(matches.get_str("STORY"))
}

/// Binds what the words say. The one error is words that say nothing that can be bound (docs/PROGRAM.md), a name that is bound
/// twice or watched twice, or a refused request for memory.
pub fn bind_words(
    alloc: Global,
    desk: &mut PlayDesk,
    matches: &ArgMatches<'_>,
) -> Result<(), WordsRefused> {
    for option in read_options(alloc, matches)? {
        bind_option(alloc, desk, option)?;
    }
    Ok(())
}

fn bind_option(
    alloc: Global,
    desk: &mut PlayDesk,
    option: PlayOption<'_>,
) -> Result<(), WordsRefused> {
    match option {
        PlayOption::Answers { name, answers } => first(desk.bind_turn(
            name,
            Script::new(alloc, answers),
        )),
        PlayOption::Table { name, rows } => first(desk.bind_pure(name, Table::new(alloc, rows))),
        PlayOption::Watch { name } => first(desk.watch(name, Observer::new(alloc))),
    }
}

// A name is bound or watched for the first time, or else refused; so is a request for memory that was refused.
fn first<X: Drop, E: Drop>(bound: Result<Option<X>, E>) -> Result<(), WordsRefused> {
    match bound {
        Ok(None) => Ok(()),
        Ok(Some(_)) | Err(_) => Err(WordsRefused),
    }
}
