//! The program's words (docs/READER.md, "The reader").

use clap::{Arg, ArgAction, ArgMatches, Command};
use ink_words::{PlayDesk, bind_words, command};
use std::alloc::{AllocError, Global};

/// What the words say of a reading: the story's file, the save's and the one beside it, whether it is saved at each choice, and
/// whether tags are shown.
#[derive(Drop)]
pub(crate) struct Settings<'a> {
    pub(crate) story: &'a str,
    pub(crate) save: String,
    pub(crate) beside: String,
    pub(crate) saves: bool,
    pub(crate) tags: bool,
}

/// Reads the words that the program was started with: binds what they say, and gives what they say of a reading. None where they are
/// no words of the program, name no story, or say something that cannot be bound; or where memory was refused.
pub(crate) fn read_settings<'a>(
    alloc: Global,
    words: &'a [String],
    desk: &mut PlayDesk,
) -> Option<Settings<'a>> {
    let command = reader_command(alloc).ok()?;
    let matches = command.try_get_matches_from(words).ok()?;
    bind_words(alloc, desk, &matches).ok()?;
    settings_of(alloc, &matches)
}

// What the words may be: those of the player, and the reader's own.
fn reader_command<'a>(alloc: Global) -> Result<Command<'a>, AllocError> {
    command(alloc, "inkread")?
        .arg(Arg::new(alloc, "save").long("save").action(ArgAction::Set))?
        .arg(flag(alloc, "no-autosave"))?
        .arg(flag(alloc, "tags"))
}

fn flag<'a>(alloc: Global, name: &'a str) -> Arg<'a> {
    Arg::new(alloc, name).long(name).action(ArgAction::SetTrue)
}

// What the words say of a reading; none where they name no story, or memory was refused.
fn settings_of<'a>(alloc: Global, matches: &ArgMatches<'a>) -> Option<Settings<'a>> {
    let story = matches.get_str("STORY")?;
    let save = match matches.get_str("save") {
        Some(path) => String::from_str(alloc, path).ok()?,
        None => format!(in alloc; "{story}.save").ok()?,
    };
    let beside = format!(in alloc; "{}.new", save.as_str()).ok()?;
    Some(Settings {
        story,
        save,
        beside,
        saves: !matches.get_flag("no-autosave"),
        tags: matches.get_flag("tags"),
    })
}
