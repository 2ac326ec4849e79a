//! Calls that bind objects to names, and take them away. What is handed back is told with what it noted.

use crate::objects::{Constant, Deed, Script, Witness};
use crate::players::TestPlayer;
use crate::shown::{show_function, show_watcher};
use inkcases::{NoAnswer, Report, first_word, given_of, value_of};
use std::alloc::Global;

pub(crate) fn bind_turn(
    said: &mut Report,
    player: &mut TestPlayer,
    rest: &str,
) -> Result<(), NoAnswer> {
    let (name, words) = first_word(rest);
    let mut deeds = Vec::new(said.alloc());
    for word in words.split_whitespace() {
        deeds.push(deed_of(said.alloc(), word)?)?;
    }
    match player.bind_turn(name, Script::new(said.alloc(), deeds, None)) {
        Ok(was) => show_function(said, &was),
        Err(_) => Err(NoAnswer::OutOfMemory),
    }
}

pub(crate) fn bind_pure(
    said: &mut Report,
    player: &mut TestPlayer,
    rest: &str,
) -> Result<(), NoAnswer> {
    let (name, word) = first_word(rest);
    let deed = deed_of(said.alloc(), word)?;
    match player.bind_pure(name, Constant::new(said.alloc(), deed, None)) {
        Ok(was) => show_function(said, &was),
        Err(_) => Err(NoAnswer::OutOfMemory),
    }
}

pub(crate) fn watch(
    said: &mut Report,
    player: &mut TestPlayer,
    rest: &str,
) -> Result<(), NoAnswer> {
    let (name, word) = first_word(rest);
    match player.watch(name, Witness::new(said.alloc(), word != "short", None)) {
        Ok(was) => show_watcher(said, &was),
        Err(_) => Err(NoAnswer::OutOfMemory),
    }
}

pub(crate) fn unbind(
    said: &mut Report,
    player: &mut TestPlayer,
    name: &str,
) -> Result<(), NoAnswer> {
    let function = player.unbind(name);
    show_function(said, &function)
}

pub(crate) fn unwatch(
    said: &mut Report,
    player: &mut TestPlayer,
    name: &str,
) -> Result<(), NoAnswer> {
    let watcher = player.unwatch(name);
    show_watcher(said, &watcher)
}

fn deed_of(alloc: Global, word: &str) -> Result<Deed, NoAnswer> {
    match word {
        "refuses" => Ok(Deed::Refuses),
        "short" => Ok(Deed::FindsNoMemory),
        word => Ok(Deed::Gives(given_of(value_of(alloc, word)?)?)),
    }
}
