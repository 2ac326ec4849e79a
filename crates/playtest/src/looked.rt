//! Calls that look at a player's globals and at what is on its desk, and at how these print.

use crate::players::TestPlayer;
use ink_model::Value;
use ink_player::{Bound, FnKind, print_path, same_value};
use inkcases::{NoAnswer, Report, first_word};

/// The text of a target that a global has.
pub(crate) fn show_path(
    said: &mut Report,
    player: &TestPlayer,
    name: &str,
) -> Result<(), NoAnswer> {
    match player.get(name)? {
        Value::Target(path) => {
            let text = print_path(said.alloc(), path.get())?;
            said.put(text.as_str());
            Ok(())
        }
        _ => Err(NoAnswer::NoQuestion),
    }
}

/// Whether two globals have the same value.
pub(crate) fn show_same(
    said: &mut Report,
    player: &TestPlayer,
    names: &str,
) -> Result<(), NoAnswer> {
    let (name, other) = first_word(names);
    said.show(same_value(&player.get(name)?, &player.get(other)?));
    Ok(())
}

/// Which kind of function a name is bound to.
pub(crate) fn show_kind(
    said: &mut Report,
    player: &TestPlayer,
    name: &str,
) -> Result<(), NoAnswer> {
    said.put(match player.desk().kind(name) {
        Some(FnKind::Pure) => "pure",
        Some(FnKind::Turn) => "turn",
        None => "nothing",
    });
    Ok(())
}

/// What `{:?}` makes of a player, of its desk, or of what a name's function or a global's watcher has noted.
pub(crate) fn show_debug(
    said: &mut Report,
    player: &TestPlayer,
    item: &str,
) -> Result<(), NoAnswer> {
    let desk = player.desk();
    match first_word(item) {
        ("player", _) => said.debug(player),
        ("desk", _) => said.debug(desk),
        ("called", name) => match desk.function(name) {
            Some(Bound::Turn(script)) => {
                for called in script.noted.calls() {
                    said.debug(called);
                }
            }
            _ => return Err(NoAnswer::NoQuestion),
        },
        ("seen", name) => {
            let witness = desk.watcher(name).ok_or(NoAnswer::NoQuestion)?;
            for seen in witness.noted.seen() {
                said.debug(seen);
            }
        }
        _ => return Err(NoAnswer::NoQuestion),
    }
    Ok(())
}
