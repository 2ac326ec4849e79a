//! What a save spells, in either layout.

ghost use Rattle.std.specs.Prelude.{◌≡◌, ◌||◌, IfOk, IfSome, OnErr, option_map, true};
ghost use Rattle.ink_model.specs.Save.Asks.{load_asks, members_ask, spelled_asks};
ghost use Rattle.ink_model.specs.Save.Unspelled.{layout_by, layout_of};
ghost use Rattle.ink_spelling.specs.Layouts.{Rest, layout_as};

use crate::game::{SavedGame, read_game};
use crate::saved::{Saved, read_alone};
use json_tape::{Kind, Lent};
use std::alloc::{AllocError, Global};

/// What a save spells: in layout 1, which knew no flows, a configuration; in layout 2 all flows.
pub enum SavedLayout<'j> {
    First(Saved<'j>),
    Second(SavedGame<'j>),
}

/// Written out, so that where a save is let go that is one call, and a proof there does not go through what it spells.
impl Drop for SavedLayout<'_> {
    fn drop(self) {
        match self {
            SavedLayout::First(_) => {}
            SavedLayout::Second(_) => {}
        }
    }
}

/// What a JSON value spells in either layout, if it spells something. No frame in it has the number of an Enter. The one error is
/// a refused request for memory, which is asked for only where something of the value is kept.
pub fn read_saved<'j, J: Lent<'j>>(
    alloc: Global,
    json: J,
) -> Result<Option<SavedLayout<'j>>, AllocError>
    ensures saved { IfOk result (λ saved. option_map layout_as saved ≡ layout_of (J.spells json)) }
    ensures rests { IfOk result (λ saved. IfSome saved (λ layout. Rest (layout_as layout))) }
    ensures memory { OnErr result (load_asks (J.spells json) ≡ true) }
{
    match json.kind() {
        Kind::Object(members) => read_members::<J>(alloc, members),
        Kind::Null | Kind::Bool(_) | Kind::Number(_) | Kind::String(_) | Kind::Array(_) => Ok(None),
    }
}

// What members spell. Layout 2 begins with another key than layout 1. The one error is a refused request for memory.
fn read_members<'j, J: Lent<'j>>(
    alloc: Global,
    members: J::Members,
) -> Result<Option<SavedLayout<'j>>, AllocError>
    ensures saved { IfOk result (λ saved. option_map layout_as saved ≡ layout_by (J.members members)) }
    ensures memory { let ms = J.members members in OnErr result ((spelled_asks ms || members_ask ms) ≡ true) }
{
    match read_game::<J>(alloc, J::again(&members))? {
        Some(game) => Ok(Some(SavedLayout::Second(game))),
        None => match read_alone::<J>(alloc, members)? {
            Some(saved) => Ok(Some(SavedLayout::First(saved))),
            None => Ok(None),
        },
    }
}
