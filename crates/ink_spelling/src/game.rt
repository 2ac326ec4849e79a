//! What a save of layout 2 spells.

ghost use Rattle.std.specs.Prelude.{◌≡◌, IfOk, OnErr, true};
ghost use Rattle.ink_model.specs.Save.Asks.{spelled_asks};
ghost use Rattle.ink_model.specs.Save.Unspelled.{spelled_by};
ghost use Rattle.ink_spelling.specs.Readings.{spelled_from_flows, spelled_from_globals};

use crate::flow::NamedFlow;
use crate::members::{alone, next_named, next_spelled};
use crate::plain::is_layout;
use crate::rows::next_rows;
use crate::saved::SavedShared;
use crate::value::SavedValue;
use ink_model::{Seq, Text};
use json_tape::Lent;
use std::alloc::{AllocError, Global};
use std::marker::Model;

/// All flows, the current one's name, and what they share, as they are spelled. A contract sees them.
#[derive(Drop)]
pub struct SavedGame<'j> {
    pub current: Text,
    pub flows: Seq<NamedFlow>,
    pub shared: SavedShared<'j>,
}

impl<'j> Model for SavedGame<'j> {
    ghost use Rattle.ink_model.specs.Save.Unspelled as rules;

    ghost Value = { rules.Spelled };

    ghost view = { λ g. record { current = g.current; flows = g.flows; shared = g.shared } };
}

/// What members spell in layout 2. The one error is a refused request for memory, which is asked for from the current flow's
/// name on.
pub(crate) fn read_game<'j, J: Lent<'j>>(
    alloc: Global,
    members: J::Members,
) -> Result<Option<SavedGame<'j>>, AllocError>
    ensures game { IfOk result (λ game. game ≡ spelled_by (J.members members)) }
    ensures memory { OnErr result (spelled_asks (J.members members) ≡ true) }
{
    let mut rest = members;
    let Some(current) = next_spelled::<J, Text>(alloc, &mut rest, "current")? else {
        return Ok(None);
    };
    read_flows::<J>(alloc, &mut rest, current)
}

// The same from the flows on.
fn read_flows<'j, J: Lent<'j>>(
    alloc: Global,
    rest: &mut J::Members,
    current: Text,
) -> Result<Option<SavedGame<'j>>, AllocError>
    ensures { IfOk result (λ game. game ≡ spelled_from_flows current (J.members rest.old)) }
{
    let Some(flows) = next_spelled::<J, Seq<NamedFlow>>(alloc, rest, "flows")? else {
        return Ok(None);
    };
    let Some(json) = next_named::<J>(rest, "format") else {
        return Ok(None);
    };
    if !is_layout::<J>(json, 2) {
        return Ok(None);
    }
    read_globals::<J>(alloc, rest, current, flows)
}

// The same from the globals on.
fn read_globals<'j, J: Lent<'j>>(
    alloc: Global,
    rest: &mut J::Members,
    current: Text,
    flows: Seq<NamedFlow>,
) -> Result<Option<SavedGame<'j>>, AllocError>
    ensures { IfOk result (λ game. game ≡ spelled_from_globals current flows (J.members rest.old)) }
{
    let Some(globals) = next_spelled::<J, Seq<(Text, SavedValue)>>(alloc, rest, "globals")? else {
        return Ok(None);
    };
    let Some(turn) = next_spelled::<J, u64>(alloc, rest, "turn")? else {
        return Ok(None);
    };
    let Some(turns) = next_rows::<J>(alloc, rest, "turns")? else {
        return Ok(None);
    };
    let Some(visits) = next_rows::<J>(alloc, rest, "visits")? else {
        return Ok(None);
    };
    let shared = SavedShared {
        globals,
        turn,
        turns,
        visits,
    };
    let game = SavedGame {
        current,
        flows,
        shared,
    };
    Ok(alone::<J, _>(rest, game))
}
