//! What a save of layout 1 spells.

ghost use Rattle.std.specs.Prelude.{◌≡◌, IfOk, OnErr, true};
ghost use Rattle.ink_model.specs.Save.Asks.{members_ask, threads_ask, turn_asks};
ghost use Rattle.ink_model.specs.Save.Unspelled.{from_threads, from_turn, unspelled_by};

use crate::choice::SavedChoice;
use crate::flow::SavedFlow;
use crate::members::{alone, next_named, next_spelled};
use crate::plain::is_layout;
use crate::rows::{SavedPlace, next_rows};
use crate::spelled::Spelled;
use crate::thread::{SavedThread, SavedThreads};
use crate::value::SavedValue;
use ink_model::{Seq, Text};
use json_tape::Lent;
use std::alloc::{AllocError, Global};
use std::marker::Model;

/// What all flows share, as it is spelled. A contract sees it.
#[derive(Drop)]
pub struct SavedShared<'j> {
    pub globals: Seq<(Text, SavedValue)>,
    pub turn: u64,
    pub turns: Seq<(SavedPlace<'j>, u64)>,
    pub visits: Seq<(SavedPlace<'j>, u64)>,
}

impl<'j> Model for SavedShared<'j> {
    ghost use Rattle.std.specs.Prelude.{List};
    ghost use Rattle.ink_model.specs.Run.Configuration.{SharedOf};
    ghost use Rattle.ink_model.specs.declared.place.Part.{Part};

    ghost Value = { SharedOf (List Part) };

    ghost view = { λ v. record { globals = v.globals; counts = record { visits = v.visits; turns = v.turns }; turn = v.turn } };
}

/// A configuration as it is spelled. A contract sees the configuration, in which nothing is being written.
#[derive(Drop)]
pub struct Saved<'j> {
    pub flow: SavedFlow,
    pub shared: SavedShared<'j>,
}

impl<'j> Model for Saved<'j> {
    ghost use Rattle.ink_model.specs.Run.Configuration.{Configuration};
    ghost use Rattle.ink_model.specs.Text.Output.{empty_page};

    ghost Value = { Configuration };

    ghost view = { λ c. record { flow = c.flow; shared = c.shared; page = empty_page } };
}

/// The configuration that members spell in layout 1. The one error is a refused request for memory, which is asked for only where
/// something of them is kept.
pub(crate) fn read_alone<'j, J: Lent<'j>>(
    alloc: Global,
    members: J::Members,
) -> Result<Option<Saved<'j>>, AllocError>
    ensures saved { IfOk result (λ saved. saved ≡ unspelled_by (J.members members)) }
    ensures memory { OnErr result (members_ask (J.members members) ≡ true) }
{
    let mut rest = members;
    let Some(json) = next_named::<J>(&mut rest, "choices") else {
        return Ok(None);
    };
    let Some(choices) = Seq::<SavedChoice>::read::<J>(alloc, json)? else {
        return Ok(None);
    };
    let Some(json) = next_named::<J>(&mut rest, "format") else {
        return Ok(None);
    };
    if !is_layout::<J>(json, 1) {
        return Ok(None);
    }
    let Some(json) = next_named::<J>(&mut rest, "globals") else {
        return Ok(None);
    };
    let Some(globals) = Seq::<(Text, SavedValue)>::read::<J>(alloc, json)? else {
        return Ok(None);
    };
    let Some(json) = next_named::<J>(&mut rest, "safe") else {
        return Ok(None);
    };
    let Some(safe) = bool::read::<J>(alloc, json)? else {
        return Ok(None);
    };
    let Some(json) = next_named::<J>(&mut rest, "stack") else {
        return Ok(None);
    };
    let Some(stack) = Seq::<SavedValue>::read::<J>(alloc, json)? else {
        return Ok(None);
    };
    read_threads::<J>(alloc, &mut rest, choices, globals, safe, stack)
}

// The same from its threads on.
fn read_threads<'j, J: Lent<'j>>(
    alloc: Global,
    rest: &mut J::Members,
    choices: Seq<SavedChoice>,
    globals: Seq<(Text, SavedValue)>,
    safe: bool,
    stack: Seq<SavedValue>,
) -> Result<Option<Saved<'j>>, AllocError>
    ensures saved { IfOk result (λ saved. saved ≡ from_threads choices globals safe stack (J.members rest.old)) }
    ensures memory { OnErr result (threads_ask (J.members rest.old) ≡ true) }
{
    let Some(threads) = next_spelled::<J, Seq<SavedThread>>(alloc, rest, "threads")? else {
        return Ok(None);
    };
    read_turn::<J>(alloc, rest, choices, globals, safe, stack, threads)
}

// The same from its turn number on.
fn read_turn<'j, J: Lent<'j>>(
    alloc: Global,
    rest: &mut J::Members,
    choices: Seq<SavedChoice>,
    globals: Seq<(Text, SavedValue)>,
    safe: bool,
    stack: Seq<SavedValue>,
    threads: Seq<SavedThread>,
) -> Result<Option<Saved<'j>>, AllocError>
    ensures saved { IfOk result (λ saved. saved ≡ from_turn choices globals safe stack threads (J.members rest.old)) }
    ensures memory { OnErr result (turn_asks (J.members rest.old) ≡ true) }
{
    let Some(turn) = next_spelled::<J, u64>(alloc, rest, "turn")? else {
        return Ok(None);
    };
    let Some(turns) = next_rows::<J>(alloc, rest, "turns")? else {
        return Ok(None);
    };
    let Some(visits) = next_rows::<J>(alloc, rest, "visits")? else {
        return Ok(None);
    };
    let Some(threads) = SavedThreads::of(threads) else {
        return Ok(None);
    };
    let flow = SavedFlow {
        threads,
        stack,
        choices,
        safe,
    };
    let shared = SavedShared {
        globals,
        turn,
        turns,
        visits,
    };
    Ok(alone::<J, _>(rest, Saved { flow, shared }))
}
