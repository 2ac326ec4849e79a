//! What a save spells, made again in a story.

ghost use Rattle.std.specs.Prelude.{◌≡◌, ◌≤◌, IfOk, IfSome, IsTrue, OnErr, option_map, true};
ghost use Rattle.std.specs.List.{AllByRecursion};
ghost use Rattle.ink_flows.specs.Standing.{rows_of};
ghost use Rattle.ink_model.specs.Run.Configuration.{unnumbered_flow};
ghost use Rattle.ink_model.specs.Run.Flows.{alone, begins_with_default, holes};
ghost use Rattle.ink_model.specs.Variables.Named.{at};
ghost use Rattle.ink_model.specs.Save.Reads.{Rests, Stands};
ghost use Rattle.ink_model.specs.Save.Sound.{SharedSound};
ghost use Rattle.ink_model.specs.Save.Unspelled.{aside_but, game_of, game_spelled};
ghost use Rattle.ink_model.specs.declared.limits.TheConstants.{MAX_COUNT};
ghost use Rattle.ink_restore.specs.Asks.{FlowAsks, FlowsAsk, LayoutAsks, SharedAsks};
ghost use Rattle.ink_restore.specs.Building.{Builds};
ghost use Rattle.ink_restore.specs.Counted.{AreOwn};
ghost use Rattle.ink_restore.specs.Gathered.{AllStand, flows_as, may_be_all, parts_of, with_rows};
ghost use Rattle.ink_restore.specs.Parts.{Restores, restored_as, shared_as};
ghost use Rattle.ink_spelling.specs.Layouts.{Rest, layout_as};
ghost use Rattle.ink_tree.specs.Nodes.{story_tree};

use crate::collecting::build_globals;
use crate::counting::build_counts;
use crate::flowing::{Gathered, build_flow, gather};
use ink_flows::{Aside, DEFAULT_FLOW, Flow};
use ink_model::{MAX_COUNT, MAX_FLOWS};
use ink_spelling::{NamedFlow, Saved, SavedGame, SavedLayout, SavedShared};
use ink_tree::Tree;
use ink_vars::{Counts, Globals, Turn};
use std::alloc::{AllocError, Global};

/// What all flows share.
#[derive(Drop)]
pub struct SharedParts {
    pub globals: Globals,
    pub counts: Counts,
    pub turn: Turn,
}

/// All that a save spells.
#[derive(Drop)]
pub struct Restored {
    pub flow: Flow,
    pub aside: Aside,
    pub shared: SharedParts,
}

/// What a save spells in either layout, made in a story; none where it does not fit, or its current flow is not among its flows.
/// The one error is a refused request for memory, which is made once a save's first flow, or its one flow, asks for some.
pub fn restore(
    alloc: Global,
    tree: &Tree,
    saved: &SavedLayout<'_>,
) -> Result<Option<Restored>, AllocError>
    requires { Rest (layout_as saved.now) }
    ensures restores { IfOk result (λ made. Restores (story_tree tree.now) (game_of (layout_as saved.now)) made) }
    ensures own { IfOk result (λ made. IfSome made (λ r. AreOwn (story_tree tree.now) r.shared.counts.rows)) }
    ensures memory { OnErr result (LayoutAsks (story_tree tree.now) (layout_as saved.now)) }
{
    match saved {
        SavedLayout::First(saved) => restore_alone(alloc, tree, saved),
        SavedLayout::Second(saved) => restore_game(alloc, tree, saved),
    }
}

// What a save of layout 1 spells: one flow. The one error is a refused request for memory, which is made once the flow asks.
fn restore_alone(
    alloc: Global,
    tree: &Tree,
    saved: &Saved<'_>,
) -> Result<Option<Restored>, AllocError>
    requires { Rests saved.now }
    ensures builds { let s = story_tree tree.now in IfOk result (λ made. Builds (restored_as s) (Stands s) (alone saved.now) made) }
    ensures own { IfOk result (λ made. IfSome made (λ r. AreOwn (story_tree tree.now) r.shared.counts.rows)) }
    ensures memory { OnErr result (FlowAsks (story_tree tree.now) saved.now.flow) }
{
    let Some(flow) = build_flow(alloc, tree, &saved.flow)? else {
        return Ok(None);
    };
    let Some(shared) = restore_shared(alloc, tree, &saved.shared)? else {
        return Ok(None);
    };
    let aside = Aside::new(alloc);
    Ok(Some(Restored {
        flow,
        aside,
        shared,
    }))
}

// What a save of layout 2 spells. The one error is a refused request for memory, which is made once its flows may be all, and the
// first one asks.
fn restore_game(
    alloc: Global,
    tree: &Tree,
    saved: &SavedGame<'_>,
) -> Result<Option<Restored>, AllocError>
    requires { AllByRecursion (λ r. unnumbered_flow r.1 ≡ r.1) saved.now.flows }
    ensures restores { IfOk result (λ made. Restores (story_tree tree.now) (game_spelled saved.now) made) }
    ensures own { IfOk result (λ made. IfSome made (λ r. AreOwn (story_tree tree.now) r.shared.counts.rows)) }
    ensures memory { OnErr result ((may_be_all saved.now.flows ≡ true) × FlowsAsk (story_tree tree.now) saved.now.flows) }
{
    let Some(flows) = restore_flows(alloc, tree, saved)? else {
        return Ok(None);
    };
    let Some(shared) = restore_shared(alloc, tree, &saved.shared)? else {
        return Ok(None);
    };
    Ok(Some(Restored {
        flow: flows.flow,
        aside: flows.aside,
        shared,
    }))
}

// All flows of a save: the current one, and those that stand aside.
#[derive(Drop)]
struct AllFlows {
    flow: Flow,
    aside: Aside,
}

// All flows of a save, if they fit the story, and the current one is among them. The one error is a refused request for memory,
// which is made once they may be all, and the first one asks.
fn restore_flows(
    alloc: Global,
    tree: &Tree,
    saved: &SavedGame<'_>,
) -> Result<Option<AllFlows>, AllocError>
    requires { AllByRecursion (λ r. unnumbered_flow r.1 ≡ r.1) saved.now.flows }
    ensures builds { let s = story_tree tree.now in
        let x = saved.now in
        IfOk result (λ made. Builds (flows_as s) (AllStand s) (at x.current x.flows, aside_but x.current x.flows) made) }
    ensures all { IfOk result (λ made. IfSome made (λ _. may_be_all saved.now.flows ≡ true)) }
    ensures memory { OnErr result ((may_be_all saved.now.flows ≡ true) × FlowsAsk (story_tree tree.now) saved.now.flows) }
{
    let flows = saved.flows.as_slice();
    if !may_be_all(flows) {
        return Ok(None);
    }
    match gather(alloc, tree, saved.current.as_str(), flows)? {
        Some(gathered) => Ok(with_aside(alloc, gathered)),
        None => Ok(None),
    }
}

// Whether the first flow is the one that is always there, and there are not too many.
fn may_be_all(flows: &[NamedFlow]) -> bool
    ensures { result ≡ may_be_all flows.now }
{
    match flows.first() {
        Some(first) => first.name() == DEFAULT_FLOW && flows.len() <= MAX_FLOWS,
        None => false,
    }
}

// The current flow and the others, if that one came.
fn with_aside(alloc: Global, gathered: Gathered) -> Option<AllFlows>
    requires first { IsTrue (begins_with_default (rows_of gathered.rows.entries)) }
    requires current { IfSome gathered.current (λ _. holes (rows_of gathered.rows.entries) ≡ 1) }
    ensures { option_map parts_of result ≡ option_map (with_rows (rows_of gathered.rows.entries)) gathered.current }
{
    let (rows, current) = gathered.into_parts();
    match current {
        Some(flow) => Some(AllFlows {
            flow,
            aside: Aside::from_rows(alloc, rows),
        }),
        None => None,
    }
}

// What the flows of a save share, if it fits the story. The one error is a refused request for memory, which is made once the turn
// is within its limit, and the first global fits; where there is none, once the counts ask.
fn restore_shared(
    alloc: Global,
    tree: &Tree,
    saved: &SavedShared<'_>,
) -> Result<Option<SharedParts>, AllocError>
    ensures builds { let s = story_tree tree.now in IfOk result (λ made. Builds (shared_as s) (SharedSound s) saved.now made) }
    ensures own { IfOk result (λ made. IfSome made (λ v. AreOwn (story_tree tree.now) v.counts.rows)) }
    ensures memory { OnErr result (SharedAsks (story_tree tree.now) saved.now) }
{
    let Some(turn) = turn_of(saved.turn) else {
        return Ok(None);
    };
    let Some(globals) = build_globals(alloc, tree, saved.globals.as_slice())? else {
        return Ok(None);
    };
    let visits = saved.visits.as_slice();
    let turns = saved.turns.as_slice();
    let Some(counts) = build_counts(alloc, tree, visits, turns)? else {
        return Ok(None);
    };
    Ok(Some(SharedParts {
        globals,
        counts,
        turn,
    }))
}

// The turn of a number, if it is within its limit.
fn turn_of(number: u64) -> Option<Turn>
    ensures { Builds (λ n. n) (λ n. n ≤ MAX_COUNT) number result }
{
    if number <= MAX_COUNT as u64 {
        Turn::of(number as u32)
    } else {
        None
    }
}
