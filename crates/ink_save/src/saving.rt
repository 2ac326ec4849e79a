//! Machines as JSON values, and as their text.

ghost use Rattle.std.specs.Prelude.{◌≡◌, IfOk, Some, length};
ghost use Rattle.serde_json.specs.View.{view};
ghost use Rattle.serde_json.specs.Written.{compact_text};
ghost use Rattle.ink_check.specs.Standing.{story_tree};
ghost use Rattle.ink_model.specs.Protocol.Command.{json_of};
ghost use Rattle.ink_model.specs.Text.Output.{empty_page};
ghost use Rattle.ink_model.specs.Story.Places.{places};
ghost use Rattle.ink_model.specs.Save.Reads.{Stands};
ghost use Rattle.ink_model.specs.Save.Spelling.{spelling};
ghost use Rattle.ink_parts.specs.Parts.{kept_as};
ghost use Rattle.ink_step.specs.Standing.{aside_of, flow_of, game_of, rows_below, shared_of};
ghost use Rattle.ink_tree.specs.Nodes as nodes;
ghost use Rattle.ink_vars.specs.Slots.{rows_from};

use ink_check::Story;
use ink_flows::{Aside, Flow};
use ink_model::Text;
use ink_parts::Kept;
use ink_step::{Machine, Shared};
use ink_tree::Tree;
use serde_json::Value as Json;
use std::alloc::{AllocError, Global};

/// A machine as a JSON value. The one error is a refused request for memory.
pub fn write(alloc: Global, story: &Story, machine: &Machine) -> Result<Json, AllocError>
    ensures { let s = story_tree story.now in IfOk result (λ json. view json ≡ spelling (game_of s machine.now)) }
{
    let parts = machine.parts();
    let tree = story.tree();
    let kept = kept_of(tree, parts.flow, parts.aside, parts.shared);
    ink_parts::write(alloc, tree, &kept)
}

/// The compact text of a machine's JSON value, without a value in between; it is read back as that value where the machine's game is
/// sound and at rest. The one error is a refused request for memory.
pub fn write_text(alloc: Global, story: &Story, machine: &Machine) -> Result<Text, AllocError>
    ensures spelled { let s = story_tree story.now in IfOk result (λ text. text ≡ compact_text (spelling (game_of s machine.now))) }
    ensures reads_back { let s = story_tree story.now in let g = game_of s machine.now in Stands s g → IfOk result (λ text. json_of text ≡ Some (spelling g)) }
{
    let parts = machine.parts();
    let tree = story.tree();
    let kept = kept_of(tree, parts.flow, parts.aside, parts.shared);
    ink_parts::print(alloc, tree, &kept)
}

// What a save keeps of what a machine has.
fn kept_of<'a>(tree: &Tree, flow: &'a Flow, aside: &'a Aside, shared: &'a Shared) -> Kept<'a>
    ensures { let s = nodes.story_tree tree.now in
        kept_as s result ≡ record { now = record { flow = flow_of s flow.now; shared = shared_of s shared.now; page = empty_page }; aside = aside_of s aside.now } }
{
    Kept {
        flow,
        aside,
        globals: &shared.globals,
        turn: shared.turn,
        turns: own_slots(tree, shared.counts.turns()),
        visits: own_slots(tree, shared.counts.visits()),
    }
}

// The counts of the story's own containers.
fn own_slots<'a>(tree: &Tree, slots: &'a [Option<u32>]) -> &'a [Option<u32>]
    ensures { rows_below (length (places (nodes.story_tree tree.now))) (rows_from 0 slots.now) ≡ rows_from 0 result.now }
{
    if slots.len() > tree.len() {
        &slots[..tree.len()]
    } else {
        slots
    }
}
