//! The machine that a JSON value spells.

ghost use Rattle.std.specs.Prelude.{◌≡◌, IfOk, IfSome, OnErr, true};
ghost use Rattle.ink_check.specs.Standing.{story_tree};
ghost use Rattle.ink_model.specs.Save.Asks.{load_asks};
ghost use Rattle.ink_model.specs.Save.Unspelled as save;
ghost use Rattle.ink_model.specs.Story.Tree.{StoryTree};
ghost use Rattle.ink_restore.specs.Counted.{AreOwn};
ghost use Rattle.ink_restore.specs.Parts.{restored_as, shared_as};
ghost use Rattle.ink_save.specs.Loads.{Finds, ReadsAs};
ghost use Rattle.ink_spelling.specs.Layouts.{Rest, layout_as};
ghost use Rattle.ink_step.specs.Marks.{stood_of, unmarked};
ghost use Rattle.ink_step.specs.Standing.{game_of, shared_of};
ghost use Rattle.ink_tree.specs.Nodes as nodes;

use ink_check::Story;
use ink_out::Output;
use ink_restore::{Restored, SharedParts, restore};
use ink_spelling::{SavedLayout, read_saved};
use ink_step::{Fields, Machine, Shared};
use ink_tree::Tree;
use json_tape::Lent;
use std::alloc::{AllocError, Global};

/// Why a JSON value was not read as a machine.
#[derive(Clone, Copy)]
pub enum SaveRefusal {
    BadSave,
    OutOfMemory,
}

/// The machine that a JSON value spells. Refused with `BadSave` where it spells none that fits the story, and with `OutOfMemory`
/// where memory was refused, which is asked for only where something of the value is kept. No mark stands in the machine.
pub fn read<'j, J: Lent<'j>>(alloc: Global, story: &Story, json: J) -> Result<Machine, SaveRefusal>
    ensures reads { ReadsAs (story_tree story.now) (J.spells json) result }
    ensures mark { IfOk result (λ m. stood_of m ≡ unmarked) }
{
    match read_machine::<J>(alloc, story.tree(), json) {
        Ok(found) => match found {
            Some(machine) => Ok(machine),
            None => Err(SaveRefusal::BadSave),
        },
        Err(_) => Err(SaveRefusal::OutOfMemory),
    }
}

// The machine that a JSON value spells, if it spells one that fits the story. The one error is a refused request for memory,
// which only a value makes of which something is kept.
fn read_machine<'j, J: Lent<'j>>(
    alloc: Global,
    tree: &Tree,
    json: J,
) -> Result<Option<Machine>, AllocError>
    ensures made { IfOk result (λ made. Finds (nodes.story_tree tree.now) (save.unspelled (J.spells json)) made) }
    ensures mark { IfOk result (λ made. IfSome made (λ m. stood_of m ≡ unmarked)) }
    ensures memory { OnErr result (load_asks (J.spells json) ≡ true) }
{
    match read_saved::<J>(alloc, json)? {
        Some(saved) => build_machine(alloc, tree, &saved),
        None => Ok(None),
    }
}

// The machine of a save, if it fits the story. No mark stands in it. The one error is a refused request for memory.
fn build_machine(
    alloc: Global,
    tree: &Tree,
    saved: &SavedLayout<'_>,
) -> Result<Option<Machine>, AllocError>
    requires { Rest (layout_as saved.now) }
    ensures made { IfOk result (λ made. Finds (nodes.story_tree tree.now) (save.game_of (layout_as saved.now)) made) }
    ensures mark { IfOk result (λ made. IfSome made (λ m. stood_of m ≡ unmarked)) }
{
    match restore(alloc, tree, saved)? {
        Some(restored) => Ok(Some(machine_of(alloc, restored))),
        None => Ok(None),
    }
}

// The machine of what was restored.
fn machine_of(alloc: Global, restored: Restored) -> Machine
    ensures game { (s : StoryTree) → AreOwn s restored.shared.counts.rows → game_of s result ≡ restored_as s restored }
    ensures mark { stood_of result ≡ unmarked }
{
    let Restored {
        flow,
        aside,
        shared,
    } = restored;
    let fields = Fields {
        flow,
        aside,
        shared: shared_of(shared),
        output: Output::new(alloc),
    };
    Machine::from_parts(alloc, fields)
}

// What flows share that has these.
fn shared_of(parts: SharedParts) -> Shared
    ensures { (s : StoryTree) → AreOwn s parts.counts.rows → shared_of s result ≡ shared_as s parts }
{
    let SharedParts {
        globals,
        counts,
        turn,
    } = parts;
    Shared {
        globals,
        counts,
        turn,
    }
}
