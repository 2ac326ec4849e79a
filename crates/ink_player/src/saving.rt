//! Machines and what they are saved as, and what a story has for that (docs/SAVES.md).

ghost use Rattle.std.specs.Prelude.{◌≡◌, IfOk};
ghost use Rattle.serde_json.specs.View.{view};
ghost use Rattle.ink_check.specs.Standing.{story_tree};
ghost use Rattle.ink_player.specs.Saving.{FindsSave, FindsText, IsSave, IsSaveText, save_refusal};
ghost use Rattle.ink_sound.specs.Kept.{StoryFits};
ghost use Rattle.ink_step.specs.Marks.{stood_of, unmarked};
ghost use Rattle.ink_step.specs.Standing.{game_of};

use ink_check::Story;
use ink_model::{Refusal, Text};
use ink_save::{SaveRefusal, read, read_text, write, write_text};
use ink_sound::spelled_stories_fit;
use ink_step::Machine;
use serde_json::Value as Json;
use std::alloc::Global;

/// The JSON value that a machine's game is spelled as. Refused with `OutOfMemory` alone.
pub(crate) fn saved(alloc: Global, story: &Story, machine: &Machine) -> Result<Json, Refusal>
    ensures { let s = story_tree story.now in IsSave (game_of s machine.now) result }
{
    match write(alloc, story, machine) {
        Ok(json) => Ok(json),
        Err(_) => Err(Refusal::OutOfMemory),
    }
}

/// The compact text of that value. Refused with `OutOfMemory` alone.
pub(crate) fn saved_text(alloc: Global, story: &Story, machine: &Machine) -> Result<Text, Refusal>
    ensures { let s = story_tree story.now in IsSaveText (game_of s machine.now) result }
{
    match write_text(alloc, story, machine) {
        Ok(text) => Ok(text),
        Err(_) => Err(Refusal::OutOfMemory),
    }
}

/// The machine whose game a JSON value spells. Refused with `BadSave` where it spells none that fits the story, and with
/// `OutOfMemory` where memory was refused, which is asked for only where something of the value is kept.
pub(crate) fn loaded(alloc: Global, story: &Story, json: &Json) -> Result<Machine, Refusal>
    ensures finds { FindsSave (story_tree story.now) (view json.now) result }
    ensures mark { IfOk result (λ m. stood_of m ≡ unmarked) }
{
    match read(alloc, story, json) {
        Ok(machine) => Ok(machine),
        Err(cause) => Err(save_refusal(cause)),
    }
}

/// The same of the JSON that a text spells. Refused with `BadSave` also where it spells none, and with `OutOfMemory` also where memory
/// was refused to read a text that is not empty.
pub(crate) fn loaded_text(alloc: Global, story: &Story, text: &str) -> Result<Machine, Refusal>
    ensures finds { FindsText (story_tree story.now) text.now result }
    ensures mark { IfOk result (λ m. stood_of m ≡ unmarked) }
{
    match read_text(alloc, story, text) {
        Ok(machine) => Ok(machine),
        Err(cause) => Err(save_refusal(cause)),
    }
}

// Why no machine was read, among the refusals of all commands.
fn save_refusal(cause: SaveRefusal) -> Refusal
    ensures { result ≡ save_refusal cause }
{
    match cause {
        SaveRefusal::BadSave => Refusal::BadSave,
        SaveRefusal::OutOfMemory => Refusal::OutOfMemory,
    }
}

/// An accepted story has what the laws of saves ask of one. Does nothing.
pub(crate) fn story_fits(story: &Story)
    ensures { StoryFits (story_tree story.now) }
{
    // No effect at run time: a proof reads from it that the tree is one that was accepted.
    let _tree = story.tree();
    spelled_stories_fit();
}
