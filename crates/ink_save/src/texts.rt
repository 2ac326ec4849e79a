//! The machine that a text of JSON spells.

ghost use Rattle.std.specs.Prelude.{◌≡◌, IfOk};
ghost use Rattle.ink_check.specs.Standing.{story_tree};
ghost use Rattle.ink_save.specs.Loads.{ReadsText};
ghost use Rattle.ink_step.specs.Marks.{stood_of, unmarked};
ghost use Rattle.json_tape.specs.Spelled.{held};
ghost use Rattle.serde_json.specs.Read.{read as spelled_by};

use crate::loading::{SaveRefusal, read};
use ink_check::Story;
use ink_step::Machine;
use json::Scratch;
use json_tape::value::root;
use json_tape::{Ordered, Parsed, Tape};
use serde_json::Value;
use std::alloc::Global;

/// The machine that a text of JSON spells. Refused with `BadSave` where the text is no JSON, or spells none that fits the story, and
/// with `OutOfMemory` where memory was refused, which is asked for only where the text is not empty. No mark stands in the machine.
///
/// The text is read without a tree of values, unless an object in it has names in another order than a save has.
#[inline(never)]
pub fn read_text(alloc: Global, story: &Story, text: &str) -> Result<Machine, SaveRefusal>
    ensures reads { ReadsText (story_tree story.now) text.now result }
    ensures mark { IfOk result (λ m. stood_of m ≡ unmarked) }
{
    // An empty text is refused without a request for memory.
    if text.is_empty() {
        return read_tree(alloc, story, text);
    }
    let mut scratch = Scratch::new(alloc);
    match Parsed::of(alloc, text, &mut scratch) {
        Ok(Parsed::Tape(tape)) => read_tape(alloc, story, text, &tape),
        Ok(Parsed::NotJson) => Err(SaveRefusal::BadSave),
        Ok(Parsed::TooLong) => read_tree(alloc, story, text),
        Err(_) => Err(SaveRefusal::OutOfMemory),
    }
}

// The same of a text whose tape this is.
fn read_tape(
    alloc: Global,
    story: &Story,
    text: &str,
    tape: &Tape<'_>,
) -> Result<Machine, SaveRefusal>
    requires { held tape.now ≡ spelled_by text.now }
    ensures reads { ReadsText (story_tree story.now) text.now result }
    ensures mark { IfOk result (λ m. stood_of m ≡ unmarked) }
{
    let Some(value) = root(tape) else {
        return Err(SaveRefusal::BadSave);
    };
    match Ordered::of(value) {
        Some(ordered) => read(alloc, story, ordered),
        None => read_tree(alloc, story, text),
    }
}

// The same by a tree of values.
fn read_tree(alloc: Global, story: &Story, text: &str) -> Result<Machine, SaveRefusal>
    ensures reads { ReadsText (story_tree story.now) text.now result }
    ensures mark { IfOk result (λ m. stood_of m ≡ unmarked) }
{
    match Value::from_str(alloc, text) {
        Ok(json) => read(alloc, story, &json),
        Err(error) => {
            if error.is_memory() {
                return Err(SaveRefusal::OutOfMemory);
            }
            Err(SaveRefusal::BadSave)
        }
    }
}
