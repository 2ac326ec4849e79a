//! Jumping to where a path leads (docs/RUNNING.md, "Choosing and jumping").

ghost use Rattle.std.specs.Prelude.{◌≡◌, ℕ};
ghost use Rattle.ink_check.specs.Standing.{story_tree};
ghost use Rattle.ink_commands.specs.Paths.{JumpsTo};
ghost use Rattle.ink_commands.specs.States.{state_in};
ghost use Rattle.ink_model.specs.Protocol.Answer.{reply_of_landing};
ghost use Rattle.ink_step.specs.Marks.{stood_of, unmarked};

use crate::path::landing_by;
use ink_check::Story;
use ink_model::{Fault, Refusal};
use ink_step::Machine;
use std::alloc::Global;

/// Ends all threads and choices, and lands where a path leads, in the next turn. Refused with `Broken` where a fault broke the
/// player; with `NoSuchPath` where the text is no path, or a relative one, or where it leads to nothing; and with `OutOfMemory`
/// where memory was refused, for the path or for a container that is entered for the first time. Nothing has changed then.
pub fn jump(
    alloc: Global,
    machine: &mut Machine,
    story: &Story,
    broken: Option<Fault>,
    path: &str,
) -> Result<(), Refusal>
    requires unmarked { stood_of machine.old ≡ unmarked }
    ensures does { let s = story_tree story.now in (n : ℕ) → JumpsTo s path.now (state_in s broken machine.old n) (reply_of_landing result) (state_in s broken machine.new n) }
    ensures mark { stood_of machine.new ≡ unmarked }
{
    if let Some(fault) = broken {
        return Err(Refusal::Broken(fault));
    }
    let place = match landing_by(alloc, story, path) {
        Ok(place) => place,
        Err(refusal) => return Err(refusal),
    };
    let Ok(()) = machine.jump(story, place) else {
        return Err(Refusal::OutOfMemory);
    };
    Ok(())
}
