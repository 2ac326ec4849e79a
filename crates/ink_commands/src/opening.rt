//! Opening a story anew (docs/RUNNING.md, "Opening").

ghost use Rattle.std.specs.Prelude.{◌≡◌, true, is_ok, Ok, IfOk, IfErr};
ghost use Rattle.ink_check.specs.Standing.{story_tree};
ghost use Rattle.ink_model.specs.Run.Flows.{one_flow};
ghost use Rattle.ink_model.specs.Memory.Refusals.{OpensShort};
ghost use Rattle.ink_model.specs.Run.Opening.{opening};
ghost use Rattle.ink_model.specs.declared.fault.Refusal.TheVariants as refusal;
ghost use Rattle.ink_step.specs.Marks.{stood_of, unmarked};
ghost use Rattle.ink_step.specs.Standing.{aside_in, config_of};

use ink_check::Story;
use ink_model::Refusal;
use ink_step::Machine;
use std::alloc::Global;

/// A machine at the start of a story that was opened before, with the globals that it declares. Room is made at once for so many
/// globals, where memory allows. Refused with `OutOfMemory` alone, where the declarations run to a step that asks for memory.
pub fn reopened(alloc: Global, story: &Story, room: usize) -> Result<Machine, Refusal>
    requires opens { is_ok (opening (story_tree story.now)) ≡ true }
    ensures ok { let s = story_tree story.now in IfOk result (λ m. opening s ≡ Ok (config_of s m)) }
    ensures aside { IfOk result (λ m. aside_in m ≡ one_flow) }
    ensures mark { IfOk result (λ m. stood_of m ≡ unmarked) }
    ensures err { IfErr result (λ r. (r ≡ refusal.OutOfMemory) × OpensShort (story_tree story.now)) }
{
    match Machine::open_with_room(alloc, story, room) {
        Ok(machine) => Ok(machine),
        Err(_) => Err(Refusal::OutOfMemory),
    }
}
