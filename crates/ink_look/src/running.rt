//! Runs to the stop (docs/RUNNING.md, "Runs").

ghost use Rattle.std.specs.Prelude.{◌≡◌, List};
ghost use Rattle.ink_check.specs.Standing.{story_tree};
ghost use Rattle.ink_host.specs.Desk.{Grew, bound_by};
ghost use Rattle.ink_host.specs.Telling.{log_of};
ghost use Rattle.ink_look.specs.Extents.{RunsBy};
ghost use Rattle.ink_look.specs.Said.{said, said_asks};
ghost use Rattle.ink_look.specs.declared.passages.Extent.TheVariants.{Stop};
ghost use Rattle.ink_model.specs.Host.Events.{Made, calls};
ghost use Rattle.ink_step.specs.Marks.{stood_of, unmarked};
ghost use Rattle.ink_effects.specs.Refusals.{RunStopsAtRefusal};
ghost use Rattle.ink_step.specs.Standing.{aside_in, config_of, globals_of, start_of};

use crate::said::{Said, said_by};
use ink_check::Story;
use ink_host::{Desk, PureFn, TurnFn, Watcher};
use ink_model::Fault;
use ink_step::Machine;

/// Runs to the stop and answers what was said; afterwards no mark is left. Turn functions are called on the desk, once for each
/// call of the run; no watcher is told. The fault is that of the step that faulted, `OutOfSteps` after 1,000,000 steps, or
/// `OutOfMemory` where memory was refused to a step that asks for it, to what came of a call that it made, or at the stop to a
/// text of more than blanks or to tags. After a fault the globals are as they were before that step, and the machine is of use
/// for them alone (docs/RUNNING.md, "Runs", "Out of memory").
pub fn through<P: PureFn, F: TurnFn, O: Watcher>(
    machine: &mut Machine,
    story: &Story,
    desk: &mut Desk<P, F, O>,
) -> Result<Said, Fault>
    ensures runs { let s = story_tree story.now in let b = bound_by P.meaning desk.old.functions in
        (made : List Made) × Grew F.log (log_of O.state) desk.old (calls desk.old.next made) desk.new × RunsBy said said_asks Stop s b (config_of s machine.old) made (config_of s machine.new) result }
    ensures refusals { RunStopsAtRefusal F.refusals desk.old desk.new result }
    ensures watchers { desk.new.watchers ≡ desk.old.watchers }
    ensures start { start_of machine.new ≡ globals_of machine.old }
    ensures aside { aside_in machine.new ≡ aside_in machine.old }
    ensures mark { stood_of machine.new ≡ unmarked }
{
    machine.begin();
    machine.run(story, desk)?;
    let said = said_by(machine)?;
    machine.settle();
    Ok(said)
}
