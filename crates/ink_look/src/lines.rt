//! Lines (docs/RUNNING.md, "Lines").

ghost use Rattle.std.specs.Prelude.{◌≡◌, List};
ghost use Rattle.ink_check.specs.Standing.{story_tree};
ghost use Rattle.ink_host.specs.Desk.{Grew, bound_by};
ghost use Rattle.ink_host.specs.Telling.{log_of};
ghost use Rattle.ink_look.specs.LineEnds.{LineStopsAtRefusal, RunsLine, SaysLine};
ghost use Rattle.ink_look.specs.Said.{said, said_asks};
ghost use Rattle.ink_model.specs.Host.Events.{Made, calls};
ghost use Rattle.ink_model.specs.Story.Tree.{StoryTree};
ghost use Rattle.ink_step.specs.Marks.{stood_of, unmarked};
ghost use Rattle.ink_step.specs.Standing.{aside_in, config_of, globals_of, start_of};

use crate::looking::find_line;
use crate::said::{Said, said_by};
use ink_check::Story;
use ink_host::{Desk, PureFn, TurnFn, Watcher};
use ink_model::Fault;
use ink_step::Machine;

/// How a line ends: where it was cut, behind its newline; where flow stopped; or with a fault.
#[derive(Drop)]
pub enum LineEnd {
    Line(Said),
    Stopped(Said),
    Fault(Fault),
}

/// Runs one line and answers what was said; afterwards no mark is left. It looks past a newline to learn whether that stands, and of
/// what it finds there nothing is kept. Turn functions are called on the desk, once for each call of the line, and never past a
/// newline that is shown; no watcher is told. The fault is that of the step that faulted with no newline open, `OutOfSteps` after
/// 1,000,000 steps without one, or `OutOfMemory` where memory was refused to a step that asks for it, to what came of a call that it
/// made, to a look past a newline at a step that calls no turn function and writes no text of more than white, or at the end to a
/// text of more than blanks or to tags. After a fault the globals are as they were before the step that faulted or was refused
/// memory, or behind the newline where a look past it was; and the machine is of use for them alone (docs/RUNNING.md, "Lines", "Out
/// of memory").
pub fn line<P: PureFn, F: TurnFn, O: Watcher>(
    machine: &mut Machine,
    story: &Story,
    desk: &mut Desk<P, F, O>,
) -> LineEnd
    ensures line { let s = story_tree story.now in let b = bound_by P.meaning desk.old.functions in
        (made : List Made) × Grew F.log (log_of O.state) desk.old (calls desk.old.next made) desk.new × RunsLine said said_asks s b (config_of s machine.old) made (config_of s machine.new) result }
    ensures refusals { LineStopsAtRefusal F.refusals desk.old desk.new result }
    ensures watchers { desk.new.watchers ≡ desk.old.watchers }
    ensures start { start_of machine.new ≡ globals_of machine.old }
    ensures aside { aside_in machine.new ≡ aside_in machine.old }
    ensures mark { stood_of machine.new ≡ unmarked }
{
    machine.begin();
    match find_line(machine, story, desk) {
        Ok(is_cut) => say(machine, is_cut),
        Err(fault) => LineEnd::Fault(fault),
    }
}

/// What is said on the line, which was cut or not; afterwards no mark is left.
fn say(machine: &mut Machine, is_cut: bool) -> LineEnd
    requires unmarked { stood_of machine.old ≡ unmarked }
    ensures says { (s : StoryTree) → SaysLine said said_asks is_cut (config_of s machine.old) (config_of s machine.new) result }
    ensures start { start_of machine.new ≡ start_of machine.old }
    ensures aside { aside_in machine.new ≡ aside_in machine.old }
    ensures mark { stood_of machine.new ≡ unmarked }
{
    let Ok(said) = said_by(machine) else {
        return LineEnd::Fault(Fault::OutOfMemory);
    };
    machine.settle();
    if is_cut {
        LineEnd::Line(said)
    } else {
        LineEnd::Stopped(said)
    }
}
