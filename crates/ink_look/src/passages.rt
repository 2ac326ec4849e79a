//! Running commands, and the passages that they answer (docs/PROTOCOL.md, "Answers").

ghost use Rattle.std.specs.Prelude.{◌≡◌, ◌≢◌, [], List, IfOk, OnErr};
ghost use Rattle.ink_check.specs.Standing.{story_tree};
ghost use Rattle.ink_host.specs.Desk.{Grew, bound_by};
ghost use Rattle.ink_host.specs.Telling.{log_of};
ghost use Rattle.ink_look.specs.Said.{said, said_asks};
ghost use Rattle.ink_model.specs.Host.Events.{Made, calls};
ghost use Rattle.ink_model.specs.Protocol.Passage.{passage, passage_asks};
ghost use Rattle.ink_model.specs.Story.Tree.{StoryTree};
ghost use Rattle.ink_model.specs.Protocol.Turns.{open_choices};
ghost use Rattle.ink_look.specs.Extents.{RunsBy};
ghost use Rattle.ink_look.specs.Passages.{passage_of};
ghost use Rattle.ink_step.specs.Marks.{stood_of, unmarked};
ghost use Rattle.ink_effects.specs.Refusals.{RunStopsAtRefusal};
ghost use Rattle.ink_step.specs.Standing.{aside_in, config_of, globals_of, start_of};

use crate::lines::{LineEnd, line};
use crate::running::through;
use crate::said::Said;
use ink_check::Story;
use ink_host::{Desk, PureFn, TurnFn, Watcher};
use ink_model::{Fault, Passage, Seq};
use ink_step::Machine;
use std::alloc::{AllocError, Global};

/// How far a running command goes: to the end of a line, or to the stop.
#[derive(Clone, Copy)]
pub enum Extent {
    Line,
    Stop,
}

/// Runs as far as is asked and answers the passage, without its events. The fault is that of `line` or `through`, or `OutOfMemory`
/// where memory was refused for choices that are open. After a fault the machine is of no more use, but for its globals.
pub fn run_to<P: PureFn, F: TurnFn, O: Watcher>(
    alloc: Global,
    extent: Extent,
    machine: &mut Machine,
    story: &Story,
    desk: &mut Desk<P, F, O>,
) -> Result<Passage, Fault>
    ensures runs { let s = story_tree story.now in let b = bound_by P.meaning desk.old.functions in
        (made : List Made) × Grew F.log (log_of O.state) desk.old (calls desk.old.next made) desk.new × RunsBy passage passage_asks extent s b (config_of s machine.old) made (config_of s machine.new) result }
    ensures refusals { RunStopsAtRefusal F.refusals desk.old desk.new result }
    ensures watchers { desk.new.watchers ≡ desk.old.watchers }
    ensures start { start_of machine.new ≡ globals_of machine.old }
    ensures aside { aside_in machine.new ≡ aside_in machine.old }
    ensures mark { stood_of machine.new ≡ unmarked }
{
    let said = say(extent, machine, story, desk)?;
    let passage = passage_of(alloc, machine, said)?;
    Ok(passage)
}

// Runs as far as is asked and answers what was said.
fn say<P: PureFn, F: TurnFn, O: Watcher>(
    extent: Extent,
    machine: &mut Machine,
    story: &Story,
    desk: &mut Desk<P, F, O>,
) -> Result<Said, Fault>
    ensures runs { let s = story_tree story.now in let b = bound_by P.meaning desk.old.functions in
        (made : List Made) × Grew F.log (log_of O.state) desk.old (calls desk.old.next made) desk.new × RunsBy said said_asks extent s b (config_of s machine.old) made (config_of s machine.new) result }
    ensures refusals { RunStopsAtRefusal F.refusals desk.old desk.new result }
    ensures watchers { desk.new.watchers ≡ desk.old.watchers }
    ensures start { start_of machine.new ≡ globals_of machine.old }
    ensures aside { aside_in machine.new ≡ aside_in machine.old }
    ensures mark { stood_of machine.new ≡ unmarked }
{
    match extent {
        Extent::Stop => through(machine, story, desk),
        Extent::Line => match line(machine, story, desk) {
            LineEnd::Line(said) => Ok(said),
            LineEnd::Stopped(said) => Ok(said),
            LineEnd::Fault(fault) => Err(fault),
        },
    }
}

// The passage of what a machine has said, as it stands now, without events. The one error is a refused request for memory, which
// is made only where there are choices to choose.
fn passage_of(alloc: Global, machine: &Machine, said: Said) -> Result<Passage, AllocError>
    ensures passage { (s : StoryTree) → IfOk result (λ p. p ≡ passage_of said (config_of s machine.now)) }
    ensures memory { (s : StoryTree) → OnErr result (open_choices (config_of s machine.now) ≢ []) }
{
    let choices = machine.choices()?;
    let Said { text, tags } = said;
    Ok(Passage {
        text,
        tags,
        choices,
        events: Seq::new(alloc),
        more: machine.can_go_on(),
        loose: machine.is_loose(),
    })
}
