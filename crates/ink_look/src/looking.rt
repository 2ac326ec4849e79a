//! Looking past newlines: a mark is set at a newline, flow runs on, and goes back there, unless the newline was hidden or flow
//! stopped (docs/RUNNING.md, "Lines", "Marks").

ghost use Rattle.std.specs.Prelude.{◌≡◌, suc, length, List, Option, None, Some, true};
ghost use Rattle.ink_check.specs.Standing.{story_tree};
ghost use Rattle.ink_host.specs.Desk.{Grew, bound_by};
ghost use Rattle.ink_host.specs.Telling.{log_of};
ghost use Rattle.ink_line.specs.Look.{looked_by};
ghost use Rattle.ink_model.specs.Run.Ahead.{writes_words};
ghost use Rattle.ink_look.specs.LineEnds.{RunsToLine};
ghost use Rattle.ink_look.specs.Looking.{IsMarked, MarksHere, StandsAs, StepsOn, Waits, found_of, newline_from, search_after, waiting_after, waiting_then};
ghost use Rattle.ink_model.specs.Run.Configuration.{Configuration};
ghost use Rattle.ink_model.specs.Host.Events.{Made, calls};
ghost use Rattle.ink_model.specs.Run.Moments as runs;
ghost use Rattle.ink_model.specs.Text.Shown as rules;
ghost use Rattle.ink_model.specs.Story.Tree.{StoryTree};
ghost use Rattle.ink_model.specs.declared.host.Event.{Event as Happening};
ghost use Rattle.ink_model.specs.declared.host.Given.{Given as Gift};
ghost use Rattle.ink_step.specs.Marks.{config_back, stood_of, unmarked};
ghost use Rattle.ink_step.specs.Parts.{config_of_parts};
ghost use Rattle.ink_effects.specs.Refusals.{RunStopsAtRefusal, StepStopsAtRefusal};
ghost use Rattle.ink_step.specs.Standing.{aside_in, config_of, start_of};

use crate::ahead::writes_words;
use ink_check::Story;
use ink_host::{Desk, PureFn, TurnFn, Watcher};
use ink_model::{Fault, MAX_STEPS};
use ink_out::Output;
use ink_step::{Machine, Parts, StepEnd};

/// What a step comes to: no newline waits; or the one at this index in the line does, which may end it, and the machine has a mark
/// behind the step that wrote it; or the line was cut, or flow stopped.
#[derive(Clone, Copy)]
pub(crate) enum Looked {
    Nothing,
    Newline(usize),
    Cut,
    Stopped,
}

/// Where a newline stands in the line: shown, with no text or tag behind it or with one; or hidden.
#[derive(Clone, Copy)]
enum Standing {
    Last,
    Past,
    Hidden,
}

/// Runs to the end of a line, from where a running command has begun. True where it was cut, and the machine has gone back to its
/// newline; false where flow stopped. The fault is that of the line, or `OutOfMemory` for a refused request for memory; the globals
/// are then as they were before that step, or behind the newline where one waited, and the machine is of use for them alone.
/// Afterwards no mark is left.
pub(crate) fn find_line<P: PureFn, F: TurnFn, O: Watcher>(
    machine: &mut Machine,
    story: &Story,
    desk: &mut Desk<P, F, O>,
) -> Result<bool, Fault>
    requires unmarked { stood_of machine.old ≡ unmarked }
    ensures line { let s = story_tree story.now in let b = bound_by P.meaning desk.old.functions in
        (made : List Made) × Grew F.log (log_of O.state) desk.old (calls desk.old.next made) desk.new × RunsToLine s b (config_of s machine.old) made (config_of s machine.new) result }
    ensures refusals { RunStopsAtRefusal F.refusals desk.old desk.new result }
    ensures watchers { desk.new.watchers ≡ desk.old.watchers }
    ensures start { start_of machine.new ≡ start_of machine.old }
    ensures aside { aside_in machine.new ≡ aside_in machine.old }
    ensures mark { stood_of machine.new ≡ unmarked }
{
    let mut waiting: Option<usize> = None;
    for _step in 0..MAX_STEPS {
        match step_on(machine, story, desk, waiting)? {
            Looked::Nothing => waiting = None,
            Looked::Newline(newline) => waiting = Some(newline),
            Looked::Cut => return Ok(true),
            Looked::Stopped => return Ok(false),
        }
    }
    let Some(_newline) = waiting else {
        return Err(Fault::OutOfSteps);
    };
    let _changes = machine.back();
    Ok(true)
}

// One step, past a newline or not.
fn step_on<P: PureFn, F: TurnFn, O: Watcher>(
    machine: &mut Machine,
    story: &Story,
    desk: &mut Desk<P, F, O>,
    waiting: Option<usize>,
) -> Result<Looked, Fault>
    requires waits { Waits waiting machine.old }
    ensures steps { let s = story_tree story.now in let b = bound_by P.meaning desk.old.functions in
        (es : List Happening) × Grew F.log (log_of O.state) desk.old es desk.new
        × StepsOn s b desk.old.next waiting (config_back s machine.old) (config_of s machine.old) es (config_back s machine.new) (config_of s machine.new) result }
    ensures refusals { StepStopsAtRefusal F.refusals desk.old desk.new result }
    ensures watchers { desk.new.watchers ≡ desk.old.watchers }
    ensures start { start_of machine.new ≡ start_of machine.old }
    ensures aside { aside_in machine.new ≡ aside_in machine.old }
    ensures waits { Waits (waiting_then result) machine.new }
{
    match waiting {
        Some(newline) => look(machine, story, desk, newline),
        None => seek(machine, story, desk),
    }
}

// A step where no newline waits.
fn seek<P: PureFn, F: TurnFn, O: Watcher>(
    machine: &mut Machine,
    story: &Story,
    desk: &mut Desk<P, F, O>,
) -> Result<Looked, Fault>
    requires unmarked { stood_of machine.old ≡ unmarked }
    ensures steps { let s = story_tree story.now in let b = bound_by P.meaning desk.old.functions in
        (es : List Happening) × Grew F.log (log_of O.state) desk.old es desk.new
        × StepsOn s b desk.old.next None (config_back s machine.old) (config_of s machine.old) es (config_back s machine.new) (config_of s machine.new) result }
    ensures refusals { StepStopsAtRefusal F.refusals desk.old desk.new result }
    ensures watchers { desk.new.watchers ≡ desk.old.watchers }
    ensures start { start_of machine.new ≡ start_of machine.old }
    ensures aside { aside_in machine.new ≡ aside_in machine.old }
    ensures waits { Waits (waiting_then result) machine.new }
{
    let marks = machine.parts().output.len();
    match machine.step(story, desk, false)? {
        StepEnd::Went => Ok(found(machine, marks)),
        _ => Ok(Looked::Stopped),
    }
}

// A step past a newline, which calls no turn function, and is not taken where a text comes that is sure to end the line there. The
// one error is `OutOfMemory`, never where the step would call one or such a text comes, and the machine has gone back to the newline
// then; any other fault is left to the next line.
fn look<P: PureFn, F: TurnFn, O: Watcher>(
    machine: &mut Machine,
    story: &Story,
    desk: &mut Desk<P, F, O>,
    newline: usize,
) -> Result<Looked, Fault>
    requires waits { IsMarked machine.old }
    ensures steps { let s = story_tree story.now in let b = bound_by P.meaning desk.old.functions in
        (es : List Happening) × Grew F.log (log_of O.state) desk.old es desk.new
        × StepsOn s b desk.old.next (Some newline) (config_back s machine.old) (config_of s machine.old) es (config_back s machine.new) (config_of s machine.new) result }
    ensures refusals { StepStopsAtRefusal F.refusals desk.old desk.new result }
    ensures watchers { desk.new.watchers ≡ desk.old.watchers }
    ensures start { start_of machine.new ≡ start_of machine.old }
    ensures aside { aside_in machine.new ≡ aside_in machine.old }
    ensures waits { Waits (waiting_then result) machine.new }
{
    if is_followed(machine.parts(), story, newline) {
        return Ok(cut(machine));
    }
    let marks = machine.parts().output.len();
    match machine.step(story, desk, true) {
        Ok(StepEnd::Went) => Ok(went_on(machine, marks, newline)),
        Ok(StepEnd::Stopped) => Ok(stopped(machine, newline)),
        Err(Fault::OutOfMemory) => {
            let _undone = machine.back();
            Err(Fault::OutOfMemory)
        }
        Ok(StepEnd::WantsCall) => Ok(cut(machine)),
        Err(_) => Ok(cut(machine)),
    }
}

// Whether this newline is open, and the next step writes a text of more than white, behind which it stands.
#[inline(always)]
fn is_followed(parts: Parts<'_>, story: &Story, newline: usize) -> bool
    ensures followed { let s = story_tree story.now in let c = config_of_parts s parts.entry in
        result ≡ true → (writes_words s c ≡ true) × (rules.open_newline c.page.line ≡ Some newline) }
    ensures always { let s = story_tree story.now in let c = config_of_parts s parts.entry in
        writes_words s c ≡ true → rules.open_newline c.page.line ≡ Some newline → result ≡ true }
{
    writes_words(parts, story) && parts.output.open_newline() == Some(newline)
}

// After a step past a newline, which has marks of this number before it, where flow went on.
fn went_on(machine: &mut Machine, marks: usize, newline: usize) -> Looked
    requires waits { IsMarked machine.old }
    ensures looked { (s : StoryTree) (old : Configuration) → length old.page.line ≡ marks → (left : List (Option Gift)) (made : List Made) → let new = config_of s machine.old in
        looked_by (rules.is_shown new.page.line newline) (rules.more_from new.page.line (suc newline)) (runs.At (config_back s machine.old) left made) newline (runs.At old left made) (runs.At new left made)
        ≡ search_after result (config_back s machine.new) (config_of s machine.new) left made }
    ensures start { start_of machine.new ≡ start_of machine.old }
    ensures aside { aside_in machine.new ≡ aside_in machine.old }
    ensures waits { Waits (waiting_after result) machine.new }
{
    match judge(machine.parts().output, newline) {
        Standing::Last => Looked::Newline(newline),
        Standing::Past => cut(machine),
        Standing::Hidden => {
            machine.forget();
            found(machine, marks)
        }
    }
}

// After a step past a newline, where flow stopped.
fn stopped(machine: &mut Machine, newline: usize) -> Looked
    ensures looked { (s : StoryTree) (old : Configuration) (left : List (Option Gift)) (made : List Made) → let new = config_of s machine.old in
        looked_by (rules.is_shown new.page.line newline) (rules.more_from new.page.line (suc newline)) (runs.At (config_back s machine.old) left made) newline (runs.At old left made) (runs.Stopped new left made)
        ≡ search_after result (config_back s machine.new) (config_of s machine.new) left made }
    ensures start { start_of machine.new ≡ start_of machine.old }
    ensures aside { aside_in machine.new ≡ aside_in machine.old }
    ensures waits { Waits (waiting_after result) machine.new }
{
    match judge(machine.parts().output, newline) {
        Standing::Past => cut(machine),
        _ => {
            machine.forget();
            Looked::Stopped
        }
    }
}

// Goes back to the newline, which ends the line.
fn cut(machine: &mut Machine) -> Looked
    ensures cut { result ≡ Looked.Cut }
    ensures config { (s : StoryTree) → config_of s machine.new ≡ config_back s machine.old }
    ensures start { start_of machine.new ≡ start_of machine.old }
    ensures aside { aside_in machine.new ≡ aside_in machine.old }
    ensures mark { stood_of machine.new ≡ unmarked }
{
    let _pairs = machine.back();
    Looked::Cut
}

// The newline of a step that had so many marks before it, which waits from now on, if there is one.
#[inline(always)]
fn found(machine: &mut Machine, marks: usize) -> Looked
    requires unmarked { stood_of machine.old ≡ unmarked }
    ensures found { (s : StoryTree) → result ≡ found_of (newline_from marks (config_of s machine.old).page) }
    ensures config { (s : StoryTree) → config_of s machine.new ≡ config_of s machine.old }
    ensures here { (s : StoryTree) → MarksHere result (config_back s machine.new) (config_of s machine.new) }
    ensures start { start_of machine.new ≡ start_of machine.old }
    ensures aside { aside_in machine.new ≡ aside_in machine.old }
    ensures waits { Waits (waiting_after result) machine.new }
{
    match newline_since(machine.parts().output, marks) {
        Some(newline) => {
            machine.mark();
            Looked::Newline(newline)
        }
        None => Looked::Nothing,
    }
}

// With the line alone open, its newline from an index on that is shown last. Most steps leave no mark there.
#[inline(always)]
fn newline_since(output: &Output, marks: usize) -> Option<usize>
    ensures { result ≡ newline_from marks output.now.page }
{
    if output.len() <= marks {
        return None;
    }
    if output.depth() > 0 {
        return None;
    }
    match output.open_newline() {
        Some(newline) if newline >= marks => Some(newline),
        _ => None,
    }
}

// Where the newline at an index stands.
fn judge(output: &Output, newline: usize) -> Standing
    ensures { StandsAs result (rules.is_shown output.now.page.line newline) (rules.more_from output.now.page.line (suc newline)) }
{
    if let Some(last) = output.open_newline() {
        if last == newline {
            return Standing::Last;
        }
    }
    if output.is_shown(newline) {
        Standing::Past
    } else {
        Standing::Hidden
    }
}
