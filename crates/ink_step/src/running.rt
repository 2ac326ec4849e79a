//! The run of a command: steps to the stop, and the choices that are open there (docs/RUNNING.md, "Runs").

ghost use Rattle.std.specs.Prelude.{◌≡◌, ◌≢◌, [], List, IfOk, OnErr};
ghost use Rattle.ink_check.specs.Standing.{story_tree};
ghost use Rattle.ink_host.specs.Desk.{Grew, bound_by};
ghost use Rattle.ink_host.specs.Telling.{log_of};
ghost use Rattle.ink_model.specs.Host.Events.{Made, calls};
ghost use Rattle.ink_model.specs.Story.Tree.{StoryTree};
ghost use Rattle.ink_model.specs.Protocol.Turns.{open_choices};
ghost use Rattle.ink_step.specs.Marks.{NotesOwn, keeps_mark, pressed, stood_of};
ghost use Rattle.ink_model.specs.declared.limits.TheConstants.{MAX_STEPS};
ghost use Rattle.ink_effects.specs.Refusals.{RunStopsAtRefusal};
ghost use Rattle.ink_step.specs.Runs.{AreBound, RunsToStop};

use crate::machine::Machine;
use ink_check::Story;
use ink_host::{Desk, PureFn, TurnFn, Watcher};
use ink_model::{Fault, MAX_STEPS, Seq, Shown};
use std::alloc::AllocError;

impl Machine {
    ghost use Rattle.ink_step.specs.Standing.{aside_in, config_of, start_of};

    /// Steps to the stop, from where a running command has begun. The fault is that of the step that faulted, `OutOfSteps` after
    /// 1,000,000 steps, or `OutOfMemory` where memory was refused to a step that asks for it, or for what came of a call that it
    /// made, or for what a mark wants of a step; the globals are then as they were before that step, and the machine is of use for
    /// them alone (docs/RUNNING.md, "Runs").
    pub fn run<P: PureFn, T: TurnFn, W: Watcher>(
        &mut self,
        story: &Story,
        desk: &mut Desk<P, T, W>,
    ) -> Result<(), Fault>
        ensures runs { let s = story_tree story.now in let b = bound_by P.meaning desk.old.functions in
            (made : List Made) × Grew T.log (log_of W.state) desk.old (calls desk.old.next made) desk.new × RunsToStop s b (keeps_mark (stood_of self.old)) (pressed s self.new) (config_of s self.old) made (config_of s self.new) result × AreBound b made }
        ensures refusals { RunStopsAtRefusal T.refusals desk.old desk.new result }
        ensures watchers { desk.new.watchers ≡ desk.old.watchers }
        ensures start { start_of self.new ≡ start_of self.old }
        ensures own { NotesOwn MAX_STEPS self.old.trail self.new.trail }
        ensures aside { aside_in self.new ≡ aside_in self.old }
        ensures mark { stood_of self.new ≡ stood_of self.old }
    {
        for _step in 0..MAX_STEPS {
            if !self.forward(story, desk)? {
                return Ok(());
            }
        }
        Err(Fault::OutOfSteps)
    }

    /// The visible choices, none while flow has not stopped. The one error is a refused request for memory, which is made only
    /// where there are some.
    pub fn choices(&self) -> Result<Seq<Shown>, AllocError>
        ensures choices { (s : StoryTree) → IfOk result (λ shown. shown ≡ open_choices (config_of s self.now)) }
        ensures memory { (s : StoryTree) → OnErr result (open_choices (config_of s self.now) ≢ []) }
    {
        if self.can_go_on() {
            return Ok(Seq::new(self.alloc));
        }
        self.flow.choices.visible(self.alloc)
    }
}
