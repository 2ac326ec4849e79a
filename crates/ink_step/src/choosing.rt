//! Where choices lead, and jumps (docs/RUNNING.md, "Choosing and jumping").

ghost use Rattle.ink_stack.specs.Undo.{threads_spare};
ghost use Rattle.ink_choice.specs.Undo.{choices_spare, choices_stood};
ghost use Rattle.std.specs.Prelude.{◌≡◌, is_some, false, Some, true, MatchOption, OnErr, OnOk, ◌≤◌, ◌||◌, IfErr, IfOk, length};
ghost use Rattle.ink_check.specs.Standing.{story_tree};
ghost use Rattle.ink_model.specs.Choices.Choosing.{default_asks, default_choice, jumped, open_choice, stopped_by, taken_up};
ghost use Rattle.ink_model.specs.Run.Configuration.{map_choice};
ghost use Rattle.ink_model.specs.Story.Tree.{StoryTree};
ghost use Rattle.ink_model.specs.Run.Visits.{around, entering_around, entering_asks};
ghost use Rattle.ink_step.specs.Marks.{choices_lack, choosing_lacks, own_back, own_lacks, own_of, own_spare, pressed, stood_of, threads_lack, turn_lacks};
ghost use Rattle.ink_step.specs.Steps.{Chooses, StepEnds};
ghost use Rattle.ink_step.specs.Standing.{aside_in, config_of, start_of};
ghost use Rattle.ink_trail.specs.Undo.{KeepsTrail, Trails, TrailsOrKeeps};
ghost use Rattle.ink_tree.specs.Nodes.{place_of};

use crate::machine::Machine;
use ink_check::Story;
use ink_choice::Choice;
use ink_effects::{enter_landed, ready_choices, ready_threads};
use ink_model::{Fault, Refusal};
use ink_moves::StepEnd;
use ink_trail::Undo;
use ink_tree::Spot;
use ink_vars::Turn;
use std::alloc::AllocError;

impl Machine {
    /// Flow has stopped. Where there are choices and none is visible it goes on where the first of them leads, in the same turn.
    /// The one error is a refused request for memory, which is made only for a container that is entered for the first time.
    #[inline(never)]
    pub(crate) fn follow_default(&mut self, story: &Story) -> Result<StepEnd, Fault>
        requires room { 2 ≤ threads_spare self.old.flow.threads }
        ensures ends { let s = story_tree story.now in let c = config_of s self.old in let choice = default_choice c.flow.choices in
            StepEnds (pressed s self.new || default_asks s choice c) (stopped_by s choice c) self.old.shared.globals.rows (config_of s self.new) result }
        ensures globals { self.new.shared.globals.rows ≡ self.old.shared.globals.rows }
        ensures start { start_of self.new ≡ start_of self.old }
        ensures own { self.new.trail ≡ self.old.trail }
        ensures aside { aside_in self.new ≡ aside_in self.old }
        ensures mark { stood_of self.new ≡ stood_of self.old }
    {
        if !self.flow.choices.only_invisible() {
            return Ok(StepEnd::Stopped);
        }
        match self.flow.choices.take(0)? {
            Some(choice) => {
                ready_choices(&mut self.flow.choices, 1)?;
                self.take_up(choice);
                match self.enter_around(story.tree(), true) {
                    Ok(()) => Ok(StepEnd::Went),
                    Err(fault) => Err(fault),
                }
            }
            None => Ok(StepEnd::Stopped),
        }
    }

    // Flow is where a choice leads, in the choice's thread alone, and no choice is left.
    fn take_up(&mut self, choice: Choice<Spot>)
        requires room { 2 ≤ threads_spare self.old.flow.threads }
        requires choices_room { 1 ≤ choices_spare self.old.flow.choices }
        ensures taken { (s : StoryTree) → config_of s self.new ≡ taken_up (map_choice (place_of s) choice) (config_of s self.old) }
        ensures globals { self.new.shared.globals.rows ≡ self.old.shared.globals.rows }
        ensures start { start_of self.new ≡ start_of self.old }
        ensures aside { aside_in self.new ≡ aside_in self.old }
        ensures alone { self.new ≡ record self.old { flow = record self.old.flow { threads = self.new.flow.threads; choices = self.new.flow.choices } } }
        ensures mark { stood_of self.new ≡ stood_of self.old }
    {
        let Choice { target, thread, .. } = choice;
        self.flow.threads.replace(thread);
        self.flow.threads.put(Some(target));
        self.flow.choices.clear();
    }

    /// Takes the n-th of the choices that are shown, counted from 0: the threads are the choice's copy alone, no choice is left,
    /// and flow lands where it leads, in the next turn. `NotAChoice` where flow has not stopped or there is no such choice;
    /// `OutOfMemory` for a refused request for memory, which is made only for a container that is entered for the first time, and
    /// while a mark stands for a copy of the choice and for notes. On an error nothing has changed (docs/RUNNING.md, "Choosing and jumping").
    pub fn choose(&mut self, story: &Story, number: usize) -> Result<(), Refusal>
        ensures chooses { let s = story_tree story.now in let c = config_of s self.old in let choice = open_choice number c in
            Chooses s (choosing_lacks s choice self.old self.new) choice c (config_of s self.new) result }
        ensures start { start_of self.new ≡ start_of self.old }
        ensures aside { aside_in self.new ≡ aside_in self.old }
        ensures own { TrailsOrKeeps own_back 1 (own_of self.old) self.old.trail (own_of self.new) self.new.trail result }
        ensures mark { stood_of self.new ≡ stood_of self.old }
    {
        if self.can_go_on() {
            return Err(Refusal::NotAChoice);
        }
        let Some(choice) = self.flow.choices.visible_at(number) else {
            return Err(Refusal::NotAChoice);
        };
        let previous = choice.thread.previous();
        let target = choice.target;
        let copied = self.copied_choice(choice)?;
        self.make_choosing_room()?;
        let turn = self.shared.turn.next();
        match enter_landed(
            story.tree(),
            &mut self.shared.counts,
            previous,
            target,
            turn,
        ) {
            Ok(()) => {}
            Err(_) => return Err(Refusal::OutOfMemory),
        }
        match copied {
            Some(choice) => {
                self.take_up_next(choice, turn);
                Ok(())
            }
            None => match self.flow.choices.take(number) {
                Ok(Some(choice)) => {
                    self.take_up_next(choice, turn);
                    Ok(())
                }
                Ok(None) => Err(Refusal::NotAChoice),
                Err(_) => Err(Refusal::OutOfMemory),
            },
        }
    }

    // The same in another turn.
    fn take_up_next(&mut self, choice: Choice<Spot>, turn: Turn)
        requires room { 2 ≤ threads_spare self.old.flow.threads }
        requires choices_room { 1 ≤ choices_spare self.old.flow.choices }
        requires own_room { 1 ≤ own_spare self.old.trail }
        ensures taken { (s : StoryTree) → let c = config_of s self.old in config_of s self.new ≡ taken_up (map_choice (place_of s) choice) (record c { shared = record c.shared { turn = turn } }) }
        ensures start { start_of self.new ≡ start_of self.old }
        ensures aside { aside_in self.new ≡ aside_in self.old }
        ensures own { Trails own_back 1 (own_of self.old) self.old.trail (own_of self.new) self.new.trail }
        ensures mark { stood_of self.new ≡ stood_of self.old }
    {
        self.set_turn(turn);
        self.take_up(choice);
    }

    // A copy of a choice, where a mark stands that keeps the choices: so that taking it up cannot fail. The one error is a refused
    // request for memory.
    fn copied_choice(&self, choice: &Choice<Spot>) -> Result<Option<Choice<Spot>>, Refusal>
        ensures copy { IfOk result (λ copied. MatchOption copied (is_some (choices_stood self.now.flow.choices) ≡ false) (λ copy. copy ≡ choice.now)) }
        ensures fault { IfErr result (λ r. r ≡ Refusal.OutOfMemory) }
        ensures memory { OnErr result (is_some (choices_stood self.now.flow.choices) ≡ true) }
    {
        if !self.flow.choices.is_marked() {
            return Ok(None);
        }
        match choice.clone_in(self.alloc) {
            Ok(copy) => Ok(Some(copy)),
            Err(_) => Err(Refusal::OutOfMemory),
        }
    }

    // Makes room for what a choice or a jump changes, where a mark stands. The one error is a refused request for memory, and nothing
    // has changed then.
    fn make_choosing_room(&mut self) -> Result<(), Refusal>
        ensures config { (s : StoryTree) → config_of s self.new ≡ config_of s self.old }
        ensures items { self.new.flow.choices.items ≡ self.old.flow.choices.items }
        ensures start { start_of self.new ≡ start_of self.old }
        ensures aside { aside_in self.new ≡ aside_in self.old }
        ensures same { own_of self.new ≡ own_of self.old }
        ensures kept { KeepsTrail self.old.trail self.new.trail }
        ensures mark { stood_of self.new ≡ stood_of self.old }
        ensures threads { OnOk result (2 ≤ threads_spare self.new.flow.threads) }
        ensures choices { OnOk result (2 ≤ choices_spare self.new.flow.choices) }
        ensures own { OnOk result (2 ≤ own_spare self.new.trail) }
        ensures fault { IfErr result (λ r. r ≡ Refusal.OutOfMemory) }
        ensures memory { OnErr result (threads_lack 2 self.new || (choices_lack 2 self.new || own_lacks 2 self.new) ≡ true) }
    {
        if ready_threads(&mut self.flow.threads, 2).is_err()
            || ready_choices(&mut self.flow.choices, 2).is_err()
            || self.make_own_room().is_err()
        {
            return Err(Refusal::OutOfMemory);
        }
        Ok(())
    }

    /// Ends all threads and choices, and lands at a place, in the next turn. The one error is a refused request for memory,
    /// which is made only for a container that is entered for the first time, and while a mark stands for notes; nothing has
    /// changed then (docs/RUNNING.md, "Choosing and jumping").
    pub fn jump(&mut self, story: &Story, place: Spot) -> Result<(), AllocError>
        ensures ok { let s = story_tree story.now in OnOk result (config_of s self.new ≡ entering_around s (jumped (place_of s place) (config_of s self.old))) }
        ensures err { let s = story_tree story.now in OnErr result (config_of s self.new ≡ config_of s self.old) }
        ensures memory { let s = story_tree story.now in let there = jumped (place_of s place) (config_of s self.old) in
            OnErr result ((turn_lacks (length (around s there.flow.threads)) self.new || entering_asks s there) ≡ true) }
        ensures start { start_of self.new ≡ start_of self.old }
        ensures aside { aside_in self.new ≡ aside_in self.old }
        ensures own { TrailsOrKeeps own_back 2 (own_of self.old) self.old.trail (own_of self.new) self.new.trail result }
        ensures mark { stood_of self.new ≡ stood_of self.old }
    {
        if self.make_choosing_room().is_err() {
            return Err(AllocError);
        }
        let turn = self.shared.turn.next();
        match enter_landed(story.tree(), &mut self.shared.counts, None, place, turn) {
            Ok(()) => {
                self.flow.threads.reset();
                self.flow.threads.put(Some(place));
                self.flow.choices.clear();
                self.set_safe(true);
                self.set_turn(turn);
                Ok(())
            }
            Err(_) => Err(AllocError),
        }
    }
}
