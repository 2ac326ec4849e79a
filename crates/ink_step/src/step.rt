//! One step of the machine: enter, effect, move (docs/RUNNING.md, "Steps").

ghost use Rattle.ink_value.specs.Undo.{stack_spare, stack_stood};
ghost use Rattle.ink_stack.specs.Undo.{threads_spare};
ghost use Rattle.std.specs.Prelude.{◌≡◌, ◌⊎◌, ◌||◌, Bool, List, true, false, Some, Ok, IfSome, OnOk, nat_lt, option_and_then, option_map, ◌≤◌, ◌+◌, IfErr, OnErr, length, ◌&&◌, is_some, MatchOption, None};
ghost use Rattle.ink_check.specs.Standing.{story_tree};
ghost use Rattle.ink_host.specs.Desk.{Grew, bound_by};
ghost use Rattle.ink_host.specs.Telling.{log_of};
ghost use Rattle.ink_model.specs.Memory.Asks.{calling_asks, external_asks};
ghost use Rattle.ink_model.specs.Choices.Choosing.{following, following_asks};
ghost use Rattle.ink_model.specs.Run.Effect.{Effect, Fields, context_of, fields_of};
ghost use Rattle.ink_model.specs.Flow.Transfers.{called, moved_on, reach, returned};
ghost use Rattle.ink_model.specs.Flow.Frames.{map_threads, on_top, place_in};
ghost use Rattle.ink_model.specs.Host.Bindings.{Bound};
ghost use Rattle.ink_model.specs.Memory.Refusals.{asks, content_asks};
ghost use Rattle.ink_model.specs.Run.Move.{Outcome, going, landing_outcome, may_enter, move as moved, place_to, written_in};
ghost use Rattle.ink_model.specs.Memory.Moves.{landed_asks, move_asks, moved_asks, returned_asks};
ghost use Rattle.ink_model.specs.Run.Place.{next_place};
ghost use Rattle.ink_model.specs.Run.Step.{acted, call_made, effect, step};
ghost use Rattle.ink_model.specs.Run.Step.Calls as calls;
ghost use Rattle.ink_model.specs.Run.Step.Diverts as diverts;
ghost use Rattle.ink_model.specs.Run.Step.Host.{call_at, call_external};
ghost use Rattle.ink_model.specs.Run.Step.Variables as effects;
ghost use Rattle.ink_model.specs.Flow.Threads.{frame_count, staled};
ghost use Rattle.ink_model.specs.Story.Acceptance.{lands_to, written_target};
ghost use Rattle.ink_model.specs.Story.Tree.{StoryTree, at, leaf};
ghost use Rattle.ink_model.specs.Memory.Variables.{is_pointer};
ghost use Rattle.ink_model.specs.declared.host.Event.{Event as Happening};
ghost use Rattle.ink_model.specs.declared.limits.TheConstants.{MAX_FRAMES};
ghost use Rattle.ink_model.specs.declared.scope.Scope.TheVariants as scope;
ghost use Rattle.ink_stack.specs.Calls.{frame_kind};
ghost use Rattle.ink_step.specs.Stores.{StoresAtOnce};
ghost use Rattle.ink_step.specs.Marks.{NotesOwn, keeps_mark, pressed, presses, stack_lacks, stood_of, takes_there, threads_lack};
ghost use Rattle.ink_step.specs.Finishes.{Acts, ActsThere, Finishes};
ghost use Rattle.ink_effects.specs.Performs.{AsksToStore, KeepsThreads, KeepsChoices, Performs, landing_of, leading, storing_in, unstored};
ghost use Rattle.ink_effects.specs.External.{call_of};
ghost use Rattle.ink_effects.specs.Frequents.{leaf_of};
ghost use Rattle.ink_effects.specs.Refusals.{StepStopsAtRefusal};
ghost use Rattle.ink_step.specs.Steps.{EndsPlainly, StepEnds, StepMakes, Steps, step_end, wants};
ghost use Rattle.ink_step.specs.Standing.{aside_in, config_of, globals_of, start_of};
ghost use Rattle.ink_moves.specs.declared.flow.StepEnd.TheVariants.{WantsCall, Went};
ghost use Rattle.ink_moves.specs.declared.flow.TheConstants.{MOVING};
ghost use Rattle.ink_tree.specs.Kept.{leaf_in};
ghost use Rattle.ink_tree.specs.Nodes.{place_of};
ghost use Rattle.ink_vars.specs.Undo.{globals_stood};

use crate::machine::Machine;
use ink_check::Story;
use ink_effects::{
    External, Frequent, Landing, Transfer, call_external, external_in, frequent_kind, is_external,
    number_of, perform_frequent, perform_leaf, ready_choices, ready_stack, ready_threads, take,
    top, tunnel_landing, wanted_landing, would_call, write_text,
};
use ink_host::{Desk, PureFn, TurnFn, Watcher};
use ink_model::{Control, Destination, Fault, FrameKind, Leaf, Shared, Text, Value};
use ink_moves::{
    MOVING, StepEnd, done, end, fork, land, move_off, move_on, move_to, next_of, return_frame,
};
use ink_stack::CallKind;
use ink_trail::Undo;
use ink_tree::Spot;
use std::mem;

/// Room for the changes of threads that a step makes before it makes room again: those of a move (`MOVING`), and what it does before.
/// The rest is to spare.
pub(crate) const STEPPING: usize = 120;

impl Machine {
    /// One step: goes down to the first content, performs it and moves; where flow stops so, it may follow a choice. Where flow had
    /// stopped before it stays stopped. A turn function is called on the desk, once, which is an event; a quiet step that comes
    /// to such a call answers `WantsCall` in its place, and machine and desk are as they were. The faults are those of the
    /// content (docs/RUNNING.md, "Steps"; docs/HOST.md, "Calls"), and `OutOfMemory` for a refused request for memory. After a
    /// fault the globals are as they were, and the machine is of no more use but for them.
    #[inline(always)]
    pub fn step<P: PureFn, T: TurnFn, W: Watcher>(
        &mut self,
        story: &Story,
        desk: &mut Desk<P, T, W>,
        quiet: bool,
    ) -> Result<StepEnd, Fault>
        ensures step { let s = story_tree story.now in let b = bound_by P.meaning desk.old.functions in let c = config_of s self.old in
            (es : List Happening) × Grew T.log (log_of W.state) desk.old es desk.new × Steps quiet s b desk.old.next (presses s self.old self.new) (asks s b c) (step s b c) es (globals_of self.old) c (config_of s self.new) result }
        ensures refusals { StepStopsAtRefusal T.refusals desk.old desk.new result }
        ensures watchers { desk.new.watchers ≡ desk.old.watchers }
        ensures machine { result ≡ Ok WantsCall → self.new ≡ self.old }
        ensures desk { result ≡ Ok WantsCall → desk.new ≡ desk.old }
        ensures start { start_of self.new ≡ start_of self.old }
        ensures own { NotesOwn 1 self.old.trail self.new.trail }
        ensures aside { aside_in self.new ≡ aside_in self.old }
        ensures mark { stood_of self.new ≡ stood_of self.old }
    {
        let Some(place) = self.flow.threads.place() else {
            return self.step_in(story, desk, quiet);
        };
        match story.tree().leaf_at(place) {
            Some(content) if !is_external(content) => self.pass(story, place, content),
            _ => self.step_in(story, desk, quiet),
        }
    }

    /// The same of a step that is not quiet; answers whether flow went on.
    #[inline(always)]
    pub(crate) fn forward<P: PureFn, T: TurnFn, W: Watcher>(
        &mut self,
        story: &Story,
        desk: &mut Desk<P, T, W>,
    ) -> Result<bool, Fault>
        ensures step { let s = story_tree story.now in let b = bound_by P.meaning desk.old.functions in let c = config_of s self.old in
            (es : List Happening) × Grew T.log (log_of W.state) desk.old es desk.new × StepMakes s b desk.old.next (presses s self.old self.new) (asks s b c) (step s b c) es self.old.shared.globals.rows (config_of s self.new) (step_end result) }
        ensures refusals { StepStopsAtRefusal T.refusals desk.old desk.new result }
        ensures watchers { desk.new.watchers ≡ desk.old.watchers }
        ensures start { start_of self.new ≡ start_of self.old }
        ensures own { NotesOwn 1 self.old.trail self.new.trail }
        ensures aside { aside_in self.new ≡ aside_in self.old }
        ensures mark { stood_of self.new ≡ stood_of self.old }
    {
        match self.step(story, desk, false) {
            Ok(end) => Ok(end.went()),
            Err(fault) => Err(fault),
        }
    }

    // The same by the whole way.
    #[inline(never)]
    fn step_in<P: PureFn, T: TurnFn, W: Watcher>(
        &mut self,
        story: &Story,
        desk: &mut Desk<P, T, W>,
        quiet: bool,
    ) -> Result<StepEnd, Fault>
        ensures step { let s = story_tree story.now in let b = bound_by P.meaning desk.old.functions in let c = config_of s self.old in
            (es : List Happening) × Grew T.log (log_of W.state) desk.old es desk.new × Steps quiet s b desk.old.next (presses s self.old self.new) (asks s b c) (step s b c) es (globals_of self.old) c (config_of s self.new) result }
        ensures refusals { StepStopsAtRefusal T.refusals desk.old desk.new result }
        ensures watchers { desk.new.watchers ≡ desk.old.watchers }
        ensures machine { result ≡ Ok WantsCall → self.new ≡ self.old }
        ensures desk { result ≡ Ok WantsCall → desk.new ≡ desk.old }
        ensures start { start_of self.new ≡ start_of self.old }
        ensures own { NotesOwn 1 self.old.trail self.new.trail }
        ensures aside { aside_in self.new ≡ aside_in self.old }
        ensures mark { stood_of self.new ≡ stood_of self.old }
    {
        let Some(place) = self.flow.threads.place() else {
            return Ok(StepEnd::Stopped);
        };
        if quiet && self.wants_call(story, desk, place) {
            return Ok(StepEnd::WantsCall);
        }
        self.make_step_room()?;
        self.step_from(story, desk, place)
    }

    /// The same of a step that is not quiet, once there is room for it: down to the first content, which may be a call.
    #[inline(always)]
    fn step_from<P: PureFn, T: TurnFn, W: Watcher>(
        &mut self,
        story: &Story,
        desk: &mut Desk<P, T, W>,
        place: Spot,
    ) -> Result<StepEnd, Fault>
        requires at { self.old.flow.threads.threads.thread.frame.place ≡ Some place }
        requires stack_room { length self.old.flow.stack.items + 2 ≤ stack_spare self.old.flow.stack }
        requires room { STEPPING ≤ threads_spare self.old.flow.threads }
        ensures step { let s = story_tree story.now in let b = bound_by P.meaning desk.old.functions in let c = config_of s self.old in
            (es : List Happening) × Grew T.log (log_of W.state) desk.old es desk.new × StepMakes s b desk.old.next (presses s self.old self.new) (asks s b c) (step s b c) es self.old.shared.globals.rows (config_of s self.new) result }
        ensures refusals { StepStopsAtRefusal T.refusals desk.old desk.new result }
        ensures watchers { desk.new.watchers ≡ desk.old.watchers }
        ensures start { start_of self.new ≡ start_of self.old }
        ensures own { NotesOwn 1 self.old.trail self.new.trail }
        ensures aside { aside_in self.new ≡ aside_in self.old }
        ensures mark { stood_of self.new ≡ stood_of self.old }
    {
        let (here, found) = self.go_in(story.tree(), place)?;
        match external_in(found) {
            Some(call) => self.act_external(story, desk, &call),
            None => self.act(story, here, found),
        }
    }

    /// The step from a place where flow is, at the content there, which holds no other and calls nothing. Most steps are of this kind.
    #[inline(always)]
    fn pass(&mut self, story: &Story, place: Spot, content: &Leaf) -> Result<StepEnd, Fault>
        requires at { self.old.flow.threads.threads.thread.frame.place ≡ Some place }
        requires stands { let s = story_tree story.now in Some content.now ≡ leaf_in (at s (place_of s place)) }
        requires plain { is_some (call_at (Some (leaf content.now))) ≡ false }
        ensures ends { (b : Bound) → let s = story_tree story.now in let c = config_of s self.old in EndsPlainly (presses s self.old self.new || asks s b c) (step s b c) self.old.shared.globals.rows (config_of s self.new) result }
        ensures start { start_of self.new ≡ start_of self.old }
        ensures own { NotesOwn 1 self.old.trail self.new.trail }
        ensures aside { aside_in self.new ≡ aside_in self.old }
        ensures mark { stood_of self.new ≡ stood_of self.old }
    {
        self.make_step_room()?;
        self.act_here(story, place, content)
    }

    // Whether the step from a place where flow is calls a turn function.
    #[inline(never)]
    fn wants_call<P: PureFn, T: TurnFn, W: Watcher>(
        &self,
        story: &Story,
        desk: &Desk<P, T, W>,
        place: Spot,
    ) -> bool
        requires at { self.now.flow.threads.threads.thread.frame.place ≡ Some place }
        ensures { let s = story_tree story.now in result ≡ wants (step s (bound_by P.meaning desk.now.functions) (config_of s self.now)) }
    {
        let (_, found) = story.tree().first_leaf(place);
        match external_in(found) {
            Some(call) => would_call(&call, &self.flow.stack, &self.output, desk),
            None => false,
        }
    }

    /// A call is performed, and flow moves; where it stops it may follow a choice.
    #[inline(never)]
    fn act_external<P: PureFn, T: TurnFn, W: Watcher>(
        &mut self,
        story: &Story,
        desk: &mut Desk<P, T, W>,
        call: &External<'_>,
    ) -> Result<StepEnd, Fault>
        requires stack_room { length self.old.flow.stack.items + 2 ≤ stack_spare self.old.flow.stack }
        requires room { MOVING + 8 ≤ threads_spare self.old.flow.threads }
        ensures step { let s = story_tree story.now in let b = bound_by P.meaning desk.old.functions in let c = config_of s self.old in let k = call_of call.now in
            let called = call_external s b k.name k.arguments k.conditional (fields_of c) in
            (es : List Happening) × Grew T.log (log_of W.state) desk.old es desk.new
            × StepMakes s b desk.old.next (pressed s self.new) (calling_asks s (external_asks (b k.name) k.arguments k.conditional (fields_of c)) called c) (call_made s called c) es self.old.shared.globals.rows (config_of s self.new) result }
        ensures refusals { StepStopsAtRefusal T.refusals desk.old desk.new result }
        ensures watchers { desk.new.watchers ≡ desk.old.watchers }
        ensures start { start_of self.new ≡ start_of self.old }
        ensures own { NotesOwn 1 self.old.trail self.new.trail }
        ensures aside { aside_in self.new ≡ aside_in self.old }
        ensures mark { stood_of self.new ≡ stood_of self.old }
    {
        let mut transfer = call_external(story, call, &mut self.flow.stack, &self.output, desk)?;
        self.finish(story, &mut transfer)
    }

    /// What stands where flow is has its effect, and flow moves; where it stops it may follow a choice. An empty container, or nothing,
    /// is passed over.
    #[inline(always)]
    fn act(&mut self, story: &Story, here: Spot, found: Option<&Leaf>) -> Result<StepEnd, Fault>
        requires at { self.old.flow.threads.threads.thread.frame.place ≡ Some here }
        requires stands { let s = story_tree story.now in option_map (λ l. l.now) found ≡ leaf_in (at s (place_of s here)) }
        requires stack_room { length self.old.flow.stack.items + 2 ≤ stack_spare self.old.flow.stack }
        requires room { MOVING + 8 ≤ threads_spare self.old.flow.threads }
        ensures ends { let s = story_tree story.now in ActsThere s (place_of s here) (option_map (λ l. leaf l.now) found.entry) self.old self.new result }
        ensures start { start_of self.new ≡ start_of self.old }
        ensures own { NotesOwn 1 self.old.trail self.new.trail }
        ensures aside { aside_in self.new ≡ aside_in self.old }
        ensures mark { stood_of self.new ≡ stood_of self.old }
    {
        match found {
            Some(content) => self.act_here(story, here, content),
            None => self.finish_next(story),
        }
    }

    /// The same of content that holds no other and calls nothing. What content does is said by its effect alone, and `act_by_transfer`
    /// serves for all of it; frequent content has a way of its own, which knows where flow goes and asks no transfer.
    #[inline(always)]
    fn act_here(&mut self, story: &Story, here: Spot, content: &Leaf) -> Result<StepEnd, Fault>
        requires at { self.old.flow.threads.threads.thread.frame.place ≡ Some here }
        requires stands { let s = story_tree story.now in Some content.now ≡ leaf_in (at s (place_of s here)) }
        requires stack_room { length self.old.flow.stack.items + 2 ≤ stack_spare self.old.flow.stack }
        requires room { MOVING + 8 ≤ threads_spare self.old.flow.threads }
        ensures ends { let s = story_tree story.now in ActsThere s (place_of s here) (Some (leaf content.now)) self.old self.new result }
        ensures start { start_of self.new ≡ start_of self.old }
        ensures own { NotesOwn 1 self.old.trail self.new.trail }
        ensures aside { aside_in self.new ≡ aside_in self.old }
        ensures mark { stood_of self.new ≡ stood_of self.old }
    {
        match content {
            Leaf::Text(text) => self.act_text(story, here, text),
            Leaf::Divert { to, conditional } => self.act_divert(story, here, to, *conditional),
            Leaf::Call { to, conditional } => self.act_call(
                story,
                here,
                CallKind::Function,
                to,
                *conditional,
            ),
            Leaf::Tunnel { to, conditional } => self.act_call(
                story,
                here,
                CallKind::Tunnel,
                to,
                *conditional,
            ),
            _ => match frequent_kind(content) {
                Some(frequent) => self.act_frequent(story, here, frequent),
                None => self.act_other(story, here, content),
            },
        }
    }

    // The same of a text.
    #[inline(never)]
    fn act_text(&mut self, story: &Story, here: Spot, text: &Shared<Text>) -> Result<StepEnd, Fault>
        requires at { self.old.flow.threads.threads.thread.frame.place ≡ Some here }
        requires room { MOVING + 4 ≤ threads_spare self.old.flow.threads }
        ensures ends { let s = story_tree story.now in ActsThere s (place_of s here) (Some (leaf (Leaf.Text text.now))) self.old self.new result }
        ensures start { start_of self.new ≡ start_of self.old }
        ensures own { NotesOwn 1 self.old.trail self.new.trail }
        ensures aside { aside_in self.new ≡ aside_in self.old }
        ensures mark { stood_of self.new ≡ stood_of self.old }
    {
        match write_text(
            &mut self.flow.stack,
            &mut self.output,
            self.flow.threads.is_evaluating(),
            self.flow.threads.fresh_depth(),
            text,
        ) {
            Ok(true) => self.finish_text(story),
            Ok(false) => self.go_after(story, here),
            Err(fault) => Err(fault),
        }
    }

    // The same of a divert: flow lands at once, or goes on.
    #[inline(always)]
    fn act_divert(
        &mut self,
        story: &Story,
        here: Spot,
        to: &Destination,
        conditional: bool,
    ) -> Result<StepEnd, Fault>
        requires at { self.old.flow.threads.threads.thread.frame.place ≡ Some here }
        requires path { let s = story_tree story.now in written_target s (place_of s here) ≡ lands_to s (place_of s here) to.now }
        requires stack_room { 1 ≤ stack_spare self.old.flow.stack }
        requires room { MOVING + 4 ≤ threads_spare self.old.flow.threads }
        ensures ends { let s = story_tree story.now in let c = config_of s self.old in Acts s false (diverts.divert s (place_of s here) (context_of c) to.now conditional (fields_of c)) self.old self.new result }
        ensures start { start_of self.new ≡ start_of self.old }
        ensures own { NotesOwn 1 self.old.trail self.new.trail }
        ensures aside { aside_in self.new ≡ aside_in self.old }
        ensures mark { stood_of self.new ≡ stood_of self.old }
    {
        match wanted_landing(
            story,
            here,
            to,
            conditional,
            &mut self.flow.stack,
            &self.shared.globals,
            &self.flow.threads,
        ) {
            Ok(Some(landing)) => self.finish_divert(story, landing),
            Ok(None) => self.go_after(story, here),
            Err(fault) => Err(fault),
        }
    }

    // The same of a call or a tunnel: flow lands at once in a frame of this kind, or goes on.
    #[inline(never)]
    fn act_call(
        &mut self,
        story: &Story,
        here: Spot,
        kind: CallKind,
        to: &Destination,
        conditional: bool,
    ) -> Result<StepEnd, Fault>
        requires at { self.old.flow.threads.threads.thread.frame.place ≡ Some here }
        requires path { let s = story_tree story.now in written_target s (place_of s here) ≡ lands_to s (place_of s here) to.now }
        requires stack_room { 1 ≤ stack_spare self.old.flow.stack }
        requires room { MOVING + 4 ≤ threads_spare self.old.flow.threads }
        ensures ends { let s = story_tree story.now in let c = config_of s self.old in Acts s false (calls.call (frame_kind kind) s (place_of s here) (context_of c) to.now conditional (fields_of c)) self.old self.new result }
        ensures start { start_of self.new ≡ start_of self.old }
        ensures own { NotesOwn 1 self.old.trail self.new.trail }
        ensures aside { aside_in self.new ≡ aside_in self.old }
        ensures mark { stood_of self.new ≡ stood_of self.old }
    {
        match wanted_landing(
            story,
            here,
            to,
            conditional,
            &mut self.flow.stack,
            &self.shared.globals,
            &self.flow.threads,
        ) {
            Ok(Some(landing)) => self.finish_call(story, kind, landing),
            Ok(None) => self.go_after(story, here),
            Err(fault) => Err(fault),
        }
    }

    // The same of the return of a function.
    #[inline(never)]
    fn act_return(&mut self, story: &Story) -> Result<StepEnd, Fault>
        requires room { MOVING + 4 ≤ threads_spare self.old.flow.threads }
        ensures ends { let s = story_tree story.now in Acts s false (calls.return_function (fields_of (config_of s self.old))) self.old self.new result }
        ensures start { start_of self.new ≡ start_of self.old }
        ensures own { NotesOwn 1 self.old.trail self.new.trail }
        ensures aside { aside_in self.new ≡ aside_in self.old }
        ensures mark { stood_of self.new ≡ stood_of self.old }
    {
        self.finish_return(story, FrameKind::Function, None)
    }

    // The same of the return of a tunnel.
    #[inline(never)]
    fn act_return_tunnel(&mut self, story: &Story) -> Result<StepEnd, Fault>
        requires stack_room { 1 ≤ stack_spare self.old.flow.stack }
        requires room { MOVING + 4 ≤ threads_spare self.old.flow.threads }
        ensures ends { let s = story_tree story.now in Acts s false (calls.return_tunnel s (fields_of (config_of s self.old))) self.old self.new result }
        ensures start { start_of self.new ≡ start_of self.old }
        ensures own { NotesOwn 1 self.old.trail self.new.trail }
        ensures aside { aside_in self.new ≡ aside_in self.old }
        ensures mark { stood_of self.new ≡ stood_of self.old }
    {
        match tunnel_landing(story, &mut self.flow.stack) {
            Ok(landing) => self.finish_return(story, FrameKind::Tunnel, landing),
            Err(fault) => Err(fault),
        }
    }

    // The same of content of the kinds after which flow goes on.
    #[inline(always)]
    fn act_frequent(
        &mut self,
        story: &Story,
        here: Spot,
        content: Frequent<'_>,
    ) -> Result<StepEnd, Fault>
        requires at { self.old.flow.threads.threads.thread.frame.place ≡ Some here }
        requires stack_room { length self.old.flow.stack.items + 2 ≤ stack_spare self.old.flow.stack }
        requires room { MOVING + 8 ≤ threads_spare self.old.flow.threads }
        ensures ends { let s = story_tree story.now in ActsThere s (place_of s here) (Some (leaf (leaf_of content.entry))) self.old self.new result }
        ensures start { start_of self.new ≡ start_of self.old }
        ensures own { NotesOwn 1 self.old.trail self.new.trail }
        ensures aside { aside_in self.new ≡ aside_in self.old }
        ensures mark { stood_of self.new ≡ stood_of self.old }
    {
        perform_frequent(
            self.alloc,
            story,
            here,
            content,
            &mut self.flow,
            &mut self.output,
            &self.shared,
        )?;
        self.go_after(story, here)
    }

    // The same of other content. What stores a global has a function of its own, which mostly stores at once.
    #[inline(always)]
    fn act_other(&mut self, story: &Story, here: Spot, content: &Leaf) -> Result<StepEnd, Fault>
        requires at { self.old.flow.threads.threads.thread.frame.place ≡ Some here }
        requires stands { let s = story_tree story.now in Some content.now ≡ leaf_in (at s (place_of s here)) }
        requires stack_room { length self.old.flow.stack.items + 2 ≤ stack_spare self.old.flow.stack }
        requires room { MOVING + 8 ≤ threads_spare self.old.flow.threads }
        ensures ends { let s = story_tree story.now in ActsThere s (place_of s here) (Some (leaf content.now)) self.old self.new result }
        ensures start { start_of self.new ≡ start_of self.old }
        ensures own { NotesOwn 1 self.old.trail self.new.trail }
        ensures aside { aside_in self.new ≡ aside_in self.old }
        ensures mark { stood_of self.new ≡ stood_of self.old }
    {
        match content {
            Leaf::Assign(name) | Leaf::Declare(name) => self.act_storing(
                story, here, content, name,
            ),
            Leaf::Control(control) => self.act_control(story, here, content, *control),
            _ => self.act_by_transfer(story, here, content),
        }
    }

    // The same of control content of other kinds: a return comes back at once, and a thread forks or ends at once.
    #[inline(always)]
    fn act_control(
        &mut self,
        story: &Story,
        here: Spot,
        content: &Leaf,
        control: Control,
    ) -> Result<StepEnd, Fault>
        requires is { content.now ≡ Leaf.Control control }
        requires stands { let s = story_tree story.now in Some content.now ≡ leaf_in (at s (place_of s here)) }
        requires stack_room { length self.old.flow.stack.items + 2 ≤ stack_spare self.old.flow.stack }
        requires room { MOVING + 8 ≤ threads_spare self.old.flow.threads }
        ensures ends { let s = story_tree story.now in ActsThere s (place_of s here) (Some (leaf content.now)) self.old self.new result }
        ensures start { start_of self.new ≡ start_of self.old }
        ensures own { NotesOwn 1 self.old.trail self.new.trail }
        ensures aside { aside_in self.new ≡ aside_in self.old }
        ensures mark { stood_of self.new ≡ stood_of self.old }
    {
        match control {
            Control::Return => self.act_return(story),
            Control::ReturnTunnel => self.act_return_tunnel(story),
            Control::Thread => self.finish_fork(story),
            Control::Done => self.finish_done(story),
            _ => self.act_by_transfer(story, here, content),
        }
    }

    // The same of any such content, which tells by a transfer where flow goes.
    #[inline(never)]
    fn act_by_transfer(
        &mut self,
        story: &Story,
        here: Spot,
        content: &Leaf,
    ) -> Result<StepEnd, Fault>
        requires stands { let s = story_tree story.now in Some content.now ≡ leaf_in (at s (place_of s here)) }
        requires stack_room { length self.old.flow.stack.items + 2 ≤ stack_spare self.old.flow.stack }
        requires room { MOVING + 8 ≤ threads_spare self.old.flow.threads }
        ensures ends { let s = story_tree story.now in ActsThere s (place_of s here) (Some (leaf content.now)) self.old self.new result }
        ensures start { start_of self.new ≡ start_of self.old }
        ensures own { NotesOwn 1 self.old.trail self.new.trail }
        ensures aside { aside_in self.new ≡ aside_in self.old }
        ensures mark { stood_of self.new ≡ stood_of self.old }
    {
        let mut transfer = Transfer::Next;
        self.perform(story, here, content, &mut transfer)?;
        let Some(next) = self.next_after(story, &transfer) else {
            return self.finish(story, &mut transfer);
        };
        self.go_to_next(story, next);
        Ok(StepEnd::Went)
    }

    // The same of content that assigns to a name, or declares it as a global.
    #[inline(never)]
    fn act_storing(
        &mut self,
        story: &Story,
        here: Spot,
        content: &Leaf,
        name: &Shared<Text>,
    ) -> Result<StepEnd, Fault>
        requires at { self.old.flow.threads.threads.thread.frame.place ≡ Some here }
        requires is { (content.now ≡ Leaf.Assign name.now) ⊎ (content.now ≡ Leaf.Declare name.now) }
        requires stands { let s = story_tree story.now in Some content.now ≡ leaf_in (at s (place_of s here)) }
        requires stack_room { length self.old.flow.stack.items + 2 ≤ stack_spare self.old.flow.stack }
        requires room { MOVING + 8 ≤ threads_spare self.old.flow.threads }
        ensures ends { let s = story_tree story.now in ActsThere s (place_of s here) (Some (leaf content.now)) self.old self.new result }
        ensures start { start_of self.new ≡ start_of self.old }
        ensures own { NotesOwn 1 self.old.trail self.new.trail }
        ensures aside { aside_in self.new ≡ aside_in self.old }
        ensures mark { stood_of self.new ≡ stood_of self.old }
    {
        match self.stored_at_once(story, here, name) {
            Some((next, index)) => self.store_at_once(story, name, next, index),
            None => self.act_by_transfer(story, here, content),
        }
    }

    // The place after the one where flow is, and the index of the global of a name, where a value can be stored
    // in it at once: it is found by its number and holds no pointer, and a value that is none lies on the stack.
    #[inline(always)]
    fn stored_at_once(
        &self,
        story: &Story,
        here: Spot,
        name: &Shared<Text>,
    ) -> Option<(Spot, usize)>
        requires at { self.now.flow.threads.threads.thread.frame.place ≡ Some here }
        ensures { IfSome result (λ r. StoresAtOnce (story_tree story.now) self.now name.now r.0 r.1) }
    {
        let next = self.place_after(story, here)?;
        let (index, global) = self
            .shared
            .globals
            .found(name.as_str(), number_of(story, here))?;
        let value = top(&self.flow.stack)?;
        if is_pointer(value) || is_pointer(global) {
            return None;
        }
        Some((next, index))
    }

    // What lies on the stack is stored so, and flow goes on. The one error is `OutOfMemory` for a refused request for memory, which is
    // made only while a mark stands, and leaves the globals as they were.
    #[inline(always)]
    fn store_at_once(
        &mut self,
        story: &Story,
        name: &Shared<Text>,
        next: Spot,
        index: usize,
    ) -> Result<StepEnd, Fault>
        requires can { StoresAtOnce (story_tree story.now) self.old name.now next index }
        requires room { 2 ≤ threads_spare self.old.flow.threads }
        ensures assigned { (asks : Bool) → (keeps_mark (stood_of self.old) ≡ true → asks ≡ true) → let s = story_tree story.now in let c = config_of s self.old in
            StepEnds asks (acted s (effects.assign name.now (context_of c) (fields_of c)) c) self.old.shared.globals.rows (config_of s self.new) result }
        ensures declared { (asks : Bool) → (keeps_mark (stood_of self.old) ≡ true → asks ≡ true) → let s = story_tree story.now in let c = config_of s self.old in
            StepEnds asks (acted s (effects.declare scope.Global name.now (context_of c) (fields_of c)) c) self.old.shared.globals.rows (config_of s self.new) result }
        ensures start { start_of self.new ≡ start_of self.old }
        ensures own { self.new.trail ≡ self.old.trail }
        ensures aside { aside_in self.new ≡ aside_in self.old }
        ensures mark { stood_of self.new ≡ stood_of self.old }
    {
        if self.shared.globals.is_marked() || self.flow.stack.is_marked() {
            return self.store_marked(story, name, next, index);
        }
        let Some(value) = take(&mut self.flow.stack)? else {
            return Err(Fault::StackEmpty);
        };
        self.shared.globals.put_at(name.as_str(), index, value);
        self.go_to_next(story, next);
        Ok(StepEnd::Went)
    }

    // The same while a mark stands.
    #[inline(never)]
    fn store_marked(
        &mut self,
        story: &Story,
        name: &Shared<Text>,
        next: Spot,
        index: usize,
    ) -> Result<StepEnd, Fault>
        requires can { StoresAtOnce (story_tree story.now) self.old name.now next index }
        requires room { 2 ≤ threads_spare self.old.flow.threads }
        ensures assigned { (asks : Bool) → (keeps_mark (stood_of self.old) ≡ true → asks ≡ true) → let s = story_tree story.now in let c = config_of s self.old in
            StepEnds asks (acted s (effects.assign name.now (context_of c) (fields_of c)) c) self.old.shared.globals.rows (config_of s self.new) result }
        ensures declared { (asks : Bool) → (keeps_mark (stood_of self.old) ≡ true → asks ≡ true) → let s = story_tree story.now in let c = config_of s self.old in
            StepEnds asks (acted s (effects.declare scope.Global name.now (context_of c) (fields_of c)) c) self.old.shared.globals.rows (config_of s self.new) result }
        ensures start { start_of self.new ≡ start_of self.old }
        ensures own { self.new.trail ≡ self.old.trail }
        ensures aside { aside_in self.new ≡ aside_in self.old }
        ensures mark { stood_of self.new ≡ stood_of self.old }
    {
        let Some(value) = take(&mut self.flow.stack)? else {
            return Err(Fault::StackEmpty);
        };
        self.shared.globals.put_there(name.as_str(), index, value)?;
        self.go_to_next(story, next);
        Ok(StepEnd::Went)
    }

    /// The place after the one where flow is, if there is one, and a content sends flow nowhere else.
    #[inline(always)]
    fn next_after(&self, story: &Story, transfer: &Transfer<'_>) -> Option<Spot>
        ensures { let s = story_tree story.now in
            IfSome result (λ next. (transfer.now ≡ Transfer.Next) × (option_and_then (next_place s) (place_in (map_threads (place_of s) self.now.flow.threads.threads)) ≡ Some (place_of s next))) }
    {
        match transfer {
            Transfer::Next => next_of(story.tree(), &self.flow.threads),
            _ => None,
        }
    }

    /// Flow goes on after the content at the place where it is.
    #[inline(always)]
    fn go_after(&mut self, story: &Story, here: Spot) -> Result<StepEnd, Fault>
        requires at { self.old.flow.threads.threads.thread.frame.place ≡ Some here }
        requires room { MOVING + 4 ≤ threads_spare self.old.flow.threads }
        ensures ends { Finishes (story_tree story.now) self.old Transfer.Next self.new result }
        ensures start { start_of self.new ≡ start_of self.old }
        ensures own { NotesOwn 1 self.old.trail self.new.trail }
        ensures aside { aside_in self.new ≡ aside_in self.old }
        ensures mark { stood_of self.new ≡ stood_of self.old }
    {
        let Some(next) = self.place_after(story, here) else {
            return self.finish_last(story);
        };
        self.go_to_next(story, next);
        Ok(StepEnd::Went)
    }

    /// The place after the one where flow is, which is known, if there is one.
    #[inline(always)]
    fn place_after(&self, story: &Story, here: Spot) -> Option<Spot>
        requires at { self.now.flow.threads.threads.thread.frame.place ≡ Some here }
        ensures { let s = story_tree story.now in let after = option_and_then (next_place s) (place_in (map_threads (place_of s) self.now.flow.threads.threads)) in
            MatchOption result (after ≡ None) (λ next. after ≡ Some (place_of s next)) }
    {
        story.tree().next(here)
    }

    /// Flow goes on to the place after its own, which is known.
    #[inline(always)]
    fn go_to_next(&mut self, story: &Story, next: Spot)
        requires next { let s = story_tree story.now in option_and_then (next_place s) (place_in (map_threads (place_of s) self.old.flow.threads.threads)) ≡ Some (place_of s next) }
        requires room { 2 ≤ threads_spare self.old.flow.threads }
        ensures ends { let s = story_tree story.now in let c = config_of s self.old in
            StepEnds (moved_asks (next_place s) c.flow.threads (written_in c)) (going (moved_on (next_place s)) c) self.old.shared.globals.rows (config_of s self.new) (Ok Went) }
        ensures globals { self.new.shared.globals.rows ≡ self.old.shared.globals.rows }
        ensures start { start_of self.new ≡ start_of self.old }
        ensures own { self.new.trail ≡ self.old.trail }
        ensures aside { aside_in self.new ≡ aside_in self.old }
        ensures mark { stood_of self.new ≡ stood_of self.old }
    {
        move_to(story.tree(), &mut self.flow.threads, next);
    }

    /// After a content was performed flow goes where it sends it, and a global is stored. The ways of frequent content have functions
    /// of their own, in which the compiler drops the others.
    #[inline(always)]
    fn finish(&mut self, story: &Story, transfer: &mut Transfer<'_>) -> Result<StepEnd, Fault>
        requires room { MOVING + 4 ≤ threads_spare self.old.flow.threads }
        ensures ends { Finishes (story_tree story.now) self.old transfer.old self.new result }
        ensures start { start_of self.new ≡ start_of self.old }
        ensures own { NotesOwn 1 self.old.trail self.new.trail }
        ensures aside { aside_in self.new ≡ aside_in self.old }
        ensures mark { stood_of self.new ≡ stood_of self.old }
    {
        match transfer {
            Transfer::Wrote => self.finish_text(story),
            Transfer::Store(..) => self.finish_stored(story, transfer),
            Transfer::Next => self.finish_next(story),
            Transfer::Fork => self.finish_fork(story),
            Transfer::Done => self.finish_done(story),
            Transfer::Land(_) | Transfer::Call(..) | Transfer::Return(..) | Transfer::End => {
                self.finish_other(story, transfer)
            }
        }
    }

    // The same after a text.
    #[inline(always)]
    fn finish_text(&mut self, story: &Story) -> Result<StepEnd, Fault>
        requires room { MOVING + 4 ≤ threads_spare self.old.flow.threads }
        ensures ends { Finishes (story_tree story.now) self.old Transfer.Wrote self.new result }
        ensures start { start_of self.new ≡ start_of self.old }
        ensures own { NotesOwn 1 self.old.trail self.new.trail }
        ensures aside { aside_in self.new ≡ aside_in self.old }
        ensures mark { stood_of self.new ≡ stood_of self.old }
    {
        let mut transfer = Transfer::Wrote;
        self.finish_by(story, &mut transfer)
    }

    // The same after a divert. Flow does not stop where it lands.
    #[inline(always)]
    fn finish_divert(&mut self, story: &Story, to: Landing) -> Result<StepEnd, Fault>
        requires room { 2 ≤ threads_spare self.old.flow.threads }
        ensures ends { Finishes (story_tree story.now) self.old (Transfer.Land to) self.new result }
        ensures start { start_of self.new ≡ start_of self.old }
        ensures own { NotesOwn 1 self.old.trail self.new.trail }
        ensures aside { aside_in self.new ≡ aside_in self.old }
        ensures mark { stood_of self.new ≡ stood_of self.old }
    {
        self.go_to(story, to)
    }

    // The same after an assignment, for which alone it is called. In the first arm the compiler drops the ways of other content; the
    // second is never taken.
    #[inline(never)]
    fn finish_stored(
        &mut self,
        story: &Story,
        transfer: &mut Transfer<'_>,
    ) -> Result<StepEnd, Fault>
        requires room { MOVING + 4 ≤ threads_spare self.old.flow.threads }
        ensures ends { Finishes (story_tree story.now) self.old transfer.old self.new result }
        ensures start { start_of self.new ≡ start_of self.old }
        ensures own { NotesOwn 1 self.old.trail self.new.trail }
        ensures aside { aside_in self.new ≡ aside_in self.old }
        ensures mark { stood_of self.new ≡ stood_of self.old }
    {
        match transfer {
            Transfer::Store(..) => self.finish_by(story, transfer),
            _ => self.finish_other(story, transfer),
        }
    }

    // The same after a call. Flow does not stop where it leads.
    #[inline(always)]
    fn finish_call(&mut self, story: &Story, kind: CallKind, to: Landing) -> Result<StepEnd, Fault>
        requires room { 4 ≤ threads_spare self.old.flow.threads }
        ensures ends { Finishes (story_tree story.now) self.old (Transfer.Call kind to) self.new result }
        ensures start { start_of self.new ≡ start_of self.old }
        ensures own { NotesOwn 1 self.old.trail self.new.trail }
        ensures aside { aside_in self.new ≡ aside_in self.old }
        ensures mark { stood_of self.new ≡ stood_of self.old }
    {
        self.go_into(story, kind, to)
    }

    // The same after the return from one.
    #[inline(always)]
    fn finish_return(
        &mut self,
        story: &Story,
        kind: FrameKind,
        to: Option<Landing>,
    ) -> Result<StepEnd, Fault>
        requires room { MOVING + 4 ≤ threads_spare self.old.flow.threads }
        ensures ends { Finishes (story_tree story.now) self.old (Transfer.Return kind to) self.new result }
        ensures start { start_of self.new ≡ start_of self.old }
        ensures own { NotesOwn 1 self.old.trail self.new.trail }
        ensures aside { aside_in self.new ≡ aside_in self.old }
        ensures mark { stood_of self.new ≡ stood_of self.old }
    {
        let mut transfer = Transfer::Return(kind, to);
        self.finish_by(story, &mut transfer)
    }

    // The same after content that sends flow nowhere: the last of a container, or a call of a function of the host.
    #[inline(never)]
    fn finish_next(&mut self, story: &Story) -> Result<StepEnd, Fault>
        requires room { MOVING + 4 ≤ threads_spare self.old.flow.threads }
        ensures ends { Finishes (story_tree story.now) self.old Transfer.Next self.new result }
        ensures start { start_of self.new ≡ start_of self.old }
        ensures own { NotesOwn 1 self.old.trail self.new.trail }
        ensures aside { aside_in self.new ≡ aside_in self.old }
        ensures mark { stood_of self.new ≡ stood_of self.old }
    {
        let mut transfer = Transfer::Next;
        self.finish_by(story, &mut transfer)
    }

    // The same where it is known that no place comes after, which is not asked again.
    #[inline(never)]
    fn finish_last(&mut self, story: &Story) -> Result<StepEnd, Fault>
        requires last { let s = story_tree story.now in option_and_then (next_place s) (place_in (map_threads (place_of s) self.old.flow.threads.threads)) ≡ None }
        requires room { MOVING + 4 ≤ threads_spare self.old.flow.threads }
        ensures ends { Finishes (story_tree story.now) self.old Transfer.Next self.new result }
        ensures start { start_of self.new ≡ start_of self.old }
        ensures own { NotesOwn 1 self.old.trail self.new.trail }
        ensures aside { aside_in self.new ≡ aside_in self.old }
        ensures mark { stood_of self.new ≡ stood_of self.old }
    {
        let mut transfer = Transfer::Next;
        self.finish_where(story, &mut transfer, true)
    }

    // The same where a thread forks.
    #[inline(never)]
    fn finish_fork(&mut self, story: &Story) -> Result<StepEnd, Fault>
        requires room { MOVING + 4 ≤ threads_spare self.old.flow.threads }
        ensures ends { Finishes (story_tree story.now) self.old Transfer.Fork self.new result }
        ensures start { start_of self.new ≡ start_of self.old }
        ensures own { NotesOwn 1 self.old.trail self.new.trail }
        ensures aside { aside_in self.new ≡ aside_in self.old }
        ensures mark { stood_of self.new ≡ stood_of self.old }
    {
        let mut transfer = Transfer::Fork;
        self.finish_by(story, &mut transfer)
    }

    // The same at the end of a thread.
    #[inline(never)]
    fn finish_done(&mut self, story: &Story) -> Result<StepEnd, Fault>
        requires room { MOVING + 4 ≤ threads_spare self.old.flow.threads }
        ensures ends { Finishes (story_tree story.now) self.old Transfer.Done self.new result }
        ensures start { start_of self.new ≡ start_of self.old }
        ensures own { NotesOwn 1 self.old.trail self.new.trail }
        ensures aside { aside_in self.new ≡ aside_in self.old }
        ensures mark { stood_of self.new ≡ stood_of self.old }
    {
        let mut transfer = Transfer::Done;
        self.finish_by(story, &mut transfer)
    }

    // The same after any content: after `end`, and after what is none of these.
    #[inline(never)]
    fn finish_other(&mut self, story: &Story, transfer: &mut Transfer<'_>) -> Result<StepEnd, Fault>
        requires room { MOVING + 4 ≤ threads_spare self.old.flow.threads }
        ensures ends { Finishes (story_tree story.now) self.old transfer.old self.new result }
        ensures start { start_of self.new ≡ start_of self.old }
        ensures own { NotesOwn 1 self.old.trail self.new.trail }
        ensures aside { aside_in self.new ≡ aside_in self.old }
        ensures mark { stood_of self.new ≡ stood_of self.old }
    {
        self.finish_by(story, transfer)
    }

    #[inline(always)]
    fn finish_by(&mut self, story: &Story, transfer: &mut Transfer<'_>) -> Result<StepEnd, Fault>
        requires room { MOVING + 4 ≤ threads_spare self.old.flow.threads }
        ensures ends { Finishes (story_tree story.now) self.old transfer.old self.new result }
        ensures start { start_of self.new ≡ start_of self.old }
        ensures own { NotesOwn 1 self.old.trail self.new.trail }
        ensures aside { aside_in self.new ≡ aside_in self.old }
        ensures mark { stood_of self.new ≡ stood_of self.old }
    {
        self.finish_where(story, transfer, false)
    }

    /// The same, and `last` says that no place comes after, where that is known.
    #[inline(always)]
    fn finish_where(
        &mut self,
        story: &Story,
        transfer: &mut Transfer<'_>,
        last: bool,
    ) -> Result<StepEnd, Fault>
        requires last { let s = story_tree story.now in last ≡ true → option_and_then (next_place s) (place_in (map_threads (place_of s) self.old.flow.threads.threads)) ≡ None }
        requires room { MOVING + 4 ≤ threads_spare self.old.flow.threads }
        ensures ends { Finishes (story_tree story.now) self.old transfer.old self.new result }
        ensures start { start_of self.new ≡ start_of self.old }
        ensures own { NotesOwn 1 self.old.trail self.new.trail }
        ensures aside { aside_in self.new ≡ aside_in self.old }
        ensures mark { stood_of self.new ≡ stood_of self.old }
    {
        let end = self.go(story, transfer, last)?;
        self.store(transfer, end)
    }

    /// Flow goes where a content sends it; where it stops it may follow a choice. No global is stored yet. `last` says that no place
    /// comes after, where that is known.
    #[inline(always)]
    fn go(&mut self, story: &Story, transfer: &Transfer<'_>, last: bool) -> Result<StepEnd, Fault>
        requires last { let s = story_tree story.now in last ≡ true → option_and_then (next_place s) (place_in (map_threads (place_of s) self.old.flow.threads.threads)) ≡ None }
        requires room { MOVING + 4 ≤ threads_spare self.old.flow.threads }
        ensures ends { let s = story_tree story.now in (asks : Bool) (e : Effect) → Performs s asks e (fields_of (config_of s self.old)) (Ok transfer.now) → KeepsThreads s e self.old.flow.threads.threads self.old.flow.threads.threads → KeepsChoices s e self.old.flow.choices.items self.old.flow.choices.items
            → let o = moved s (unstored self.old.shared.globals.rows e) (config_of s self.old) in
            StepEnds (pressed s self.new || ((asks || move_asks s e (config_of s self.old)) || following_asks s o)) (following s o) self.old.shared.globals.rows (config_of s self.new) result }
        ensures globals { self.new.shared.globals.rows ≡ self.old.shared.globals.rows }
        ensures start { start_of self.new ≡ start_of self.old }
        ensures own { NotesOwn 1 self.old.trail self.new.trail }
        ensures aside { aside_in self.new ≡ aside_in self.old }
        ensures mark { stood_of self.new ≡ stood_of self.old }
    {
        match self.follow(story, transfer, last)? {
            StepEnd::Stopped => self.follow_default(story),
            StepEnd::Went => Ok(StepEnd::Went),
            StepEnd::WantsCall => Ok(StepEnd::WantsCall),
        }
    }

    /// A global is stored, where a content hands one on, and the step ends so; what it was is noted before. The one error is
    /// `OutOfMemory` for a refused request for memory, which is made for a new global or while a mark stands, and leaves the
    /// globals as they were.
    #[inline(always)]
    fn store(&mut self, transfer: &mut Transfer<'_>, end: StepEnd) -> Result<StepEnd, Fault>
        ensures start { start_of self.new ≡ start_of self.old }
        ensures own { self.new.trail ≡ self.old.trail }
        ensures aside { aside_in self.new ≡ aside_in self.old }
        ensures stored { (s : StoryTree) (asks whole : Bool) (e : Effect) (f : Fields) (o : Outcome) → (asks ≡ true → whole ≡ true) → f.globals ≡ self.old.shared.globals.rows → Performs s asks e f (Ok transfer.old)
            → (is_some (globals_stood self.old.shared.globals) ≡ true → AsksToStore e asks) → StepEnds whole o self.old.shared.globals.rows (config_of s self.old) (Ok end) → StepEnds whole (storing_in e o) self.old.shared.globals.rows (config_of s self.new) result }
        ensures mark { stood_of self.new ≡ stood_of self.old }
    {
        match transfer {
            Transfer::Store(to) => {
                let value = mem::replace(&mut to.value, Value::Void);
                self.shared.globals.put_named(&to.name, value)?;
                Ok(end)
            }
            _ => Ok(end),
        }
    }

    /// Performs the content at a place. Flow goes on, but for content that sets where it goes.
    #[inline(always)]
    fn perform<'a>(
        &mut self,
        story: &Story,
        here: Spot,
        content: &'a Leaf,
        transfer: &mut Transfer<'a>,
    ) -> Result<(), Fault>
        requires on { transfer.old ≡ Transfer.Next }
        requires stands { let s = story_tree story.now in Some content.now ≡ leaf_in (at s (place_of s here)) }
        requires stack_room { length self.old.flow.stack.items + 2 ≤ stack_spare self.old.flow.stack }
        requires room { 1 ≤ threads_spare self.old.flow.threads }
        ensures effect { let s = story_tree story.now in let p = place_of s here in let stands = Some (leaf content.now) in let c = config_of s self.old in
            Performs s ((takes_there stands && is_some (stack_stood self.old.flow.stack)) || content_asks s p stands (context_of c) (fields_of c)) (effect s p stands (context_of c) (fields_of c)) (fields_of (config_of s self.new)) (leading result transfer.new) }
        ensures threads { let s = story_tree story.now in let stands = Some (leaf content.now) in let c = config_of s self.old in
            OnOk result (KeepsThreads s (effect s (place_of s here) stands (context_of c) (fields_of c)) self.old.flow.threads.threads self.new.flow.threads.threads) }
        ensures choices { let s = story_tree story.now in let stands = Some (leaf content.now) in let c = config_of s self.old in
            OnOk result (KeepsChoices s (effect s (place_of s here) stands (context_of c) (fields_of c)) self.old.flow.choices.items self.new.flow.choices.items) }
        ensures counts { self.new.shared.counts.rows ≡ self.old.shared.counts.rows }
        ensures turn { self.new.shared.turn ≡ self.old.shared.turn }
        ensures safe { self.new.flow.safe ≡ self.old.flow.safe }
        ensures globals { self.new.shared.globals.rows ≡ self.old.shared.globals.rows }
        ensures start { start_of self.new ≡ start_of self.old }
        ensures own { self.new.trail ≡ self.old.trail }
        ensures aside { aside_in self.new ≡ aside_in self.old }
        ensures mark { stood_of self.new ≡ stood_of self.old }
        ensures spare { threads_spare self.old.flow.threads ≤ threads_spare self.new.flow.threads + 1 }
    {
        perform_leaf(
            self.alloc,
            story,
            here,
            content,
            &mut self.flow,
            &mut self.output,
            &self.shared,
            transfer,
        )
    }

    /// Flow goes where a content sends it. Temporaries that the content stores are set already, and what it offers is offered; a
    /// global is stored after that. `last` says that no place comes after, where that is known.
    #[inline(always)]
    fn follow(
        &mut self,
        story: &Story,
        transfer: &Transfer<'_>,
        last: bool,
    ) -> Result<StepEnd, Fault>
        requires last { let s = story_tree story.now in last ≡ true → option_and_then (next_place s) (place_in (map_threads (place_of s) self.old.flow.threads.threads)) ≡ None }
        requires room { MOVING + 4 ≤ threads_spare self.old.flow.threads }
        ensures ends { let s = story_tree story.now in (asks : Bool) (e : Effect) → Performs s asks e (fields_of (config_of s self.old)) (Ok transfer.now) → KeepsThreads s e self.old.flow.threads.threads self.old.flow.threads.threads → KeepsChoices s e self.old.flow.choices.items self.old.flow.choices.items
            → StepEnds (pressed s self.new || (asks || move_asks s e (config_of s self.old))) (moved s (unstored self.old.shared.globals.rows e) (config_of s self.old)) self.old.shared.globals.rows (config_of s self.new) result }
        ensures globals { self.new.shared.globals.rows ≡ self.old.shared.globals.rows }
        ensures start { start_of self.new ≡ start_of self.old }
        ensures own { NotesOwn 1 self.old.trail self.new.trail }
        ensures aside { aside_in self.new ≡ aside_in self.old }
        ensures mark { stood_of self.new ≡ stood_of self.old }
        ensures enough { OnOk result (2 ≤ threads_spare self.new.flow.threads) }
    {
        match transfer {
            Transfer::Next => {
                if last {
                    return self.go_off(story);
                }
                self.go_on(story)
            }
            Transfer::Wrote => {
                self.end_freshness()?;
                self.go_on(story)
            }
            Transfer::Store(..) => self.go_on(story),
            Transfer::Land(to) => self.go_to(story, *to),
            Transfer::Call(kind, to) => self.go_into(story, *kind, *to),
            Transfer::Return(kind, to) => self.go_back(story, *kind, *to),
            Transfer::Fork => fork(
                story.tree(),
                &mut self.flow.threads,
                &mut self.flow.stack,
                &mut self.output,
            ),
            Transfer::Done => {
                let safe = self.flow.safe | self.flow.threads.is_last();
                self.change_safe(safe)?;
                done(
                    story.tree(),
                    &mut self.flow.threads,
                    &mut self.flow.stack,
                    &mut self.output,
                )
            }
            Transfer::End => {
                self.change_safe(true)?;
                ready_choices(&mut self.flow.choices, 1)?;
                self.flow.choices.clear();
                end(&mut self.flow.threads, &self.output)
            }
        }
    }

    // Makes room for what a step changes on threads and on the evaluation stack, where a mark stands. The one error is `OutOfMemory`
    // for a refused request for memory, while a mark stands.
    #[inline(always)]
    fn make_step_room(&mut self) -> Result<(), Fault>
        ensures same { self.new ≡ record self.old { flow = record self.old.flow { threads = self.new.flow.threads; stack = self.new.flow.stack } } }
        ensures threads { self.new.flow.threads.threads ≡ self.old.flow.threads.threads }
        ensures items { self.new.flow.stack.items ≡ self.old.flow.stack.items }
        ensures mark { stood_of self.new ≡ stood_of self.old }
        ensures threads_room { OnOk result (STEPPING ≤ threads_spare self.new.flow.threads) }
        ensures stack_room { OnOk result (length self.new.flow.stack.items + 2 ≤ stack_spare self.new.flow.stack) }
        ensures fault { IfErr result (λ f. f ≡ Fault.OutOfMemory) }
        ensures memory { OnErr result ((threads_lack STEPPING self.new || stack_lacks (length self.new.flow.stack.items + 2) self.new) ≡ true) }
    {
        ready_threads(&mut self.flow.threads, STEPPING)?;
        let count = self.flow.stack.len() + 2;
        ready_stack(&mut self.flow.stack, count)
    }

    // A text was written in the open section, which ends the freshness of functions. The one error is `OutOfMemory` for a refused
    // request for memory, while a mark stands.
    #[inline(always)]
    fn end_freshness(&mut self) -> Result<(), Fault>
        ensures same { self.new ≡ record self.old { flow = record self.old.flow { threads = self.new.flow.threads } } }
        ensures threads { OnOk result (self.new.flow.threads.threads ≡ on_top (staled (length self.old.output.page.sections)) self.old.flow.threads.threads) }
        ensures mark { stood_of self.new ≡ stood_of self.old }
        ensures enough { OnOk result (MOVING ≤ threads_spare self.new.flow.threads) }
        ensures fault { IfErr result (λ f. f ≡ Fault.OutOfMemory) }
        ensures memory { OnErr result (threads_lack (frame_count self.new.flow.threads.threads.thread + MOVING) self.new ≡ true) }
    {
        let frames = self.flow.threads.top().frames();
        ready_threads(&mut self.flow.threads, frames + MOVING)?;
        self.flow.threads.end_freshness(self.output.depth());
        Ok(())
    }

    /// Flow lands, which may enter containers around.
    #[inline(always)]
    fn go_to(&mut self, story: &Story, to: Landing) -> Result<StepEnd, Fault>
        requires room { 2 ≤ threads_spare self.old.flow.threads }
        ensures ends { let s = story_tree story.now in let c = config_of s self.old in let how = reach (place_of s to.place) in
            StepEnds (pressed s self.new || landed_asks s to.enters c.shared.counts (how c.flow.threads (written_in c))) (landing_outcome s to.enters how c) self.old.shared.globals.rows (config_of s self.new) result }
        ensures globals { self.new.shared.globals.rows ≡ self.old.shared.globals.rows }
        ensures start { start_of self.new ≡ start_of self.old }
        ensures own { self.new.trail ≡ self.old.trail }
        ensures aside { aside_in self.new ≡ aside_in self.old }
        ensures mark { stood_of self.new ≡ stood_of self.old }
        ensures spare { threads_spare self.old.flow.threads ≤ threads_spare self.new.flow.threads + 2 }
    {
        let end = land(&mut self.flow.threads, to.place);
        self.enter_around(story.tree(), to.enters)?;
        Ok(end)
    }

    /// Flow lands in a frame of this kind, which may enter containers around.
    #[inline(always)]
    fn go_into(&mut self, story: &Story, kind: CallKind, to: Landing) -> Result<StepEnd, Fault>
        requires room { 4 ≤ threads_spare self.old.flow.threads }
        ensures ends { let s = story_tree story.now in let c = config_of s self.old in let how = called (frame_kind kind) (place_of s to.place) in
            StepEnds (pressed s self.new || (nat_lt (frame_count c.flow.threads.thread) MAX_FRAMES || landed_asks s to.enters c.shared.counts (how c.flow.threads (written_in c))))
            (landing_outcome s to.enters how c) self.old.shared.globals.rows (config_of s self.new) result }
        ensures globals { self.new.shared.globals.rows ≡ self.old.shared.globals.rows }
        ensures start { start_of self.new ≡ start_of self.old }
        ensures own { self.new.trail ≡ self.old.trail }
        ensures aside { aside_in self.new ≡ aside_in self.old }
        ensures mark { stood_of self.new ≡ stood_of self.old }
        ensures spare { threads_spare self.old.flow.threads ≤ threads_spare self.new.flow.threads + 4 }
    {
        let end = ink_moves::call(&mut self.flow.threads, &mut self.output, kind, to.place)?;
        self.enter_around(story.tree(), to.enters)?;
        Ok(end)
    }

    /// Flow comes back from a frame of this kind, to after its call, or to where it lands, which may enter containers around.
    #[inline(always)]
    fn go_back(
        &mut self,
        story: &Story,
        kind: FrameKind,
        to: Option<Landing>,
    ) -> Result<StepEnd, Fault>
        requires room { MOVING + 2 ≤ threads_spare self.old.flow.threads }
        ensures ends { let s = story_tree story.now in let c = config_of s self.old in let goal = option_map (landing_of s) to in let how = returned (next_place s) kind (place_to goal) in
            StepEnds (pressed s self.new || (returned_asks (next_place s) kind (place_to goal) c.flow.threads (written_in c) || landed_asks s (may_enter goal) c.shared.counts (how c.flow.threads (written_in c))))
            (landing_outcome s (may_enter goal) how c) self.old.shared.globals.rows (config_of s self.new) result }
        ensures globals { self.new.shared.globals.rows ≡ self.old.shared.globals.rows }
        ensures start { start_of self.new ≡ start_of self.old }
        ensures own { self.new.trail ≡ self.old.trail }
        ensures aside { aside_in self.new ≡ aside_in self.old }
        ensures mark { stood_of self.new ≡ stood_of self.old }
        ensures enough { 5 ≤ threads_spare self.new.flow.threads }
    {
        let end = return_frame(
            story.tree(),
            &mut self.flow.threads,
            &mut self.flow.stack,
            &mut self.output,
            kind,
            place_to(to),
        )?;
        self.enter_around(story.tree(), may_enter(to))?;
        Ok(end)
    }

    /// Flow goes on after the content.
    #[inline(always)]
    fn go_on(&mut self, story: &Story) -> Result<StepEnd, Fault>
        requires room { MOVING ≤ threads_spare self.old.flow.threads }
        ensures ends { let s = story_tree story.now in let c = config_of s self.old in
            StepEnds (moved_asks (next_place s) c.flow.threads (written_in c)) (going (moved_on (next_place s)) c) self.old.shared.globals.rows (config_of s self.new) result }
        ensures globals { self.new.shared.globals.rows ≡ self.old.shared.globals.rows }
        ensures start { start_of self.new ≡ start_of self.old }
        ensures own { self.new.trail ≡ self.old.trail }
        ensures aside { aside_in self.new ≡ aside_in self.old }
        ensures mark { stood_of self.new ≡ stood_of self.old }
        ensures enough { 6 ≤ threads_spare self.new.flow.threads }
    {
        move_on(
            story.tree(),
            &mut self.flow.threads,
            &mut self.flow.stack,
            &mut self.output,
        )
    }

    /// The same where no place comes after it.
    #[inline(always)]
    fn go_off(&mut self, story: &Story) -> Result<StepEnd, Fault>
        requires last { let s = story_tree story.now in option_and_then (next_place s) (place_in (map_threads (place_of s) self.old.flow.threads.threads)) ≡ None }
        requires room { MOVING ≤ threads_spare self.old.flow.threads }
        ensures ends { let s = story_tree story.now in let c = config_of s self.old in
            StepEnds (moved_asks (next_place s) c.flow.threads (written_in c)) (going (moved_on (next_place s)) c) self.old.shared.globals.rows (config_of s self.new) result }
        ensures globals { self.new.shared.globals.rows ≡ self.old.shared.globals.rows }
        ensures start { start_of self.new ≡ start_of self.old }
        ensures own { self.new.trail ≡ self.old.trail }
        ensures aside { aside_in self.new ≡ aside_in self.old }
        ensures mark { stood_of self.new ≡ stood_of self.old }
        ensures enough { 6 ≤ threads_spare self.new.flow.threads }
    {
        move_off(
            story.tree(),
            &mut self.flow.threads,
            &mut self.flow.stack,
            &mut self.output,
        )
    }
}

/// Where flow that comes back lands, where it is given a place.
fn place_to(to: Option<Landing>) -> Option<Spot>
    ensures { (s : StoryTree) → option_map (place_of s) result ≡ place_to (option_map (landing_of s) to) }
{
    match to {
        Some(to) => Some(to.place),
        None => None,
    }
}

/// Whether flow that comes back may enter containers around.
fn may_enter(to: Option<Landing>) -> bool
    ensures { (s : StoryTree) → result ≡ may_enter (option_map (landing_of s) to) }
{
    match to {
        Some(to) => to.enters,
        None => false,
    }
}

fn is_pointer(value: &Value) -> bool
    ensures { result ≡ is_pointer (Some value.now) }
{
    matches!(value, Value::Pointer(_, _))
}
