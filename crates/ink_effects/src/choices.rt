//! Choice points (docs/RUNNING.md, "Choices").

ghost use Rattle.ink_choice.specs.Undo.{choices_stood};
ghost use Rattle.ink_value.specs.Undo.{stack_spare, stack_stood};
ghost use Rattle.std.specs.Prelude.{◌≡◌, ℕ, Bool, Option, Some, OnOk, ◌≤◌, length};
ghost use Rattle.ink_check.specs.Standing.{story_tree};
ghost use Rattle.ink_model.specs.Story.Acceptance.{counted_container, lands};
ghost use Rattle.ink_model.specs.Flow.Frames.{ThreadsOf};
ghost use Rattle.ink_model.specs.Memory.Asks.{has_room, offer_asks};
ghost use Rattle.ink_model.specs.Text.Page.{Page};
ghost use Rattle.ink_model.specs.Run.Step.Choices.{is_visited, offer, push_choice_count};
ghost use Rattle.ink_model.specs.Variables.Store.{Values};
ghost use Rattle.ink_model.specs.Story.Tree.{StoryTree, at, leaf};
ghost use Rattle.ink_model.specs.declared.content.Leaf.TheVariants.{Choice as Point};
ghost use Rattle.ink_effects.specs.Asked.{visits_in};
ghost use Rattle.ink_effects.specs.Performs.{Changes, KeepsChoices, fields};
ghost use Rattle.ink_effects.specs.Standing.{Rest, counts_in, seen_by};
ghost use Rattle.ink_tree.specs.Nodes.{place_of};
ghost use Rattle.ink_tree.specs.declared.spot.Spot.{Spot as Place};

use crate::counts::{counted, visits_in};
use crate::diverts::written_landing;
use crate::operands::push;
use ink_check::Story;
use ink_choice::{Choices, add_made};
use ink_model::{Fault, Shared, Text, Value};
use ink_stack::Threads;
use ink_tree::Spot;
use ink_value::EvalStack;
use ink_vars::Counts;
use std::alloc::Global;

/// A choice point pops what it is made of, and offers the choice behind the others, where it makes one. `BadTarget` where it
/// leads nowhere; then the faults of what it pops, of a text that is longer than a text may be, and of one choice too many
/// (`ink_choice::add_made`). Memory is asked for only where a choice is made.
#[inline(never)]
pub(crate) fn offer(
    alloc: Global,
    story: &Story,
    here: Spot,
    flags: u8,
    stack: &mut EvalStack,
    counts: &Counts,
    threads: &Threads<Spot>,
    choices: &mut Choices<Spot>,
    text: &Shared<Text>,
) -> Result<(), Fault>
    requires stands { let s = story_tree story.now in at s (place_of s here) ≡ Some (leaf (Point text.now flags)) }
    requires room { length stack.old.items ≤ stack_spare stack.old }
    ensures effect { let s = story_tree story.now in let p = place_of s here in (rest : Rest) (evaluating : Bool) (fresh : Option ℕ) (page : Page) (globals : Values)
        → let seen = seen_by s threads.now.threads (record rest { choices = choices.old.items; counts = counts.now.rows }) in let f = fields evaluating fresh stack.old.items page globals in
        Changes (offer_asks s p seen text.now flags f (lands s p text.now)) (offer s p seen text.now flags f) (fields evaluating fresh stack.new.items page globals) result }
    ensures choices { let s = story_tree story.now in let p = place_of s here in (rest : Rest) (evaluating : Bool) (fresh : Option ℕ) (page : Page) (globals : Values)
        → let seen = seen_by s threads.now.threads (record rest { choices = choices.old.items; counts = counts.now.rows }) in let f = fields evaluating fresh stack.old.items page globals in
        OnOk result (KeepsChoices s (offer s p seen text.now flags f) choices.old.items choices.new.items) }
    ensures stack_mark { stack_stood stack.new ≡ stack_stood stack.old }
    ensures choices_mark { choices_stood choices.new ≡ choices_stood choices.old }
{
    let Some(target) = written_landing(story, here) else {
        return Err(Fault::BadTarget);
    };
    let visited = was_visited(story, here, counts);
    add_made(alloc, flags, target, stack, visited, threads, choices)
}

/// Whether the container for whose visits a content asks was visited; what is not counted was not. Of a choice point that is the
/// definition's `was_visited`: it asks for the very container to which its path leads where it is offered once only, and else for none.
fn was_visited(story: &Story, here: Spot, counts: &Counts) -> bool
    ensures { let s = story_tree story.now in result ≡ is_visited (visits_in s (counts_in s counts.now.rows) (counted_container s (place_of s here))) }
{
    match visits_in(story, counts, counted(story, here)) {
        Ok(visits) => visits > 0,
        Err(_) => false,
    }
}

/// How many choices were made is pushed, the invisible ones counted.
pub(crate) fn push_choice_count(stack: &mut EvalStack, choices: &Choices<Spot>) -> Result<(), Fault>
    ensures effect { (s : StoryTree) (threads : ThreadsOf Place) (rest : Rest) (evaluating : Bool) (fresh : Option ℕ) (page : Page) (globals : Values)
        → Changes (has_room stack.old.items) (push_choice_count (seen_by s threads (record rest { choices = choices.now.items })) (fields evaluating fresh stack.old.items page globals)) (fields evaluating fresh stack.new.items page globals) result }
    ensures mark { stack_stood stack.new ≡ stack_stood stack.old }
{
    push(stack, Value::Int(choices.len() as i32))
}
