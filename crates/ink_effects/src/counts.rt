//! Questions for visits and turns (docs/RUNNING.md, "Questions for counts").

ghost use Rattle.ink_value.specs.Undo.{stack_spare, stack_stood};
ghost use Rattle.std.specs.Prelude.{◌≡◌, ◌&&◌, ℕ, Bool, false, Option, option_map, reverse, ◌≤◌};
ghost use Rattle.ink_check.specs.Standing.{story_tree};
ghost use Rattle.ink_model.specs.Story.Acceptance.{counted_container, leads};
ghost use Rattle.ink_model.specs.Flow.Frames.{ThreadsOf};
ghost use Rattle.ink_model.specs.Memory.Asks.{has_room, visit_asks};
ghost use Rattle.ink_model.specs.Text.Page.{Page};
ghost use Rattle.ink_model.specs.Story.Path.{above};
ghost use Rattle.ink_model.specs.Values.Stack.{popped};
ghost use Rattle.ink_model.specs.Run.Step.Counts as rules;
ghost use Rattle.ink_model.specs.Run.Step.Counts.{push_count, push_read_count, push_turn, push_turns, push_visit};
ghost use Rattle.ink_model.specs.Variables.Store.{Values};
ghost use Rattle.ink_model.specs.Story.Tree.{StoryTree, at, leaf};
ghost use Rattle.ink_model.specs.declared.content.Leaf.TheVariants.{Count};
ghost use Rattle.ink_effects.specs.Asked.{Answers, IsContainer, asked_place, asked_of, visits_in};
ghost use Rattle.ink_effects.specs.Performs.{Changes, fields};
ghost use Rattle.ink_effects.specs.Standing.{Rest, counts_in, seen_by};
ghost use Rattle.ink_tree.specs.Nodes.{node_place, place_of};
ghost use Rattle.ink_tree.specs.declared.spot.Spot.{Spot as Place};

use crate::diverts::landing_by;
use crate::operands::push;
use crate::visits::{turns_since, visits_of};
use ink_check::Story;
use ink_model::{Content, Fault, Shared, Text, Value};
use ink_tree::{NodeId, Spot};
use ink_value::EvalStack;
use ink_vars::{Counts, Turn};

/// The visits of the container to which a content's path leads are pushed. `NotCounted` where they are not counted.
#[inline(never)]
pub(crate) fn push_count(
    story: &Story,
    here: Spot,
    counts: &Counts,
    stack: &mut EvalStack,
    path: &Shared<Text>,
) -> Result<(), Fault>
    requires { let s = story_tree story.now in at s (place_of s here) ≡ Some (leaf (Count path.now)) }
    ensures effect { let s = story_tree story.now in (threads : ThreadsOf Place) (rest : Rest) (evaluating : Bool) (fresh : Option ℕ) (page : Page) (globals : Values)
        → let seen = seen_by s threads (record rest { counts = counts.now.rows }) in Changes (visit_asks s seen (leads s (place_of s here) path.now) && has_room stack.old.items)
        (push_count s seen (place_of s here) path.now (fields evaluating fresh stack.old.items page globals)) (fields evaluating fresh stack.new.items page globals) result }
    ensures mark { stack_stood stack.new ≡ stack_stood stack.old }
{
    let visits = visits_in(story, counts, counted(story, here))?;
    push(stack, Value::Int(visits))
}

/// The visits of the container that holds a content are pushed, less one. `NotCounted` where they are not counted.
pub(crate) fn push_visit(
    story: &Story,
    here: Spot,
    counts: &Counts,
    stack: &mut EvalStack,
) -> Result<(), Fault>
    ensures effect { let s = story_tree story.now in (threads : ThreadsOf Place) (rest : Rest) (evaluating : Bool) (fresh : Option ℕ) (page : Page) (globals : Values)
        → let seen = seen_by s threads (record rest { counts = counts.now.rows }) in Changes (visit_asks s seen (above (reverse (place_of s here))) && has_room stack.old.items)
        (push_visit s seen (place_of s here) (fields evaluating fresh stack.old.items page globals)) (fields evaluating fresh stack.new.items page globals) result }
    ensures mark { stack_stood stack.new ≡ stack_stood stack.old }
{
    let visits = visits_in(story, counts, holder(story, here))?;
    push(stack, Value::Int(visits - 1))
}

/// The number of the turn is pushed.
pub(crate) fn push_turn(stack: &mut EvalStack, turn: Turn) -> Result<(), Fault>
    ensures effect { (s : StoryTree) (threads : ThreadsOf Place) (rest : Rest) (evaluating : Bool) (fresh : Option ℕ) (page : Page) (globals : Values)
        → Changes (has_room stack.old.items) (push_turn s (seen_by s threads (record rest { turn = turn })) (fields evaluating fresh stack.old.items page globals)) (fields evaluating fresh stack.new.items page globals) result }
    ensures mark { stack_stood stack.new ≡ stack_stood stack.old }
{
    push(stack, Value::Int(turn.number() as i32))
}

/// In the place of a target on top: how many turns ago the container that it names was entered last, -1 where it never was or is
/// no container. `StackEmpty` where nothing is there, `BadTarget` where it is no target or leads nowhere, `NotCounted` where
/// the container's turns are not noted.
pub(crate) fn push_turns(
    story: &Story,
    counts: &Counts,
    stack: &mut EvalStack,
    turn: Turn,
) -> Result<(), Fault>
    requires room { 1 ≤ stack_spare stack.old }
    ensures effect { let s = story_tree story.now in (threads : ThreadsOf Place) (rest : Rest) (evaluating : Bool) (fresh : Option ℕ) (page : Page) (globals : Values)
        → Changes false (push_turns s (seen_by s threads (record rest { counts = counts.now.rows; turn = turn })) (fields evaluating fresh stack.old.items page globals)) (fields evaluating fresh stack.new.items page globals) result }
    ensures mark { stack_stood stack.new ≡ stack_stood stack.old }
{
    let place = asked_place(story, stack)?;
    let turns = turns_there(story, counts, place, turn)?;
    answer(stack, turns)
}

/// In the place of a target on top: how often the container that it names was visited, 0 where it is no container. `StackEmpty`
/// where nothing is there, `BadTarget` where it is no target or leads nowhere, `NotCounted` where the container's visits are
/// not counted.
pub(crate) fn push_read_count(
    story: &Story,
    counts: &Counts,
    stack: &mut EvalStack,
) -> Result<(), Fault>
    requires room { 1 ≤ stack_spare stack.old }
    ensures effect { let s = story_tree story.now in (threads : ThreadsOf Place) (rest : Rest) (evaluating : Bool) (fresh : Option ℕ) (page : Page) (globals : Values)
        → Changes false (push_read_count s (seen_by s threads (record rest { counts = counts.now.rows })) (fields evaluating fresh stack.old.items page globals)) (fields evaluating fresh stack.new.items page globals) result }
    ensures mark { stack_stood stack.new ≡ stack_stood stack.old }
{
    let place = asked_place(story, stack)?;
    let visits = visits_there(story, counts, place)?;
    answer(stack, visits)
}

/// The container for whose visits the content at a place asks.
pub(crate) fn counted(story: &Story, here: Spot) -> Option<NodeId>
    ensures { let s = story_tree story.now in option_map (node_place s) result ≡ counted_container s (place_of s here) }
{
    story.counted(story.tree().node(here)?)
}

/// The container that holds the content at a place, none for the root.
fn holder(story: &Story, here: Spot) -> Option<NodeId>
    ensures { let s = story_tree story.now in option_map (node_place s) result ≡ above (reverse (place_of s here)) }
{
    match here.index {
        Some(_) => Some(here.holder),
        None => story.tree().holder(here.holder),
    }
}

/// The visits of a container. `NotCounted` where they are not counted, or there is none.
pub(crate) fn visits_in(
    story: &Story,
    counts: &Counts,
    container: Option<NodeId>,
) -> Result<i32, Fault>
    ensures { let s = story_tree story.now in result ≡ visits_in s (counts_in s counts.now.rows) (option_map (node_place s) container) }
{
    match container {
        Some(container) => visits_of(story.tree(), counts, container),
        None => Err(Fault::NotCounted),
    }
}

/// The place that a target on top names. `StackEmpty` where nothing is there, `BadTarget` where it is no target or leads
/// nowhere.
fn asked_place(story: &Story, stack: &EvalStack) -> Result<Spot, Fault>
    ensures { let s = story_tree story.now in asked_of s result ≡ asked_place s (popped stack.now.items) }
{
    let Ok(value) = stack.peek(0) else {
        return Err(Fault::StackEmpty);
    };
    match landing_by(story, value) {
        Some(landing) => Ok(landing.place),
        None => Err(Fault::BadTarget),
    }
}

/// How many turns ago the container at a place was entered last, -1 where it never was, or what is there is no container.
/// `NotCounted` where its turns are not noted.
fn turns_there(story: &Story, counts: &Counts, place: Spot, turn: Turn) -> Result<i32, Fault>
    ensures { let s = story_tree story.now in (threads : ThreadsOf Place) (rest : Rest)
        → result ≡ rules.turns_there s (seen_by s threads (record rest { counts = counts.now.rows; turn = turn })) (place_of s place) }
{
    match container(story, place) {
        Some(container) => turns_since(story.tree(), counts, container, turn),
        None => Ok(-1),
    }
}

/// How often the container at a place was visited, 0 where what is there is no container. `NotCounted` where its visits are not
/// counted.
fn visits_there(story: &Story, counts: &Counts, place: Spot) -> Result<i32, Fault>
    ensures { let s = story_tree story.now in (threads : ThreadsOf Place) (rest : Rest)
        → result ≡ rules.visits_there s (seen_by s threads (record rest { counts = counts.now.rows })) (place_of s place) }
{
    match container(story, place) {
        Some(container) => visits_of(story.tree(), counts, container),
        None => Ok(0),
    }
}

/// The container at a place, none where none stands there.
fn container(story: &Story, place: Spot) -> Option<NodeId>
    ensures { let s = story_tree story.now in IsContainer s (place_of s place) result }
{
    match story.tree().content(place) {
        Some(Content::Container(_)) => story.tree().node(place),
        _ => None,
    }
}

/// Puts a number in the place of the value on top. `StackEmpty` where there is none.
fn answer(stack: &mut EvalStack, number: i32) -> Result<(), Fault>
    requires room { 1 ≤ stack_spare stack.old }
    ensures answers { Answers number (popped stack.old.items) stack.new.items result }
    ensures mark { stack_stood stack.new ≡ stack_stood stack.old }
{
    match stack.replace_top(Value::Int(number)) {
        Ok(()) => Ok(()),
        Err(_) => Err(Fault::StackEmpty),
    }
}
