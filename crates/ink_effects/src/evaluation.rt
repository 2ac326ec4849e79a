//! Values, operators and evaluation mode (docs/RUNNING.md, "Evaluation").

ghost use Rattle.ink_value.specs.Undo.{stack_spare, stack_stood};
ghost use Rattle.std.specs.Prelude.{◌&&◌, ℕ, List, [], Bool, true, false, Option, Some, IfOk, ◌≡◌, ◌≤◌};
ghost use Rattle.ink_check.specs.Standing.{story_tree};
ghost use Rattle.ink_model.specs.Memory.Asks.{has_room};
ghost use Rattle.ink_model.specs.Memory.Refusals.{has_top, operator_asks};
ghost use Rattle.ink_model.specs.Values.Operator.{takes};
ghost use Rattle.ink_model.specs.Text.Page.{Page};
ghost use Rattle.ink_model.specs.Values.Stack.{popped, taken};
ghost use Rattle.ink_model.specs.Run.Step.Diverts as rules;
ghost use Rattle.ink_model.specs.Run.Step.Evaluation.{push_value, begin_eval, end_eval, pop, duplicate, operate};
ghost use Rattle.ink_model.specs.Variables.Store.{Values};
ghost use Rattle.ink_model.specs.Story.Tree.{at, leaf};
ghost use Rattle.ink_model.specs.declared.content.Leaf.TheVariants.{Target};
ghost use Rattle.ink_model.specs.declared.value.Value.{Value as Data};
ghost use Rattle.ink_model.specs.declared.value.Value.TheVariants as value;
ghost use Rattle.ink_effects.specs.Performs.{Changes, fields};
ghost use Rattle.ink_tree.specs.Nodes.{place_of};

use crate::operands::{check_room, drop_top, push, top, top_copy};
use ink_check::Story;
use ink_model::{Fault, Op, Path, Shared, Text, Value};
use ink_tree::Spot;
use ink_value::EvalStack;
use std::alloc::{AllocError, Global};

/// A value is pushed in evaluation mode, and does nothing outside it.
#[inline(always)]
pub(crate) fn push_value(stack: &mut EvalStack, evaluating: bool, value: Value) -> Result<(), Fault>
    ensures effect { (fresh : Option ℕ) (page : Page) (globals : Values)
        → Changes (evaluating && has_room stack.old.items) (push_value value (fields evaluating fresh stack.old.items page globals)) (fields evaluating fresh stack.new.items page globals) result }
    ensures mark { stack_stood stack.new ≡ stack_stood stack.old }
{
    if !evaluating {
        return Ok(());
    }
    push(stack, value)
}

/// The path that a content spells is pushed in evaluation mode. Outside it nothing is done.
#[inline(never)]
pub(crate) fn push_target(
    story: &Story,
    here: Spot,
    stack: &mut EvalStack,
    evaluating: bool,
    text: &Shared<Text>,
) -> Result<(), Fault>
    requires { let s = story_tree story.now in at s (place_of s here) ≡ Some (leaf (Target text.now)) }
    ensures effect { (fresh : Option ℕ) (page : Page) (globals : Values)
        → Changes (evaluating && has_room stack.old.items) (push_value (value.Target (rules.path_of text.now)) (fields evaluating fresh stack.old.items page globals)) (fields evaluating fresh stack.new.items page globals) result }
    ensures mark { stack_stood stack.new ≡ stack_stood stack.old }
{
    if !evaluating {
        return Ok(());
    }
    check_room(stack)?;
    let path = path_at(story, here, text)?;
    push(stack, Value::Target(path))
}

/// The path that a content spells, which the story keeps read. The error is a count of its owners that is full. A text that spells
/// no path would be answered so too; an accepted story has none.
fn path_at(story: &Story, here: Spot, text: &Shared<Text>) -> Result<Shared<Path>, AllocError>
    requires { let s = story_tree story.now in at s (place_of s here) ≡ Some (leaf (Target text.now)) }
    ensures { IfOk result (λ path. path ≡ rules.path_of text.now) }
{
    let Some(node) = story.tree().node(here) else {
        unreachable!();
    };
    match story.pushed(node) {
        Some(path) => path.share(),
        None => Err(AllocError),
    }
}

/// Evaluation mode begins. `BadMode` where it has begun.
pub(crate) fn begin_eval(evaluating: &mut bool) -> Result<(), Fault>
    ensures { (fresh : Option ℕ) (stack : List Data) (page : Page) (globals : Values)
        → Changes false (begin_eval (fields evaluating.old fresh stack page globals)) (fields evaluating.new fresh stack page globals) result }
{
    if *evaluating {
        return Err(Fault::BadMode);
    }
    *evaluating = true;
    Ok(())
}

/// Evaluation mode ends. `BadMode` where it has not begun.
pub(crate) fn end_eval(evaluating: &mut bool) -> Result<(), Fault>
    ensures { (fresh : Option ℕ) (stack : List Data) (page : Page) (globals : Values)
        → Changes false (end_eval (fields evaluating.old fresh stack page globals)) (fields evaluating.new fresh stack page globals) result }
{
    if !*evaluating {
        return Err(Fault::BadMode);
    }
    *evaluating = false;
    Ok(())
}

/// The value on top goes. `StackEmpty` where there is none.
pub(crate) fn pop(stack: &mut EvalStack) -> Result<(), Fault>
    requires room { 1 ≤ stack_spare stack.old }
    ensures effect { (evaluating : Bool) (fresh : Option ℕ) (page : Page) (globals : Values)
        → Changes false (pop (fields evaluating fresh stack.old.items page globals)) (fields evaluating fresh stack.new.items page globals) result }
    ensures mark { stack_stood stack.new ≡ stack_stood stack.old }
{
    if top(stack).is_none() {
        return Err(Fault::StackEmpty);
    }
    drop_top(stack);
    Ok(())
}

/// The value on top is pushed again.
pub(crate) fn duplicate(alloc: Global, stack: &mut EvalStack) -> Result<(), Fault>
    ensures effect { (evaluating : Bool) (fresh : Option ℕ) (page : Page) (globals : Values)
        → Changes (has_top (popped stack.old.items) && has_room stack.old.items) (duplicate (fields evaluating fresh stack.old.items page globals)) (fields evaluating fresh stack.new.items page globals) result }
    ensures mark { stack_stood stack.new ≡ stack_stood stack.old }
{
    let value = top_copy(alloc, stack)?;
    push(stack, value)
}

/// What an operator makes of the values on top is pushed in their place.
#[inline(always)]
pub(crate) fn operate(alloc: Global, stack: &mut EvalStack, operator: Op) -> Result<(), Fault>
    requires room { 2 ≤ stack_spare stack.old }
    ensures effect { (evaluating : Bool) (fresh : Option ℕ) (page : Page) (globals : Values)
        → Changes (operator_asks operator (taken (takes operator) stack.old.items [])) (operate operator (fields evaluating fresh stack.old.items page globals)) (fields evaluating fresh stack.new.items page globals) result }
    ensures mark { stack_stood stack.new ≡ stack_stood stack.old }
{
    stack.apply_top(alloc, operator)
}
