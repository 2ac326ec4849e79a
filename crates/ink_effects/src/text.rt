//! Text, newlines and glue are written, or pushed in evaluation mode (docs/TEXT.md).

ghost use Rattle.ink_out.specs.Undo.{output_stood};
ghost use Rattle.ink_value.specs.Undo.{stack_spare, stack_stood};
ghost use Rattle.std.specs.Prelude.{◌≡◌, ◌&&◌, ℕ, List, Bool, false, not, is_ok, Option, if◌then◌else◌, length, ◌≤◌};
ghost use Rattle.ink_model.specs.Memory.Asks.{has_bytes, has_room};
ghost use Rattle.ink_model.specs.Run.Effect.{is_fresh_at};
ghost use Rattle.ink_model.specs.Memory.Refusals.{output_asks};
ghost use Rattle.ink_model.specs.Text.Output.{writes_glue, writes_newline};
ghost use Rattle.ink_model.specs.Values.Stack.{popped};
ghost use Rattle.ink_model.specs.Run.Step.Evaluation.{output_value};
ghost use Rattle.ink_model.specs.Run.Step.Text.{write_text, write_newline, write_glue};
ghost use Rattle.ink_model.specs.Variables.Store.{Values};
ghost use Rattle.ink_model.specs.declared.value.Value.{Value as Data};
ghost use Rattle.ink_effects.specs.Performs.{Changes, PerformsText, fields};

use crate::operands::{check_room, drop_top, push, top};
use ink_model::{Fault, Shared, Text, Value};
use ink_out::Output;
use ink_value::EvalStack;
use std::alloc::Global;

/// A text is pushed in evaluation mode, and written outside it. Whether a text was written.
#[tactic(auto, unfolding(ink_model::specs::Values::Value::printed))]
#[inline(never)]
pub fn write_text(
    stack: &mut EvalStack,
    output: &mut Output,
    evaluating: bool,
    fresh: Option<usize>,
    text: &Shared<Text>,
) -> Result<bool, Fault>
    ensures effect { (globals : Values) → PerformsText (if evaluating then has_room stack.old.items else has_bytes text.now) (write_text text.now (fields evaluating fresh stack.old.items output.old.page globals)) (fields evaluating fresh stack.new.items output.new.page globals) result }
    ensures stack_mark { stack_stood stack.new ≡ stack_stood stack.old }
    ensures output_mark { output_stood output.new ≡ output_stood output.old }
{
    if evaluating {
        check_room(stack)?;
        push(stack, Value::Text(text.share()?))?;
        return Ok(false);
    }
    output.write_text(text, is_fresh(output, fresh))
}

/// A newline is pushed in evaluation mode, and written outside it.
#[inline(never)]
pub(crate) fn write_newline(
    alloc: Global,
    stack: &mut EvalStack,
    output: &mut Output,
    evaluating: bool,
    fresh: Option<usize>,
) -> Result<(), Fault>
    ensures effect { (globals : Values) → Changes (if evaluating then has_room stack.old.items else not (is_fresh_at fresh (length output.old.page.sections)) && is_ok (writes_newline false output.old.page)) (write_newline (fields evaluating fresh stack.old.items output.old.page globals)) (fields evaluating fresh stack.new.items output.new.page globals) result }
    ensures stack_mark { stack_stood stack.new ≡ stack_stood stack.old }
    ensures output_mark { output_stood output.new ≡ output_stood output.old }
{
    if evaluating {
        check_room(stack)?;
        let text = Text::from_str(alloc, "\n")?;
        return push(stack, Value::Text(Shared::new(alloc, text)?));
    }
    output.newline(is_fresh(output, fresh))
}

/// Glue is written. It is no value: `BadMode` in evaluation mode.
#[inline(never)]
pub(crate) fn write_glue(output: &mut Output, evaluating: bool) -> Result<(), Fault>
    ensures effect { (fresh : Option ℕ) (stack : List Data) (globals : Values)
        → Changes (not evaluating && is_ok (writes_glue output.old.page)) (write_glue (fields evaluating fresh stack output.old.page globals)) (fields evaluating fresh stack output.new.page globals) result }
    ensures mark { output_stood output.new ≡ output_stood output.old }
{
    if evaluating {
        return Err(Fault::BadMode);
    }
    output.glue()
}

/// The value on top is popped and its printed text written. On an empty stack nothing is done. Whether a text was written.
#[inline(never)]
pub(crate) fn output_top(
    stack: &mut EvalStack,
    output: &mut Output,
    fresh: Option<usize>,
) -> Result<bool, Fault>
    requires room { 1 ≤ stack_spare stack.old }
    ensures effect { (evaluating : Bool) (globals : Values)
        → PerformsText (output_asks (popped stack.old.items)) (output_value (fields evaluating fresh stack.old.items output.old.page globals)) (fields evaluating fresh stack.new.items output.new.page globals) result }
    ensures stack_mark { stack_stood stack.new ≡ stack_stood stack.old }
    ensures output_mark { output_stood output.new ≡ output_stood output.old }
{
    let Some(value) = top(stack) else {
        return Ok(false);
    };
    let fresh = is_fresh(output, fresh);
    let wrote = output.write(value, fresh);
    drop_top(stack);
    wrote
}

/// Whether the top frame is a function that is fresh in the open section.
fn is_fresh(output: &Output, fresh: Option<usize>) -> bool
    ensures { result ≡ is_fresh_at fresh (length output.now.page.sections) }
{
    match fresh {
        Some(depth) => depth == output.depth(),
        None => false,
    }
}
