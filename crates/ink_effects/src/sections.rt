//! Strings and tags begin and end (docs/TEXT.md, "Sections").

ghost use Rattle.ink_out.specs.Undo.{output_stood};
ghost use Rattle.ink_value.specs.Undo.{stack_stood};
ghost use Rattle.std.specs.Prelude.{◌≡◌, ◌&&◌, ℕ, List, Bool, true, false, Option, Ok, Err, IfErr, OnOk, if◌then◌else◌};
ghost use Rattle.ink_model.specs.Memory.Asks.{has_room, has_tag_room, may_open};
ghost use Rattle.ink_model.specs.Memory.Refusals.{Gives, leaving};
ghost use Rattle.ink_model.specs.Text.Output.{writes_tag};
ghost use Rattle.ink_model.specs.Run.Step.Text.{begin_string, begin_tag, closed_tag, end_string, end_tag, in_string, in_tag, keeps_tag, write_tag};
ghost use Rattle.ink_model.specs.Variables.Store.{Values};
ghost use Rattle.ink_model.specs.declared.value.Value.{Value as Data};
ghost use Rattle.ink_effects.specs.Performs.{Changes, fields};

use crate::operands::{check_room, push};
use ink_model::{Fault, Value};
use ink_out::Output;
use ink_value::EvalStack;

/// A string begins in evaluation mode, and its content is written as text.
pub(crate) fn begin_string(output: &mut Output, evaluating: &mut bool) -> Result<(), Fault>
    ensures effect { (fresh : Option ℕ) (stack : List Data) (globals : Values)
        → Changes (evaluating.old && may_open output.old.page.sections) (begin_string (fields evaluating.old fresh stack output.old.page globals)) (fields evaluating.new fresh stack output.new.page globals) result }
    ensures mark { output_stood output.new ≡ output_stood output.old }
{
    if !*evaluating {
        return Err(Fault::BadMode);
    }
    output.open_string()?;
    *evaluating = false;
    Ok(())
}

/// The text of a string that ends is pushed, and evaluation goes on. Where there is no room for it, that is found before the
/// text is made.
pub(crate) fn end_string(
    stack: &mut EvalStack,
    output: &mut Output,
    evaluating: &mut bool,
) -> Result<(), Fault>
    ensures effect { (fresh : Option ℕ) (globals : Values)
        → Changes (in_string output.old.page.sections && has_room stack.old.items) (end_string (fields evaluating.old fresh stack.old.items output.old.page globals)) (fields evaluating.new fresh stack.new.items output.new.page globals) result }
    ensures stack_mark { stack_stood stack.new ≡ stack_stood stack.old }
    ensures output_mark { output_stood output.new ≡ output_stood output.old }
{
    if !output.is_string() {
        return Err(Fault::BadMode);
    }
    check_room(stack)?;
    let text = output.close_string()?;
    *evaluating = true;
    push(stack, Value::Text(text))
}

/// A tag begins; one that is on top is closed first.
pub(crate) fn begin_tag(stack: &mut EvalStack, output: &mut Output) -> Result<(), Fault>
    ensures effect { (evaluating : Bool) (fresh : Option ℕ) (globals : Values)
        → Changes (if in_tag output.old.page.sections then has_tag_room output.old.page.sections stack.old.items else may_open output.old.page.sections) (begin_tag (fields evaluating fresh stack.old.items output.old.page globals)) (fields evaluating fresh stack.new.items output.new.page globals) result }
    ensures stack_mark { stack_stood stack.new ≡ stack_stood stack.old }
    ensures output_mark { output_stood output.new ≡ output_stood output.old }
{
    close_tag_on_top(stack, output)?;
    output.open_tag()
}

/// The tag on top ends; in a string its text is pushed.
pub(crate) fn end_tag(stack: &mut EvalStack, output: &mut Output) -> Result<(), Fault>
    ensures effect { (evaluating : Bool) (fresh : Option ℕ) (globals : Values)
        → Changes (in_tag output.old.page.sections && has_tag_room output.old.page.sections stack.old.items) (end_tag (fields evaluating fresh stack.old.items output.old.page globals)) (fields evaluating fresh stack.new.items output.new.page globals) result }
    ensures stack_mark { stack_stood stack.new ≡ stack_stood stack.old }
    ensures output_mark { output_stood output.new ≡ output_stood output.old }
{
    close_tag(stack, output)
}

/// A tag is given whole, whatever the mode; one that is on top is closed first. Where there is no room for it in a string, that
/// is found before a text is made.
pub(crate) fn write_tag(stack: &mut EvalStack, output: &mut Output, text: &str) -> Result<(), Fault>
    ensures effect { (evaluating : Bool) (fresh : Option ℕ) (globals : Values)
        → Changes (has_tag_room output.old.page.sections stack.old.items) (write_tag text.now (fields evaluating fresh stack.old.items output.old.page globals)) (fields evaluating fresh stack.new.items output.new.page globals) result }
    ensures stack_mark { stack_stood stack.new ≡ stack_stood stack.old }
    ensures output_mark { output_stood output.new ≡ output_stood output.old }
{
    check_string_room(stack, output)?;
    close_tag_on_top(stack, output)?;
    add_tag(stack, output, text)
}

/// Adds a tag that is given whole; in a string its text is pushed.
fn add_tag(stack: &mut EvalStack, output: &mut Output, text: &str) -> Result<(), Fault>
    ensures added { Gives (leaving (stack.new.items, output.new.page) result) (keeps_tag stack.old.items (writes_tag text.now output.old.page)) }
    ensures stack_mark { stack_stood stack.new ≡ stack_stood stack.old }
    ensures output_mark { output_stood output.new ≡ output_stood output.old }
{
    match output.tag(text) {
        Ok(Some(tag)) => push(stack, Value::Tag(tag)),
        Ok(None) => Ok(()),
        Err(fault) => Err(fault),
    }
}

/// `TooDeep` where a string is open, and there is no room for a tag of it. Takes no memory.
fn check_string_room(stack: &EvalStack, output: &Output) -> Result<(), Fault>
    ensures room { OnOk result (has_tag_room output.now.page.sections stack.now.items ≡ true) }
    ensures full { IfErr result (λ f. (f ≡ Fault.TooDeep) × (has_tag_room output.now.page.sections stack.now.items ≡ false)) }
{
    if !output.in_string() {
        return Ok(());
    }
    check_room(stack)
}

/// Closes a tag where one is on top, and else does nothing.
fn close_tag_on_top(stack: &mut EvalStack, output: &mut Output) -> Result<(), Fault>
    ensures closed { Gives (leaving (stack.new.items, output.new.page) result) (if in_tag output.old.page.sections then closed_tag stack.old.items output.old.page else Ok (stack.old.items, output.old.page)) }
    ensures memory { result ≡ Err Fault.OutOfMemory → in_tag output.old.page.sections ≡ true }
    ensures room { in_tag output.old.page.sections ≡ true → has_tag_room output.old.page.sections stack.old.items ≡ false → result ≡ Err Fault.TooDeep }
    ensures stack_mark { stack_stood stack.new ≡ stack_stood stack.old }
    ensures output_mark { output_stood output.new ≡ output_stood output.old }
{
    match close_tag(stack, output) {
        Err(Fault::BadMode) => Ok(()),
        outcome => outcome,
    }
}

/// Closes the tag on top; in a string its text is pushed, and where there is no room for it, that is found before the text is
/// made. After `BadMode`, where none is on top, nothing has changed.
fn close_tag(stack: &mut EvalStack, output: &mut Output) -> Result<(), Fault>
    ensures closed { Gives (leaving (stack.new.items, output.new.page) result) (closed_tag stack.old.items output.old.page) }
    ensures none { IfErr result (λ fault. fault ≡ Fault.BadMode → (stack.new.items ≡ stack.old.items) × (output.new.page ≡ output.old.page)) }
    ensures memory { result ≡ Err Fault.OutOfMemory → in_tag output.old.page.sections ≡ true }
    ensures room { in_tag output.old.page.sections ≡ true → has_tag_room output.old.page.sections stack.old.items ≡ false → result ≡ Err Fault.TooDeep }
    ensures stack_mark { stack_stood stack.new ≡ stack_stood stack.old }
    ensures output_mark { output_stood output.new ≡ output_stood output.old }
{
    check_tag_room(stack, output)?;
    match output.close_tag() {
        Ok(Some(text)) => push(stack, Value::Tag(text)),
        Ok(None) => Ok(()),
        Err(fault) => Err(fault),
    }
}

/// `TooDeep` where a tag is on top whose text would be pushed, and there is no room for it. Takes no memory.
fn check_tag_room(stack: &EvalStack, output: &Output) -> Result<(), Fault>
    ensures room { OnOk result (in_tag output.now.page.sections ≡ true → has_tag_room output.now.page.sections stack.now.items ≡ true) }
    ensures full { IfErr result (λ f. (f ≡ Fault.TooDeep) × (in_tag output.now.page.sections ≡ true) × (has_tag_room output.now.page.sections stack.now.items ≡ false)) }
{
    if output.is_tag_in_string() {
        return check_room(stack);
    }
    Ok(())
}
