//! External functions: what a host has bound is called or asked, and what it has not bound is a knot (docs/HOST.md, "Calls").

ghost use Rattle.ink_value.specs.Undo.{stack_spare, stack_stood};
ghost use Rattle.std.specs.Prelude.{◌≡◌, ◌≤◌, ℕ, List, Bool, Option, Some, Ok, Err, IfOk, IfErr, true, false, is_some, length, option_map, ◌+◌};
ghost use Rattle.std.specs.List.{list_all};
ghost use Rattle.ink_check.specs.Standing.{story_tree};
ghost use Rattle.ink_host.specs.Desk.{Grew, StandsAt, at, bound_by, value_at};
ghost use Rattle.ink_host.specs.Telling.{log_of};
ghost use Rattle.ink_host.specs.declared.objects.Bound.TheVariants as bound;
ghost use Rattle.ink_model.specs.Run.Effect.{Fields};
ghost use Rattle.ink_model.specs.Memory.Asks.{binding_asks, external_asks, takes_arguments};
ghost use Rattle.ink_model.specs.Host.Bindings.{fits_given, pure_function, turn_function};
ghost use Rattle.ink_model.specs.Memory.Refusals.{given_asks};
ghost use Rattle.ink_model.specs.Text.Page.{Page};
ghost use Rattle.ink_model.specs.Run.Step.Host as rules;
ghost use Rattle.ink_model.specs.Variables.Store.{Values};
ghost use Rattle.ink_model.specs.Story.Tree.{StoryTree, leaf};
ghost use Rattle.ink_model.specs.Values.Value as truth;
ghost use Rattle.ink_model.specs.declared.host.Event.{Event as Happening};
ghost use Rattle.ink_model.specs.declared.value.Value.{Value as Data};
ghost use Rattle.ink_effects.specs.External.{PerformsCall, call_of, is_asking, is_true_of, lent_arguments};
ghost use Rattle.ink_effects.specs.Performs.{Performs, fields};
ghost use Rattle.ink_effects.specs.Refusals.{StepStopsAtRefusal};

use crate::diverts::{entering, is_wanted};
use crate::operands::put_over;
use crate::transfer::{Transfer, moving};
use ink_check::Story;
use ink_host::{Desk, FnKind, PureFn, TurnFn, Watcher};
use ink_model::{Fault, Given, Leaf, MAX_TEXT, Value, value_given};
use ink_out::Output;
use ink_stack::CallKind;
use ink_tree::Spot;
use ink_value::{EvalStack, is_true};

/// A call of an external function: its name, the number of its arguments, and whether a condition decides.
#[derive(Clone, Copy)]
#[derive(Drop)]
pub struct External<'a> {
    pub name: &'a str,
    pub arguments: usize,
    pub conditional: bool,
}

/// Whether content is a call of an external function.
#[inline(always)]
pub fn is_external(content: &Leaf) -> bool
    ensures { result ≡ is_some (rules.call_at (Some (leaf content.now))) }
{
    matches!(content, Leaf::External { .. })
}

/// The call that stands at a place, none where other content stands there, or nothing.
pub fn external_in<'a>(found: Option<&'a Leaf>) -> Option<External<'a>>
    ensures { option_map call_of result ≡ rules.call_at (option_map (λ l. leaf l.now) found.entry) }
{
    match found {
        Some(
            Leaf::External {
                name,
                arguments,
                conditional,
            },
        ) => Some(External {
            name: name.as_str(),
            arguments: *arguments as usize,
            conditional: *conditional,
        }),
        _ => None,
    }
}

/// Performs a call. A condition is popped and looked at before all else: `StackEmpty` where there is none, `BadOperands` where it
/// is no truth; where it is false flow goes on. What is not bound is a call of the knot of that name, which finds the arguments
/// where they are, `Unbound` where there is none. A turn function is called once, which is an event, and `UnsafeInString` where a
/// string is open; a pure function is asked. The arguments are taken for that: `StackEmpty` where there are not so many,
/// `BadOperands` for another value than an integer, a boolean or a text. `HostRefused` where the host gives no answer; `TooDeep`
/// for a text over its limit and where the stack is full; `OutOfMemory` for a refused request for memory, after which nothing is
/// called again.
pub fn call_external<'a, P: PureFn, T: TurnFn, W: Watcher>(
    story: &Story,
    call: &External<'_>,
    stack: &mut EvalStack,
    output: &Output,
    desk: &mut Desk<P, T, W>,
) -> Result<Transfer<'a>, Fault>
    requires room { length stack.old.items + 1 ≤ stack_spare stack.old }
    ensures call { let s = story_tree story.now in let b = bound_by P.meaning desk.old.functions in let k = call_of call.now in (evaluating : Bool) (fresh : Option ℕ) (globals : Values)
        → let f = fields evaluating fresh stack.old.items output.now.page globals in
        (es : List Happening) × Grew T.log (log_of W.state) desk.old es desk.new
        × PerformsCall s desk.old.next (external_asks (b k.name) k.arguments k.conditional f) (rules.call_external s b k.name k.arguments k.conditional f) es (fields evaluating fresh stack.new.items output.now.page globals) result }
    ensures refusals { StepStopsAtRefusal T.refusals desk.old desk.new result }
    ensures watchers { desk.new.watchers ≡ desk.old.watchers }
    ensures mark { stack_stood stack.new ≡ stack_stood stack.old }
{
    match is_wanted(call.conditional, stack) {
        Ok(true) => call_bound(story, call, stack, output, desk),
        Ok(false) => Ok(Transfer::Next),
        Err(fault) => Err(fault),
    }
}

// The same once no condition keeps from it.
fn call_bound<'a, P: PureFn, T: TurnFn, W: Watcher>(
    story: &Story,
    call: &External<'_>,
    stack: &mut EvalStack,
    output: &Output,
    desk: &mut Desk<P, T, W>,
) -> Result<Transfer<'a>, Fault>
    requires room { length stack.old.items ≤ stack_spare stack.old }
    ensures call { let s = story_tree story.now in let bound = bound_by P.meaning desk.old.functions call.now.name.now in let k = call_of call.now in (evaluating : Bool) (fresh : Option ℕ) (globals : Values)
        → let f = fields evaluating fresh stack.old.items output.now.page globals in
        (es : List Happening) × Grew T.log (log_of W.state) desk.old es desk.new
        × PerformsCall s desk.old.next (binding_asks bound k.arguments f) (rules.call_bound s bound k.name k.arguments f) es (fields evaluating fresh stack.new.items output.now.page globals) result }
    ensures refusals { StepStopsAtRefusal T.refusals desk.old desk.new result }
    ensures watchers { desk.new.watchers ≡ desk.old.watchers }
    ensures mark { stack_stood stack.new ≡ stack_stood stack.old }
{
    let Some(found) = desk.find(call.name) else {
        return fall_back(story, call.name);
    };
    match found.kind {
        FnKind::Turn => call_turn(call, found.place, stack, output, desk),
        FnKind::Pure => ask_pure(call, found.place, stack, desk),
    }
}

// What is not bound is a call of the knot of that name.
fn fall_back<'a>(story: &Story, name: &str) -> Result<Transfer<'a>, Fault>
    ensures { let s = story_tree story.now in (f : Fields) → Performs s false (rules.fall_back s name.now f) f result }
{
    let tree = story.tree();
    let Some(holder) = tree.knot(name) else {
        return Err(Fault::Unbound);
    };
    let place = tree.land(Spot {
        holder,
        index: None,
    });
    Ok(Transfer::Call(CallKind::Function, entering(place)))
}

// The turn function of that name, at this place, is called.
fn call_turn<'a, P, T: TurnFn, W: Watcher>(
    call: &External<'_>,
    place: usize,
    stack: &mut EvalStack,
    output: &Output,
    desk: &mut Desk<P, T, W>,
) -> Result<Transfer<'a>, Fault>
    requires place { StandsAt call.now.name.now place desk.old.functions }
    requires bound { (t : T) × (at call.now.name.now desk.old.functions ≡ Some (bound.Turn t)) }
    requires room { length stack.old.items ≤ stack_spare stack.old }
    ensures call { let k = call_of call.now in let turn = Some turn_function in (s : StoryTree) (evaluating : Bool) (fresh : Option ℕ) (globals : Values)
        → let f = fields evaluating fresh stack.old.items output.now.page globals in
        (es : List Happening) × Grew T.log (log_of W.state) desk.old es desk.new
        × PerformsCall s desk.old.next (binding_asks turn k.arguments f) (rules.call_bound s turn k.name k.arguments f) es (fields evaluating fresh stack.new.items output.now.page globals) result }
    ensures refusals { StepStopsAtRefusal T.refusals desk.old desk.new result }
    ensures watchers { desk.new.watchers ≡ desk.old.watchers }
    ensures mark { stack_stood stack.new ≡ stack_stood stack.old }
{
    if output.in_string() {
        return Err(Fault::UnsafeInString);
    }
    let arguments = lend_arguments(stack, call.arguments)?;
    match desk.call_found(place, call.name, arguments) {
        Ok(given) => answer(stack, call.arguments, given),
        Err(fault) => Err(fault),
    }
}

// The pure function at this place is asked.
fn ask_pure<'a, P: PureFn, T, W>(
    call: &External<'_>,
    place: usize,
    stack: &mut EvalStack,
    desk: &Desk<P, T, W>,
) -> Result<Transfer<'a>, Fault>
    requires bound { (p : P) × (value_at place desk.now.functions ≡ Some (bound.Pure p)) }
    requires room { length stack.old.items ≤ stack_spare stack.old }
    ensures effect { let k = call_of call.now in (p : P) → value_at place desk.now.functions ≡ Some (bound.Pure p) → let pure = Some (pure_function (P.meaning p)) in
        (s : StoryTree) (evaluating : Bool) (fresh : Option ℕ) (page : Page) (globals : Values) → let f = fields evaluating fresh stack.old.items page globals in
        Performs s (binding_asks pure k.arguments f) (rules.ask_pure (P.meaning p) k.arguments f) (fields evaluating fresh stack.new.items page globals) result }
    ensures mark { stack_stood stack.new ≡ stack_stood stack.old }
{
    let arguments = lend_arguments(stack, call.arguments)?;
    match desk.ask_found(place, arguments) {
        Ok(given) => answer(stack, call.arguments, given),
        Err(fault) => Err(fault),
    }
}

// The arguments are lent: so many values on top. `StackEmpty` where there are not so many, `BadOperands` where one is neither an
// integer nor a boolean nor a text.
fn lend_arguments(stack: &EvalStack, count: usize) -> Result<&[Value], Fault>
    ensures ok { IfOk result (λ values. Ok values.now ≡ lent_arguments count stack.now.items) }
    ensures err { IfErr result (λ fault. Err fault ≡ lent_arguments count stack.now.items) }
{
    let Some(values) = stack.lend(count) else {
        return Err(Fault::StackEmpty);
    };
    if !are_arguments(values) {
        return Err(Fault::BadOperands);
    }
    Ok(values)
}

// What was given is put in the place of the arguments. `TooDeep` for a text over its limit. Only where there are no arguments it may
// be `TooDeep` for a stack that is full, and `OutOfMemory` for a refused request for memory.
fn answer<'a>(stack: &mut EvalStack, count: usize, given: Given) -> Result<Transfer<'a>, Fault>
    requires there { count ≤ length stack.old.items }
    requires room { count ≤ stack_spare stack.old }
    ensures effect { (s : StoryTree) (evaluating : Bool) (fresh : Option ℕ) (page : Page) (globals : Values) (arguments left : List Data) → rules.arguments_on count stack.old.items ≡ Some (arguments, left)
        → let f = fields evaluating fresh left page globals in
        Performs s (given_asks arguments f (Some given)) (rules.answering (Some given) f) (fields evaluating fresh stack.new.items page globals) result }
    ensures mark { stack_stood stack.new ≡ stack_stood stack.old }
{
    if !fits(&given) {
        return Err(Fault::TooDeep);
    }
    moving(put_over(stack, count, value_given(given)))
}

/// Whether a call calls a turn function where it is performed.
pub fn would_call<P: PureFn, T, W>(
    call: &External<'_>,
    stack: &EvalStack,
    output: &Output,
    desk: &Desk<P, T, W>,
) -> bool
    ensures { let b = bound_by P.meaning desk.now.functions in let k = call_of call.now in (s : StoryTree) (evaluating : Bool) (fresh : Option ℕ) (globals : Values)
        → result ≡ is_asking (rules.call_external s b k.name k.arguments k.conditional (fields evaluating fresh stack.now.items output.now.page globals)) }
{
    let Some(FnKind::Turn) = desk.kind(call.name) else {
        return false;
    };
    if output.in_string() {
        return false;
    }
    let Some(values) = stack.lend(stack.len()) else {
        return false;
    };
    if !call.conditional {
        return takes(values, call.arguments);
    }
    match values.split_last() {
        Some((condition, left)) => is_wanted_by(condition) && takes(left, call.arguments),
        None => false,
    }
}

// Whether a condition is true, and no fault.
fn is_wanted_by(condition: &Value) -> bool
    ensures { result ≡ is_true_of (truth.is_true condition.now) }
{
    match is_true(condition) {
        Ok(wanted) => wanted,
        Err(_) => false,
    }
}

// Whether so many values on top are arguments.
fn takes(values: &[Value], count: usize) -> bool
    ensures { result ≡ takes_arguments (rules.arguments_on count values.now) }
{
    let Some(below) = values.len().checked_sub(count) else {
        return false;
    };
    are_arguments(&values[below..])
}

// Whether values are all integers, booleans and texts.
fn are_arguments(values: &[Value]) -> bool
    ensures { result ≡ list_all rules.is_argument values.now }
{
    values.iter().all(|value| is_argument(value))
}

fn is_argument(value: &Value) -> bool
    ensures { result ≡ rules.is_argument value.now }
{
    match value {
        Value::Int(_) | Value::Bool(_) | Value::Text(_) => true,
        Value::Target(_) | Value::Pointer(..) | Value::Void | Value::Tag(_) => false,
    }
}

// Whether what is given is no text over its limit; an integer has 32 bits by its type.
fn fits(given: &Given) -> bool
    ensures { result ≡ fits_given given.now }
{
    match given {
        Given::Int(number) => {
            // No effect at run time: a proof reads from it that the number has 32 bits.
            let _number = *number;
            true
        }
        Given::Bool(_) | Given::Void => true,
        Given::Text(text) => text.get().as_str().len() <= MAX_TEXT,
    }
}
