//! Variables are read, declared and assigned (docs/VARIABLES.md).

ghost use Rattle.ink_stack.specs.Undo.{threads_spare, threads_stood};
ghost use Rattle.ink_value.specs.Undo.{stack_stood};
ghost use Rattle.std.specs.Prelude.{◌≡◌, ◌≤◌, ◌&&◌, ℕ, Bool, true, Option, Err, OnOk, is_ok, ◌+◌, ◌||◌, is_some};
ghost use Rattle.ink_model.specs.Memory.Asks.{has_room};
ghost use Rattle.ink_model.specs.Run.Effect.{Fields, Stores};
ghost use Rattle.ink_model.specs.Flow.Frames.{map_thread};
ghost use Rattle.ink_model.specs.Text.Page.{Page};
ghost use Rattle.ink_model.specs.Memory.Refusals.{Leaves};
ghost use Rattle.ink_model.specs.Values.Stack.{popped, pushed};
ghost use Rattle.ink_model.specs.Run.Step.Variables as effects;
ghost use Rattle.ink_model.specs.Variables.Store.{Values};
ghost use Rattle.ink_model.specs.Flow.Threads.{frame_count};
ghost use Rattle.ink_model.specs.Story.Tree.{StoryTree};
ghost use Rattle.ink_model.specs.Memory.Variables.{assign_asks, declare_asks, on_popped};
ghost use Rattle.ink_model.specs.Variables.Access as rules;
ghost use Rattle.ink_effects.specs.Performs.{Changes, KeepsThreads, Performs, fields, leading};
ghost use Rattle.ink_effects.specs.Standing.{Rest, seen_by};
ghost use Rattle.ink_tree.specs.Nodes.{place_of};
ghost use Rattle.ink_vars.specs.Outcomes.{with_variable, writing_asks};

use crate::operands::{check_room, push, take};
use crate::transfer::{Assignment, Transfer};
use ink_model::{Fault, Scope, Shared, Text, Value};
use ink_stack::Threads;
use ink_tree::Spot;
use ink_value::EvalStack;
use ink_vars::{Globals, Variable, assigned, declared, kept, look, point};
use std::alloc::Global;

/// What a variable is read as is pushed; its name may have a number. `BadPointer` where the pointer that it holds leads nowhere.
pub(crate) fn push_variable(
    alloc: Global,
    stack: &mut EvalStack,
    globals: &Globals,
    threads: &Threads<Spot>,
    name: &Shared<Text>,
    number: Option<usize>,
) -> Result<(), Fault>
    ensures effect { (s : StoryTree) (rest : Rest) (evaluating : Bool) (fresh : Option ℕ) (page : Page)
        → let seen = seen_by s threads.now.threads rest in Changes (is_ok (rules.read globals.now.rows seen.thread name.now) && has_room stack.old.items)
        (effects.push_variable name.now seen (fields evaluating fresh stack.old.items page globals.now.rows)) (fields evaluating fresh stack.new.items page globals.now.rows) result }
    ensures mark { stack_stood stack.new ≡ stack_stood stack.old }
{
    match look(globals, threads, name.as_str(), number) {
        Ok(Some(value)) => push_copy(alloc, stack, value),
        Ok(None) => push(stack, Value::Int(0)),
        Err(fault) => Err(fault),
    }
}

/// A copy of a value is pushed. `TooDeep` where there is no room, which is found before memory is asked for. Most values are numbers,
/// which share nothing.
#[inline(always)]
fn push_copy(alloc: Global, stack: &mut EvalStack, value: &Value) -> Result<(), Fault>
    ensures stack { Leaves (pushed value.now stack.old.items) stack.old.items stack.new.items result }
    ensures memory { result ≡ Err Fault.OutOfMemory → has_room stack.old.items ≡ true }
    ensures mark { stack_stood stack.new ≡ stack_stood stack.old }
{
    match value {
        Value::Int(number) => push(stack, Value::Int(*number)),
        _ => push_shared(alloc, stack, value),
    }
}

// The same of any value.
#[inline(never)]
fn push_shared(alloc: Global, stack: &mut EvalStack, value: &Value) -> Result<(), Fault>
    ensures stack { Leaves (pushed value.now stack.old.items) stack.old.items stack.new.items result }
    ensures memory { result ≡ Err Fault.OutOfMemory → has_room stack.old.items ≡ true }
    ensures mark { stack_stood stack.new ≡ stack_stood stack.old }
{
    check_room(stack)?;
    let copy = value.clone_in(alloc)?;
    push(stack, copy)
}

/// A pointer is pushed in evaluation mode; where its frame is not known, that is found now. Outside evaluation mode nothing is
/// done.
#[inline(never)]
pub(crate) fn push_pointer(
    stack: &mut EvalStack,
    threads: &Threads<Spot>,
    evaluating: bool,
    name: &Shared<Text>,
    frame: i32,
) -> Result<(), Fault>
    ensures effect { (s : StoryTree) (rest : Rest) (fresh : Option ℕ) (page : Page) (globals : Values)
        → Changes (evaluating && has_room stack.old.items) (effects.push_pointer name.now frame (seen_by s threads.now.threads rest) (fields evaluating fresh stack.old.items page globals))
        (fields evaluating fresh stack.new.items page globals) result }
    ensures mark { stack_stood stack.new ≡ stack_stood stack.old }
{
    if !evaluating {
        return Ok(());
    }
    check_room(stack)?;
    let pointer = point(threads, frame, name)?;
    push(stack, pointer)
}

/// What is popped becomes the value of a variable in a scope, which need not be there. `StackEmpty` where nothing is there to be
/// popped, `BadPointer` for a pointer whose chain is too long.
pub(crate) fn declare<'a>(
    stack: &mut EvalStack,
    globals: &Globals,
    threads: &mut Threads<Spot>,
    scope: Scope,
    name: &'a Shared<Text>,
    number: Option<usize>,
    transfer: &mut Transfer<'a>,
) -> Result<(), Fault>
    requires on { transfer.old ≡ Transfer.Next }
    requires room { 1 ≤ threads_spare threads.old }
    ensures effect { (s : StoryTree) (rest : Rest) (evaluating : Bool) (fresh : Option ℕ) (page : Page)
        → let seen = seen_by s threads.old.threads rest in Performs s (is_some (stack_stood stack.old) || on_popped (popped stack.old.items) (declare_asks globals.now.rows seen.thread scope name.now))
        (effects.declare scope name.now seen (fields evaluating fresh stack.old.items page globals.now.rows)) (fields evaluating fresh stack.new.items page globals.now.rows) (leading result transfer.new) }
    ensures threads { (s : StoryTree) (rest : Rest) (evaluating : Bool) (fresh : Option ℕ) (page : Page)
        → OnOk result (KeepsThreads s (effects.declare scope name.now (seen_by s threads.old.threads rest) (fields evaluating fresh stack.old.items page globals.now.rows)) threads.old.threads threads.new.threads) }
    ensures frame { threads.new.threads.thread.frame ≡ record threads.old.threads.thread.frame { temps = threads.new.threads.thread.frame.temps } }
    ensures stack_mark { stack_stood stack.new ≡ stack_stood stack.old }
    ensures threads_mark { threads_stood threads.new ≡ threads_stood threads.old }
    ensures spare { threads_spare threads.old ≤ threads_spare threads.new + 1 }
{
    let Some(value) = take(stack)? else {
        return Err(Fault::StackEmpty);
    };
    match kept(globals, threads, value) {
        Ok(value) => {
            let variable = declared(threads, scope, name, number);
            store(threads, variable, value, transfer)
        }
        Err(fault) => Err(fault),
    }
}

/// What is popped becomes the value of the variable to which a name leads. `StackEmpty` where nothing is there to be popped;
/// `NoTemp` where there is no such variable, `BadPointer` where a pointer leads nowhere.
pub(crate) fn assign<'a>(
    stack: &mut EvalStack,
    globals: &Globals,
    threads: &mut Threads<Spot>,
    name: &'a Shared<Text>,
    number: Option<usize>,
    transfer: &mut Transfer<'a>,
) -> Result<(), Fault>
    requires on { transfer.old ≡ Transfer.Next }
    requires room { 1 ≤ threads_spare threads.old }
    ensures effect { (s : StoryTree) (rest : Rest) (evaluating : Bool) (fresh : Option ℕ) (page : Page)
        → let seen = seen_by s threads.old.threads rest in Performs s (is_some (stack_stood stack.old) || on_popped (popped stack.old.items) (assign_asks globals.now.rows seen.thread name.now))
        (effects.assign name.now seen (fields evaluating fresh stack.old.items page globals.now.rows)) (fields evaluating fresh stack.new.items page globals.now.rows) (leading result transfer.new) }
    ensures threads { (s : StoryTree) (rest : Rest) (evaluating : Bool) (fresh : Option ℕ) (page : Page)
        → OnOk result (KeepsThreads s (effects.assign name.now (seen_by s threads.old.threads rest) (fields evaluating fresh stack.old.items page globals.now.rows)) threads.old.threads threads.new.threads) }
    ensures frame { threads.new.threads.thread.frame ≡ record threads.old.threads.thread.frame { temps = threads.new.threads.thread.frame.temps } }
    ensures stack_mark { stack_stood stack.new ≡ stack_stood stack.old }
    ensures threads_mark { threads_stood threads.new ≡ threads_stood threads.old }
    ensures spare { threads_spare threads.old ≤ threads_spare threads.new + 1 }
{
    let Some(value) = take(stack)? else {
        return Err(Fault::StackEmpty);
    };
    match assigned(globals, threads, name, number) {
        Ok(variable) => store(threads, variable, value, transfer),
        Err(fault) => Err(fault),
    }
}

/// A temporary is set at once; a global is handed on, to be stored after flow has moved. The one error is `OutOfMemory` for a
/// refused request for memory, which is made only for a temporary that is not there, and leaves all as it was.
#[inline(always)]
fn store<'a>(
    threads: &mut Threads<Spot>,
    variable: Variable<'a>,
    value: Value,
    transfer: &mut Transfer<'a>,
) -> Result<(), Fault>
    requires on { transfer.old ≡ Transfer.Next }
    requires within { variable.frame ≤ frame_count threads.old.threads.thread }
    requires room { 1 ≤ threads_spare threads.old }
    ensures effect { (s : StoryTree) (f : Fields) → let w = with_variable f.globals threads.old.threads.thread variable.entry value in
        Performs s (writing_asks f.globals threads.old.threads.thread variable.entry) (Stores (map_thread (place_of s) w.1) (record f { globals = w.0 })) f (leading result transfer.new) }
    ensures threads { (globals : Values) → OnOk result (threads.new.threads ≡ record threads.old.threads { thread = (with_variable globals threads.old.threads.thread variable.entry value).1 }) }
    ensures frame { threads.new.threads.thread.frame ≡ record threads.old.threads.thread.frame { temps = threads.new.threads.thread.frame.temps } }
    ensures mark { threads_stood threads.new ≡ threads_stood threads.old }
    ensures spare { threads_spare threads.old ≤ threads_spare threads.new + 1 }
{
    if variable.frame == 0 {
        *transfer = Transfer::Store(Assignment {
            name: variable.name,
            value,
        });
        return Ok(());
    }
    threads.set_shared_temp(variable.frame, variable.name.text(), value)?;
    Ok(())
}
