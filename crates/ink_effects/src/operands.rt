//! Values at the top of the evaluation stack.

ghost use Rattle.ink_value.specs.Undo.{stack_spare, stack_stood};
ghost use Rattle.std.specs.Prelude.{◌≡◌, ◌≤◌, ◌<◌, ◌⊎◌, ◌&&◌, List, Some, Err, IfErr, OnOk, length, nat_lt, not, true, false, ◌+◌, is_some, IfOk, OnErr, option_map};
ghost use Rattle.ink_model.specs.Memory.Asks.{has_room};
ghost use Rattle.ink_model.specs.Choices.Making.{has_any};
ghost use Rattle.ink_model.specs.Memory.Refusals.{Leaves, holds_memory};
ghost use Rattle.ink_model.specs.Memory.Variables.{on_popped};
ghost use Rattle.ink_model.specs.Values.Stack.{popped, pushed};
ghost use Rattle.ink_model.specs.Run.Step.Host.{arguments_on};
ghost use Rattle.ink_model.specs.declared.limits.TheConstants.{MAX_STACK};
ghost use Rattle.ink_model.specs.declared.value.Value.{Value as Data};
ghost use Rattle.ink_effects.specs.Stacks.{Pops, CopiesTop};

use ink_model::{Fault, MAX_STACK, Value};
use ink_value::EvalStack;
use std::alloc::Global;

/// Puts a value on top. `TooDeep` where there is no room, which is found before memory is asked for, `OutOfMemory` for a refused
/// request for memory; nothing has changed then.
#[inline(always)]
pub(crate) fn push(stack: &mut EvalStack, value: Value) -> Result<(), Fault>
    ensures stack { Leaves (pushed value stack.old.items) stack.old.items stack.new.items result }
    ensures memory { result ≡ Err Fault.OutOfMemory → has_room stack.old.items ≡ true }
    ensures mark { stack_stood stack.new ≡ stack_stood stack.old }
{
    stack.push(value)
}

/// `TooDeep` where there is no room for one more value on top. Takes no memory.
#[inline(always)]
pub(crate) fn check_room(stack: &EvalStack) -> Result<(), Fault>
    ensures room { OnOk result (has_room stack.now.items ≡ true) }
    ensures full { IfErr result (λ f. (f ≡ Fault.TooDeep) × (has_room stack.now.items ≡ false)) }
{
    if stack.len() < MAX_STACK {
        Ok(())
    } else {
        Err(Fault::TooDeep)
    }
}

/// Puts a value in the place of those on top, so many of them. Where it takes the place of none it is put on top as `push` does;
/// else there is no error.
pub(crate) fn put_over(stack: &mut EvalStack, count: usize, value: Value) -> Result<(), Fault>
    requires there { count ≤ length stack.old.items }
    requires room { count ≤ stack_spare stack.old }
    ensures stack { (over left : List Data) → arguments_on count stack.old.items ≡ Some (over, left) → Leaves (pushed value left) left stack.new.items result }
    ensures memory { (over left : List Data) → arguments_on count stack.old.items ≡ Some (over, left) → result ≡ Err Fault.OutOfMemory → (not (has_any over) && nat_lt (length left) MAX_STACK) ≡ true }
    ensures mark { stack_stood stack.new ≡ stack_stood stack.old }
{
    let Some(below) = count.checked_sub(1) else {
        return stack.push(value);
    };
    stack.drop_top(below);
    match stack.replace_top(value) {
        Ok(()) => Ok(()),
        Err(_) => unreachable!(),
    }
}

/// Takes the value on top, none where the stack is empty. The one error is `OutOfMemory`, while a mark stands: for a count of
/// owners that is full, where the value shares something, or for a refused request for memory, where there is no room for one
/// change more. On an error nothing has changed.
pub fn take(stack: &mut EvalStack) -> Result<Option<Value>, Fault>
    ensures pops { IfOk result (Pops stack.old.items stack.new.items) }
    ensures fault { IfErr result (λ f. f ≡ Fault.OutOfMemory) }
    ensures kept { OnErr result (stack.new.items ≡ stack.old.items) }
    ensures memory { OnErr result (is_some (stack_stood stack.old) ≡ true) }
    ensures asks { OnErr result ((on_popped (popped stack.old.items) holds_memory ≡ true) ⊎ (stack_spare stack.old < 1)) }
    ensures mark { stack_stood stack.new ≡ stack_stood stack.old }
{
    match stack.pop() {
        Ok(value) => Ok(Some(value)),
        Err(Fault::StackEmpty) => Ok(None),
        Err(_) => Err(Fault::OutOfMemory),
    }
}

/// The value on top, none where the stack is empty. Takes no memory.
#[inline(always)]
pub fn top(stack: &EvalStack) -> Option<&Value>
    ensures { option_map (λ value. value.now) result ≡ option_map (λ r. r.0) (popped stack.now.items) }
{
    match stack.peek(0) {
        Ok(value) => Some(value),
        Err(_) => None,
    }
}

/// The value on top, which there is, goes. Takes no memory.
#[inline(always)]
pub(crate) fn drop_top(stack: &mut EvalStack)
    requires there { is_some (popped stack.old.items) ≡ true }
    requires room { 1 ≤ stack_spare stack.old }
    ensures dropped { option_map (λ r. r.1) (popped stack.old.items) ≡ Some stack.new.items }
    ensures mark { stack_stood stack.new ≡ stack_stood stack.old }
    ensures spare { stack_spare stack.old ≤ stack_spare stack.new + 1 }
{
    stack.drop_top(1);
}

/// A copy of the value on top, to be pushed. `StackEmpty` where there is none, `TooDeep` where there is no room for one more;
/// `OutOfMemory` for a refused request for memory.
pub(crate) fn top_copy(alloc: Global, stack: &EvalStack) -> Result<Value, Fault>
    ensures { CopiesTop (has_room stack.now.items) (popped stack.now.items) result }
{
    let value = stack.peek(0)?;
    check_room(stack)?;
    Ok(value.clone_in(alloc)?)
}
