//! The evaluation stack.

ghost use Rattle.std.specs.Prelude.{◌≡◌, ◌<◌, ◌≤◌, vec_len, vec_capacity, ◌↔◌, ◌⊎◌, [], ◌∷◌, ◌++◌, ◌+◌, true, false, Some, None, is_some, length, option_map, reverse, slice_get, take, ◌-◌, OnOk, OnErr, IfOk, IfErr, IfSome, MatchResult};
ghost use Rattle.ink_model.specs.Memory.Asks.{operator_asks};
ghost use Rattle.ink_model.specs.Memory.Refusals.{Leaves, holds_memory};
ghost use Rattle.ink_model.specs.Values.Operator as rules;
ghost use Rattle.ink_model.specs.Values.Stack.{applied, popped, taken};
ghost use Rattle.ink_model.specs.Run.Step.Host.{arguments_on};
ghost use Rattle.ink_model.specs.Memory.Variables.{on_popped};
ghost use Rattle.ink_trail.specs.Undo.{KeepsTrail, Trails, TrailsOrKeeps, spare};
ghost use Rattle.ink_model.specs.declared.operator.Op.{Op as Operator};
ghost use Rattle.ink_model.specs.declared.value.Value.{Value as Data};
ghost use Rattle.ink_value.specs.Stack.{with_top};
ghost use Rattle.ink_value.specs.Undo.{stack_back, stack_spare, stack_stood};

use crate::numbers::of_numbers;
use crate::operate::{apply, number_of};
use crate::undo::{StackPair, drop_last, drop_noted, replace_noted};
use ink_model::{Fault, MAX_STACK, Op, Value};
use ink_trail::Trail;
use std::alloc::{AllocError, Global};
use std::marker::Model;
use std::mem::forget;

/// The values that are being evaluated, and while a mark stands the trail of what they were. A contract sees the values from the
/// bottom up.
#[derive(Drop)]
pub struct EvalStack {
    pub(crate) items: Vec<Value>,
    pub(crate) trail: Trail<StackPair>,
}

impl Model for EvalStack {
    ghost use Rattle.std.specs.Prelude.{◌≤◌, vec_capacity, vec_len};
    ghost use Rattle.ink_model.specs.declared.limits.TheConstants.{MAX_STACK};
    ghost use Rattle.ink_value.specs.Stack.{Stack};
    ghost use Rattle.ink_trail.specs.Undo.{trail_of};
    ghost use Rattle.ink_value.specs.Undo.{StaysHeld};

    ghost Value = { Stack };

    ghost view = { λ s. record { items = s.items.items; trail = s.trail } };

    ghost invariant = { λ s. (vec_len s.items ≤ MAX_STACK) × StaysHeld (vec_capacity s.items) (trail_of s.trail.undo) s.items.items };
}

#[tactic(auto, unfolding(crate::specs::Undo::stack_stood, crate::specs::Undo::stack_spare, ink_trail::specs::Undo::stood_at, ink_trail::specs::Undo::spare))]
impl EvalStack {
    /// An empty stack, which takes no memory.
    pub fn new(alloc: Global) -> EvalStack
        ensures items { result.items ≡ [] }
        ensures stood { stack_stood result ≡ None }
    {
        EvalStack {
            items: Vec::new(alloc),
            trail: Trail::new(alloc),
        }
    }

    /// Puts a value on top, which is one change of a cell. `TooDeep` where 10,000 values are there; `OutOfMemory` for a refused
    /// request for memory. On an error nothing has changed.
    #[inline(always)]
    pub fn push(&mut self, value: Value) -> Result<(), Fault>
        ensures ok { OnOk result (self.new.items ≡ self.old.items ++ value ∷ []) }
        ensures err { OnErr result (self.new.items ≡ self.old.items) }
        ensures too_deep { (result ≡ Err Fault.TooDeep) ↔ (length self.old.items ≡ MAX_STACK) }
        ensures faults { IfErr result (λ f. (f ≡ Fault.TooDeep) ⊎ (f ≡ Fault.OutOfMemory)) }
        ensures within { length self.new.items ≤ MAX_STACK }
        ensures trail { TrailsOrKeeps stack_back 1 self.old.items self.old.trail self.new.items self.new.trail result }
        ensures stood { stack_stood self.new ≡ stack_stood self.old }
        ensures spare { stack_spare self.old ≤ stack_spare self.new + 1 }
    {
        let len = self.items.len();
        if self.trail.is_marked() || len >= MAX_STACK || len >= self.items.capacity() {
            return self.push_checked(value);
        }
        self.items.push_reserved(value);
        Ok(())
    }

    // As `push`, while a mark stands, and where there is no place for the value yet.
    #[cold]
    #[inline(never)]
    fn push_checked(&mut self, value: Value) -> Result<(), Fault>
        ensures ok { OnOk result (self.new.items ≡ self.old.items ++ value ∷ []) }
        ensures err { OnErr result (self.new.items ≡ self.old.items) }
        ensures too_deep { (result ≡ Err Fault.TooDeep) ↔ (length self.old.items ≡ MAX_STACK) }
        ensures faults { IfErr result (λ f. (f ≡ Fault.TooDeep) ⊎ (f ≡ Fault.OutOfMemory)) }
        ensures within { length self.new.items ≤ MAX_STACK }
        ensures trail { TrailsOrKeeps stack_back 1 self.old.items self.old.trail self.new.items self.new.trail result }
        ensures stood { stack_stood self.new ≡ stack_stood self.old }
        ensures spare { stack_spare self.old ≤ stack_spare self.new + 1 }
    {
        make_ready(&mut self.items, &mut self.trail)?;
        self.trail.note(StackPair::Pushed, 1);
        self.items.push_reserved(value);
        Ok(())
    }

    /// Takes the value on top, which is one change of a cell. `StackEmpty` where there is none. While a mark stands it hands out a
    /// copy, and then alone `OutOfMemory` is for a count of owners that is full, where the value shares something, or for a refused
    /// request for memory, where there is no room for one change more. On an error nothing has changed.
    pub fn pop(&mut self) -> Result<Value, Fault>
        ensures items { IfOk result (λ value. self.old.items ≡ self.new.items ++ value ∷ []) }
        ensures err { OnErr result (self.new.items ≡ self.old.items) }
        ensures empty { (result ≡ Err Fault.StackEmpty) ↔ (self.old.items ≡ []) }
        ensures faults { IfErr result (λ f. (f ≡ Fault.StackEmpty) ⊎ (f ≡ Fault.OutOfMemory)) }
        ensures memory { result ≡ Err Fault.OutOfMemory → is_some (stack_stood self.old) ≡ true }
        ensures asks { result ≡ Err Fault.OutOfMemory → (on_popped (popped self.old.items) holds_memory ≡ true) ⊎ (stack_spare self.old < 1) }
        ensures trail { TrailsOrKeeps stack_back 1 self.old.items self.old.trail self.new.items self.new.trail result }
        ensures stood { stack_stood self.new ≡ stack_stood self.old }
        ensures spare { stack_spare self.old ≤ stack_spare self.new + 1 }
    {
        if self.trail.is_marked() {
            return self.pop_marked();
        }
        self.items.pop().ok_or(Fault::StackEmpty)
    }

    // As `pop`, while a mark stands.
    #[cold]
    #[inline(never)]
    fn pop_marked(&mut self) -> Result<Value, Fault>
        ensures items { IfOk result (λ value. self.old.items ≡ self.new.items ++ value ∷ []) }
        ensures err { OnErr result (self.new.items ≡ self.old.items) }
        ensures empty { (result ≡ Err Fault.StackEmpty) ↔ (self.old.items ≡ []) }
        ensures faults { IfErr result (λ f. (f ≡ Fault.StackEmpty) ⊎ (f ≡ Fault.OutOfMemory)) }
        ensures memory { result ≡ Err Fault.OutOfMemory → (on_popped (popped self.old.items) holds_memory ≡ true) ⊎ (stack_spare self.old < 1) }
        ensures trail { TrailsOrKeeps stack_back 1 self.old.items self.old.trail self.new.items self.new.trail result }
        ensures stood { stack_stood self.new ≡ stack_stood self.old }
        ensures spare { stack_spare self.old ≤ stack_spare self.new + 1 }
    {
        let Some(value) = self.items.pop() else {
            return Err(Fault::StackEmpty);
        };
        match copied(&value, *self.items.allocator(), &mut self.trail) {
            Ok(copy) => {
                self.trail.note(StackPair::Popped(value), 1);
                Ok(copy)
            }
            Err(_) => {
                self.items.push_reserved(value);
                Err(Fault::OutOfMemory)
            }
        }
    }

    /// Puts a value in the place of the one on top, which is one change of a cell, without memory. Where there is none nothing has
    /// changed, and the value is handed back.
    pub fn replace_top(&mut self, value: Value) -> Result<(), Value>
        requires room { 1 ≤ stack_spare self.old }
        ensures ok { OnOk result (Some self.new.items ≡ with_top value (popped self.old.items)) }
        ensures err { OnErr result (popped self.old.items ≡ None) }
        ensures kept { OnErr result (self.new.items ≡ self.old.items) }
        ensures handed_back { IfErr result (λ handed_back. handed_back ≡ value) }
        ensures within { length self.new.items ≤ MAX_STACK }
        ensures trail { TrailsOrKeeps stack_back 1 self.old.items self.old.trail self.new.items self.new.trail result }
        ensures stood { stack_stood self.new ≡ stack_stood self.old }
        ensures spare { stack_spare self.old ≤ stack_spare self.new + 1 }
    {
        if self.trail.is_marked() {
            return self.replace_marked(value);
        }
        if self.items.is_empty() {
            return Err(value);
        }
        self.set_top(value);
        Ok(())
    }

    // As `replace_top`, while a mark stands.
    #[cold]
    #[inline(never)]
    fn replace_marked(&mut self, value: Value) -> Result<(), Value>
        requires room { 1 ≤ stack_spare self.old }
        ensures ok { OnOk result (Some self.new.items ≡ with_top value (popped self.old.items)) }
        ensures err { OnErr result (popped self.old.items ≡ None) }
        ensures kept { OnErr result (self.new.items ≡ self.old.items) }
        ensures handed_back { IfErr result (λ handed_back. handed_back ≡ value) }
        ensures within { length self.new.items ≤ MAX_STACK }
        ensures trail { TrailsOrKeeps stack_back 1 self.old.items self.old.trail self.new.items self.new.trail result }
        ensures stood { stack_stood self.new ≡ stack_stood self.old }
        ensures spare { stack_spare self.old ≤ stack_spare self.new + 1 }
    {
        if self.items.is_empty() {
            return Err(value);
        }
        replace_noted(&mut self.items, &mut self.trail, value);
        Ok(())
    }

    /// The value that lies so deep: 0 is the top. `StackEmpty` where there is none so deep.
    pub fn peek(&self, depth: usize) -> Result<&Value, Fault>
        ensures { MatchResult result (λ value. slice_get (reverse self.now.items) depth ≡ Some value.now) (λ f. (f ≡ Fault.StackEmpty) × (length self.now.items ≤ depth)) }
    {
        if depth >= self.items.len() {
            return Err(Fault::StackEmpty);
        }
        Ok(&self.items[self.items.len() - 1 - depth])
    }

    /// The values on top, so many of them, in the order in which they were pushed; none where there are not so many. Takes no
    /// memory.
    pub fn lend(&self, count: usize) -> Option<&[Value]>
        ensures { option_map (λ values. values.now) result ≡ option_map (λ arguments. arguments.0) (arguments_on count self.now.items) }
    {
        let below = self.items.len().checked_sub(count)?;
        Some(&self.items[below..])
    }

    /// Takes away the values on top, so many of them, each of which is a change of a cell. Takes no memory.
    pub fn drop_top(&mut self, count: usize)
        requires there { count ≤ length self.old.items }
        requires room { count ≤ stack_spare self.old }
        ensures items { option_map (λ arguments. arguments.1) (arguments_on count self.old.items) ≡ Some self.new.items }
        ensures trail { Trails stack_back count self.old.items self.old.trail self.new.items self.new.trail }
        ensures stood { stack_stood self.new ≡ stack_stood self.old }
        ensures spare { stack_spare self.old ≤ stack_spare self.new + count }
    {
        if self.trail.is_marked() {
            drop_noted(&mut self.items, &mut self.trail, count);
        } else if count == 1 {
            self.drop_one();
        } else {
            self.items.truncate(self.items.len() - count);
        }
    }

    /// Puts what an operator makes of the values on top in their place (docs/VALUES.md, "Operators"), which is two changes of
    /// cells. `StackEmpty` where there are not as many as it takes, else the faults of `apply`: `OutOfMemory` only where it makes
    /// a text of them, and for a refused request for memory while a mark stands. On an error nothing has changed.
    pub fn apply_top(&mut self, alloc: Global, operator: Op) -> Result<(), Fault>
        ensures stack { Leaves (applied operator self.old.items) self.old.items self.new.items result }
        ensures memory { result ≡ Err Fault.OutOfMemory → (operator_asks operator (taken (rules.takes operator) self.old.items []) ≡ true) ⊎ (stack_spare self.old < 2) }
        ensures trail { TrailsOrKeeps stack_back 2 self.old.items self.old.trail self.new.items self.new.trail result }
        ensures stood { stack_stood self.new ≡ stack_stood self.old }
        ensures spare { stack_spare self.old ≤ stack_spare self.new + 2 }
    {
        if let Some((left, right)) = self.numbers_on_top() {
            if let Ok(value) = of_numbers(operator, left, right) {
                self.leave_for_numbers(value);
                return Ok(());
            }
        }
        self.apply_values(alloc, operator)
    }

    // What the two values on top count for, where each is an integer or a boolean; none while a mark stands.
    #[inline(always)]
    fn numbers_on_top(&self) -> Option<(i32, i32)>
        ensures numbers { IfSome result (λ numbers. (operator : Operator) (made : Data) → rules.of_numbers operator numbers.0 numbers.1 ≡ Ok made
            → applied operator self.now.items ≡ Ok (take (length self.now.items - 2) self.now.items ++ made ∷ [])) }
        ensures there { IfSome result (λ _. 2 ≤ length self.now.items) }
        ensures unmarked { IfSome result (λ _. is_some self.now.trail.undo ≡ false) }
    {
        if self.trail.is_marked() {
            return None;
        }
        let below = self.items.len().checked_sub(2)?;
        match &self.items[below..] {
            [Value::Int(left), Value::Int(right)] => Some((*left, *right)),
            [lower, upper] => {
                let left = number_of(lower)?;
                let right = number_of(upper)?;
                Some((left, right))
            }
            _ => None,
        }
    }

    // As `apply_top`, for values of any kinds, and while a mark stands.
    #[inline(never)]
    fn apply_values(&mut self, alloc: Global, operator: Op) -> Result<(), Fault>
        ensures stack { Leaves (applied operator self.old.items) self.old.items self.new.items result }
        ensures memory { result ≡ Err Fault.OutOfMemory → (operator_asks operator (taken (rules.takes operator) self.old.items []) ≡ true) ⊎ (stack_spare self.old < 2) }
        ensures trail { TrailsOrKeeps stack_back 2 self.old.items self.old.trail self.new.items self.new.trail result }
        ensures stood { stack_stood self.new ≡ stack_stood self.old }
        ensures spare { stack_spare self.old ≤ stack_spare self.new + 2 }
    {
        let Some(below) = self.items.len().checked_sub(takes(operator)) else {
            return Err(Fault::StackEmpty);
        };
        match apply(alloc, operator, &self.items[below..]) {
            Ok(value) => {
                if self.trail.is_marked() {
                    return match self.leave_marked(below, value) {
                        Ok(()) => Ok(()),
                        Err(_) => Err(Fault::OutOfMemory),
                    };
                }
                self.leave(below, value);
                Ok(())
            }
            Err(fault) => Err(fault),
        }
    }

    // A value stands for the two on top, which are integers or booleans and so need not be dropped, while no mark stands.
    #[inline(always)]
    fn leave_for_numbers(&mut self, value: Value)
        requires there { 2 ≤ length self.old.items }
        requires unmarked { is_some self.old.trail.undo ≡ false }
        ensures items { self.new.items ≡ take (length self.old.items - 2) self.old.items ++ value ∷ [] }
        ensures trail { self.new.trail ≡ self.old.trail }
    {
        let (right, left) = (self.items.pop(), self.items.pop());
        forget(right);
        forget(left);
        self.items.push_reserved(value);
    }

    // A value stands for the one or two on top, from an index on, while no mark stands.
    #[inline(always)]
    fn leave(&mut self, below: usize, value: Value)
        requires there { below < length self.old.items }
        requires few { length self.old.items ≤ below + 2 }
        requires unmarked { is_some self.old.trail.undo ≡ false }
        ensures items { self.new.items ≡ take below self.old.items ++ value ∷ [] }
        ensures trail { self.new.trail ≡ self.old.trail }
    {
        if self.len() - below > 1 {
            self.drop_one();
            self.set_top(value);
        } else {
            self.set_top(value);
        }
    }

    // The value on top goes, while no mark stands.
    #[inline(always)]
    fn drop_one(&mut self)
        requires there { 0 < length self.old.items }
        requires unmarked { is_some self.old.trail.undo ≡ false }
        ensures items { self.new.items ≡ take (length self.old.items - 1) self.old.items }
        ensures trail { self.new.trail ≡ self.old.trail }
    {
        drop_last(&mut self.items);
    }

    // Another value stands on top, while no mark stands.
    #[inline(always)]
    fn set_top(&mut self, value: Value)
        requires there { 0 < length self.old.items }
        requires unmarked { is_some self.old.trail.undo ≡ false }
        ensures items { self.new.items ≡ take (length self.old.items - 1) self.old.items ++ value ∷ [] }
        ensures trail { self.new.trail ≡ self.old.trail }
    {
        let last = self.items.len() - 1;
        self.items[last] = value;
    }

    // As `leave`, while a mark stands. The one error is a refused request for memory, and leaves all as it was.
    #[cold]
    #[inline(never)]
    fn leave_marked(&mut self, below: usize, value: Value) -> Result<(), AllocError>
        requires there { below < length self.old.items }
        requires few { length self.old.items ≤ below + 2 }
        ensures items { OnOk result (self.new.items ≡ take below self.old.items ++ value ∷ []) }
        ensures memory { OnErr result (stack_spare self.old < 2) }
        ensures trail { TrailsOrKeeps stack_back 2 self.old.items self.old.trail self.new.items self.new.trail result }
        ensures stood { stack_stood self.new ≡ stack_stood self.old }
        ensures spare { stack_spare self.old ≤ stack_spare self.new + 2 }
    {
        self.trail.ready(2)?;
        let more = self.items.len() - below - 1;
        drop_noted(&mut self.items, &mut self.trail, more);
        replace_noted(&mut self.items, &mut self.trail, value);
        Ok(())
    }

    /// How many values there are: 10,000 at the most.
    pub fn len(&self) -> usize
        ensures len { result ≡ length self.now.items }
        ensures most { result ≤ MAX_STACK }
    {
        self.items.len()
    }
}

/// A copy of a value, and room for one change more. An error is for a count of owners that is full, or for a refused request for
/// memory.
#[inline(always)]
fn copied(value: &Value, alloc: Global, trail: &mut Trail<StackPair>) -> Result<Value, AllocError>
    ensures copy { IfOk result (λ copy. copy ≡ value.now) }
    ensures kept { KeepsTrail trail.old trail.new }
    ensures room { OnOk result (1 ≤ spare trail.new) }
    ensures memory { OnErr result ((holds_memory value.now ≡ true) ⊎ (spare trail.old < 1)) }
{
    trail.ready(1)?;
    value.clone_in(alloc)
}

/// Makes room for one more value, and for one change more. `TooDeep` where 10,000 values are there; `OutOfMemory` for a refused
/// request for memory.
#[inline(always)]
fn make_ready(items: &mut Vec<Value>, trail: &mut Trail<StackPair>) -> Result<(), Fault>
    ensures items { items.new.items ≡ items.old.items }
    ensures more { vec_capacity items.old ≤ vec_capacity items.new }
    ensures kept { KeepsTrail trail.old trail.new }
    ensures few { OnOk result (vec_len items.old < MAX_STACK) }
    ensures room { OnOk result (vec_len items.new < vec_capacity items.new) }
    ensures spare { OnOk result (1 ≤ spare trail.new) }
    ensures too_deep { (result ≡ Err Fault.TooDeep) ↔ (MAX_STACK ≤ vec_len items.old) }
    ensures faults { IfErr result (λ f. (f ≡ Fault.TooDeep) ⊎ (f ≡ Fault.OutOfMemory)) }
{
    if items.len() >= MAX_STACK {
        return Err(Fault::TooDeep);
    }
    make_room(items)?;
    trail.ready(1)?;
    Ok(())
}

/// Makes room for one more value. `OutOfMemory` for a refused request for memory.
#[inline(always)]
fn make_room(items: &mut Vec<Value>) -> Result<(), Fault>
    ensures items { items.new.items ≡ items.old.items }
    ensures len { vec_len items.new ≡ vec_len items.old }
    ensures more { vec_capacity items.old ≤ vec_capacity items.new }
    ensures room { OnOk result (vec_len items.new < vec_capacity items.new) }
    ensures fault { IfErr result (λ f. f ≡ Fault.OutOfMemory) }
{
    if items.len() == items.capacity() {
        return grow(items);
    }
    Ok(())
}

#[cold]
#[inline(never)]
fn grow(items: &mut Vec<Value>) -> Result<(), Fault>
    ensures items { items.new.items ≡ items.old.items }
    ensures len { vec_len items.new ≡ vec_len items.old }
    ensures more { vec_capacity items.old ≤ vec_capacity items.new }
    ensures room { OnOk result (vec_len items.new < vec_capacity items.new) }
    ensures fault { IfErr result (λ f. f ≡ Fault.OutOfMemory) }
{
    items.reserve(1)?;
    Ok(())
}

/// How many values an operator takes.
#[inline(always)]
fn takes(operator: Op) -> usize
    ensures { result ≡ rules.takes operator }
{
    match operator {
        Op::Negate | Op::Not | Op::Floor | Op::Ceiling | Op::Int => 1,
        _ => 2,
    }
}
