//! How changes of the evaluation stack are put back.

ghost use Rattle.std.specs.Prelude.{◌≡◌, ◌≤◌, ◌<◌, ◌-◌, ◌++◌, List, [], ◌∷◌, refl, take, vec_capacity, vec_len};
ghost use Rattle.ink_trail.specs.Undo.{Trails, spare, trail_of};
ghost use Rattle.ink_value.specs.Undo.{Held, StaysHeld, stack_back, stack_spare, stack_stood};
ghost use Rattle.ink_model.specs.declared.value.Value.{Value as Data};

use crate::stack::EvalStack;
use ink_model::Value;
use ink_trail::{Trail, Undo};
use std::alloc::AllocError;

/// A cell of the stack, and what it held: a value was pushed, popped, or replaced on top.
#[derive(Drop)]
pub enum StackPair {
    Pushed,
    Popped(Value),
    Replaced(Value),
}

#[tactic(auto, unfolding(crate::specs::Undo::stack_stood, crate::specs::Undo::stack_spare, ink_trail::specs::Undo::stood_at, ink_trail::specs::Undo::spare))]
impl Undo for EvalStack {
    type Pair = StackPair;

    ghost Cells = { List Data };

    ghost cells = { λ stack. stack.items };

    ghost trail = { λ stack. stack.trail };

    ghost before = { stack_back };

    ghost stood = { stack_stood };

    ghost spare = { stack_spare };

    ghost aside = { λ stack. tt };

    ghost stood_is = { λ stack. unfold stack_stood in refl };

    ghost spare_is = { λ stack. unfold stack_spare in refl };

    #[inline(always)]
    fn trail(&self) -> &Trail<StackPair> {
        &self.trail
    }

    fn undo_last(&mut self) -> bool {
        let Some(pair) = self.trail.take_last() else {
            return false;
        };
        put_one_back(&mut self.items, pair);
        true
    }

    #[inline(always)]
    fn mark(&mut self) {
        self.trail.mark();
    }

    #[inline(always)]
    fn forget(&mut self) {
        self.trail.forget();
    }

    fn make_room(&mut self, count: usize) -> Result<(), AllocError> {
        self.trail.make_room(count)
    }
}

fn put_one_back(items: &mut Vec<Value>, pair: StackPair)
    requires { Held (vec_capacity items.old) (stack_back pair items.old.items) }
    ensures items { items.new.items ≡ stack_back pair items.old.items }
    ensures capacity { vec_capacity items.old ≤ vec_capacity items.new }
{
    match pair {
        StackPair::Pushed => drop_last(items),
        StackPair::Popped(value) => items.push_reserved(value),
        StackPair::Replaced(value) => {
            drop_last(items);
            items.push_reserved(value);
        }
    }
}

/// The value on top goes, where there is one.
#[inline(always)]
pub(crate) fn drop_last(items: &mut Vec<Value>)
    ensures items { items.new.items ≡ take (vec_len items.old - 1) items.old.items }
    ensures capacity { vec_capacity items.new ≡ vec_capacity items.old }
{
    items.pop();
}

/// Takes away the values on top, so many of them, each into the trail.
#[cold]
#[inline(never)]
pub(crate) fn drop_noted(items: &mut Vec<Value>, trail: &mut Trail<StackPair>, count: usize)
    requires there { count ≤ vec_len items.old }
    requires spare { count ≤ spare trail.old }
    requires held { StaysHeld (vec_capacity items.old) (trail_of trail.old.undo) items.old.items }
    ensures items { items.new.items ≡ take (vec_len items.old - count) items.old.items }
    ensures trail { Trails stack_back count items.old.items trail.old items.new.items trail.new }
    ensures held { StaysHeld (vec_capacity items.new) (trail_of trail.new.undo) items.new.items }
{
    for _ in 0..count {
        let Some(value) = items.pop() else {
            return;
        };
        trail.note(StackPair::Popped(value), 1);
    }
}

/// Another value stands on top, and the one before goes into the trail.
#[cold]
#[inline(never)]
pub(crate) fn replace_noted(items: &mut Vec<Value>, trail: &mut Trail<StackPair>, value: Value)
    requires there { 0 < vec_len items.old }
    requires spare { 1 ≤ spare trail.old }
    requires held { StaysHeld (vec_capacity items.old) (trail_of trail.old.undo) items.old.items }
    ensures items { items.new.items ≡ take (vec_len items.old - 1) items.old.items ++ value ∷ [] }
    ensures trail { Trails stack_back 1 items.old.items trail.old items.new.items trail.new }
    ensures held { StaysHeld (vec_capacity items.new) (trail_of trail.new.undo) items.new.items }
{
    let Some(before) = items.pop() else {
        return;
    };
    trail.note(StackPair::Replaced(before), 1);
    items.push_reserved(value);
}
