//! The evaluation stack as a save lends and gives it.

ghost use Rattle.std.specs.Prelude.{◌≡◌, Some, None, IfSome, length, nat_le, option_map, if◌then◌else◌};
ghost use Rattle.ink_model.specs.declared.limits.TheConstants.{MAX_STACK};
ghost use Rattle.ink_value.specs.Undo.{stack_stood};

use crate::stack::EvalStack;
use ink_model::{MAX_STACK, Value};
use ink_trail::Trail;

#[tactic(auto, unfolding(crate::specs::Undo::stack_stood, ink_trail::specs::Undo::stood_at))]
impl EvalStack {
    /// Takes values, the bottom one first; none where there are more than 10,000. Takes no memory.
    pub fn from_vec(items: Vec<Value>) -> Option<EvalStack>
        ensures items { option_map (λ made. made.items) result
            ≡ (if nat_le (length items.items) MAX_STACK then Some items.items else None) }
        ensures stood { IfSome result (λ made. stack_stood made ≡ None) }
    {
        if items.len() <= MAX_STACK {
            let trail = Trail::new(*items.allocator());
            Some(EvalStack { items, trail })
        } else {
            None
        }
    }

    /// All values, the bottom one first.
    pub fn as_slice(&self) -> &[Value]
        ensures { result.now ≡ self.now.items }
    {
        self.items.as_slice()
    }
}
