//! Choices as a save lends and gives them.

ghost use Rattle.std.specs.Prelude.{◌≡◌, Some, None, IfSome, length, nat_le, option_map, if◌then◌else◌};
ghost use Rattle.ink_choice.specs.Undo.{choices_stood};
ghost use Rattle.ink_model.specs.declared.limits.TheConstants.{MAX_CHOICES};

use crate::choice::Choice;
use crate::choices::Choices;
use ink_model::MAX_CHOICES;
use ink_trail::Trail;

#[tactic(auto, unfolding(crate::specs::Undo::choices_stood, ink_trail::specs::Undo::stood_at))]
impl<P: Copy> Choices<P> {
    /// Takes choices, in the order in which they were made; none where there are more than 1,000. Takes no memory.
    pub fn from_vec(items: Vec<Choice<P>>) -> Option<Choices<P>>
        ensures items { option_map (λ made. made.items) result
            ≡ (if nat_le (length items.items) MAX_CHOICES then Some items.items else None) }
        ensures stood { IfSome result (λ made. choices_stood made ≡ None) }
    {
        if items.len() <= MAX_CHOICES {
            let trail = Trail::new(*items.allocator());
            let texts = Vec::new(*items.allocator());
            Some(Choices {
                items,
                settled: 0,
                trail,
                texts,
            })
        } else {
            None
        }
    }

    /// All choices, the invisible ones among them, in the order in which they were made.
    pub fn as_slice(&self) -> &[Choice<P>]
        ensures { result.now ≡ self.now.items }
    {
        self.items.as_slice()
    }
}
