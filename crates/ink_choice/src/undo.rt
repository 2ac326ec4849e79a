//! How changes of choices are put back.

ghost use Rattle.std.specs.Prelude.{◌≡◌, ◌≤◌, ◌<◌, List, insert, refl, vec_capacity, vec_len};
ghost use Rattle.ink_choice.specs.Undo.{Held, choices_back, choices_spare, choices_stood, room_of};
ghost use Rattle.ink_model.specs.Run.Configuration.{ChoiceOf};

use crate::choice::Choice;
use crate::choices::Choices;
use ink_trail::{Trail, Undo};
use std::alloc::AllocError;

/// A cell of the choices, and what it held: one was added, one was taken out at an index, or all went.
#[derive(Drop)]
pub enum ChoicePair<P> {
    Added,
    Taken(usize, Choice<P>),
    Cleared(Vec<Choice<P>>),
}

#[tactic(auto, unfolding(crate::specs::Undo::choices_stood, crate::specs::Undo::choices_spare, ink_trail::specs::Undo::stood_at, ink_trail::specs::Undo::spare))]
impl<P: Copy> Undo for Choices<P> {
    type Pair = ChoicePair<P>;

    ghost Cells = { List (ChoiceOf P) };

    ghost cells = { λ choices. choices.items };

    ghost trail = { λ choices. choices.trail };

    ghost before = { choices_back };

    ghost stood = { choices_stood };

    ghost spare = { choices_spare };

    ghost aside = { λ choices. tt };

    ghost stood_is = { λ choices. unfold choices_stood in refl };

    ghost spare_is = { λ choices. unfold choices_spare in refl };

    #[inline(always)]
    fn trail(&self) -> &Trail<ChoicePair<P>> {
        &self.trail
    }

    fn undo_last(&mut self) -> bool {
        let Some(pair) = self.trail.take_last() else {
            return false;
        };
        put_one_back(&mut self.items, pair);
        self.settled = 0;
        true
    }

    #[inline(always)]
    fn mark(&mut self) {
        self.trail.mark();
    }

    #[inline(always)]
    fn forget(&mut self) {
        self.trail.forget();
    }

    fn make_room(&mut self, count: usize) -> Result<(), AllocError> {
        self.trail.make_room(count)
    }
}

fn put_one_back<P: Copy>(items: &mut Vec<Choice<P>>, pair: ChoicePair<P>)
    requires { Held (room_of pair (vec_capacity items.old)) (choices_back pair items.old.items) }
    ensures items { items.new.items ≡ choices_back pair items.old.items }
    ensures room { room_of pair (vec_capacity items.old) ≤ vec_capacity items.new }
{
    match pair {
        ChoicePair::Added => {
            let _added = items.pop();
        }
        ChoicePair::Taken(index, choice) => {
            if index < items.len() {
                insert_reserved(items, index, choice);
            } else {
                items.push_reserved(choice);
            }
        }
        ChoicePair::Cleared(list) => *items = list,
    }
}

// Puts a choice at an index, where there is room for it.
fn insert_reserved<P: Copy>(items: &mut Vec<Choice<P>>, index: usize, choice: Choice<P>)
    requires there { index ≤ vec_len items.old }
    requires room { vec_len items.old < vec_capacity items.old }
    ensures items { items.new.items ≡ insert items.old.items index choice }
    ensures capacity { vec_capacity items.old ≤ vec_capacity items.new }
{
    let _done = items.insert(index, choice);
}
