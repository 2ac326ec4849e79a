//! The choices that are offered.

ghost use Rattle.std.specs.Prelude.{◌≡◌, ◌≢◌, ◌≤◌, ◌<◌, ◌+◌, ◌∷◌, ◌++◌, ◌||◌, ◌⊎◌, [], None, Some, drop, false, is_some, not, length, map, option_map, remove, slice_get, slice_index_or, string_bytes, string_len, take, true, vec_capacity, IfErr, IfNone, IfOk, OnOk, OnErr};
ghost use Rattle.ink_model.specs.declared.limits.TheConstants.{MAX_CHOICES};
ghost use Rattle.ink_choice.specs.Undo.{choices_back, choices_spare, choices_stood};
ghost use Rattle.ink_choice.specs.Outcomes.{FindsIndex, Takes};
ghost use Rattle.ink_stack.specs.Outcomes.{Grows};
ghost use Rattle.ink_model.specs.Choices.Making as rules;
ghost use Rattle.ink_model.specs.Run.Configuration.{ChoiceOf, unnumbered_choice};
ghost use Rattle.ink_trail.specs.Undo.{KeepsTrail, Trails, TrailsOrKeeps, spare, with_pair};

use crate::choice::{Choice, copied_tags, copied_text};
use crate::undo::ChoicePair;
use ink_model::{Fault, MAX_CHOICES, Seq, Shared, Shown, Text};
use ink_stack::{Fork, Threads};
use ink_trail::Trail;
use std::alloc::{AllocError, Global};
use std::marker::Model;
use std::mem;

/// The memory of a text that went is kept where it is no more than so many bytes.
const KEPT_TEXT: usize = 1024;

/// Choices, the invisible ones among them, in the order in which they were made: 1,000 at the most; and while a mark stands the
/// trail of what they were. A contract sees the list and the trail.
///
/// `settled` says how many of the first ones have no number of an Enter in their threads, so that the end of a line looks only at
/// those behind them. `texts` has the memory of texts of choices that went, so that those to come need not ask for any.
#[derive(Drop)]
pub struct Choices<P> {
    pub(crate) items: Vec<Choice<P>>,
    pub(crate) settled: usize,
    pub(crate) trail: Trail<ChoicePair<P>>,
    pub(crate) texts: Vec<String>,
}

impl<P> Model for Choices<P> {
    ghost use Rattle.std.specs.Prelude.{◌≤◌, length, vec_capacity};
    ghost use Rattle.ink_choice.specs.Choices.{ChoicesView, Settled};
    ghost use Rattle.ink_choice.specs.Undo.{StaysHeld};
    ghost use Rattle.ink_model.specs.declared.limits.TheConstants.{MAX_CHOICES};
    ghost use Rattle.ink_trail.specs.Undo.{trail_of};

    ghost Value = { ChoicesView P };

    ghost view = { λ c. record { items = c.items.items; trail = c.trail } };

    ghost invariant = { λ c. (length c.items.items ≤ MAX_CHOICES) × StaysHeld (vec_capacity c.items) (trail_of c.trail.undo) c.items.items
        × Settled c.settled c.items.items };
}

#[tactic(auto, unfolding(crate::specs::Undo::choices_stood, crate::specs::Undo::choices_spare, ink_trail::specs::Undo::stood_at, ink_trail::specs::Undo::spare))]
impl<P: Copy> Choices<P> {
    /// No choices, which take no memory.
    pub fn new(alloc: Global) -> Choices<P>
        ensures items { result.items ≡ [] }
        ensures stood { choices_stood result ≡ None }
    {
        Choices {
            items: Vec::new(alloc),
            settled: 0,
            trail: Trail::new(alloc),
            texts: Vec::new(alloc),
        }
    }

    /// How many there are, the invisible ones counted: 1,000 at the most. Takes no memory.
    pub fn len(&self) -> usize
        ensures count { result ≡ length self.now.items }
        ensures most { result ≤ MAX_CHOICES }
    {
        self.items.len()
    }

    /// A text without characters, in the memory of one that went where there is one.
    #[inline(always)]
    pub(crate) fn empty_text(&mut self) -> String
        ensures bytes { string_bytes result ≡ [] }
        ensures len { string_len result ≡ 0 }
        ensures same { self.new ≡ self.old }
    {
        let Some(text) = self.texts.pop() else {
            return self.new_text();
        };
        let mut text = text;
        text.clear();
        text
    }

    // The same where none went.
    #[cold]
    #[inline(never)]
    fn new_text(&mut self) -> String
        ensures bytes { string_bytes result ≡ [] }
        ensures len { string_len result ≡ 0 }
        ensures same { self.new ≡ self.old }
    {
        make_room(&mut self.texts, self.items.len() + 1);
        String::new(*self.items.allocator())
    }

    /// Adds a choice behind the others, which is one change of a cell. `TooDeep` where there are 1,000; `OutOfMemory` for a refused
    /// request for memory. On an error nothing has changed (docs/CHOICES.md, "The list").
    #[inline(always)]
    pub fn add(&mut self, choice: Choice<P>) -> Result<(), Fault>
        ensures items { Grows (rules.added choice self.old.items) self.old.items self.new.items result }
        ensures trail { TrailsOrKeeps choices_back 1 self.old.items self.old.trail self.new.items self.new.trail result }
        ensures pair { OnOk result (self.new.trail.undo ≡ with_pair ChoicePair.Added 1 self.old.trail.undo) }
        ensures stood { choices_stood self.new ≡ choices_stood self.old }
        ensures spare { choices_spare self.old ≤ choices_spare self.new + 1 }
    {
        ready_for_one(&mut self.items, &mut self.trail)?;
        push_ready(&mut self.items, &mut self.trail, choice);
        Ok(())
    }

    /// Adds a choice of these parts, which keeps a copy of the thread that runs. It is built where it stands. The errors are those of
    /// `add`. Most threads are a frame alone without temporaries, of which a copy asks for no memory.
    #[inline(always)]
    pub(crate) fn add_forked(
        &mut self,
        text: Text,
        tags: Seq<Shared<Text>>,
        target: P,
        hidden: bool,
        threads: &Threads<P>,
    ) -> Result<(), Fault>
        ensures items { let choice : ChoiceOf P = record { text = text; tags = tags; target = target; hidden = hidden; thread = threads.now.threads.thread } in
            Grows (rules.added choice self.old.items) self.old.items self.new.items result }
        ensures trail { TrailsOrKeeps choices_back 1 self.old.items self.old.trail self.new.items self.new.trail result }
        ensures pair { OnOk result (self.new.trail.undo ≡ with_pair ChoicePair.Added 1 self.old.trail.undo) }
        ensures stood { choices_stood self.new ≡ choices_stood self.old }
        ensures spare { choices_spare self.old ≤ choices_spare self.new + 1 }
    {
        if !threads.is_plain() {
            return self.add_any(text, tags, target, hidden, threads);
        }
        ready_for_one(&mut self.items, &mut self.trail)?;
        let thread = threads.with_fork(Fork::none(*self.items.allocator()));
        push_ready(
            &mut self.items,
            &mut self.trail,
            Choice {
                text,
                tags,
                target,
                hidden,
                thread,
            },
        );
        Ok(())
    }

    // The same in any thread.
    #[inline(never)]
    fn add_any(
        &mut self,
        text: Text,
        tags: Seq<Shared<Text>>,
        target: P,
        hidden: bool,
        threads: &Threads<P>,
    ) -> Result<(), Fault>
        ensures items { let choice : ChoiceOf P = record { text = text; tags = tags; target = target; hidden = hidden; thread = threads.now.threads.thread } in
            Grows (rules.added choice self.old.items) self.old.items self.new.items result }
        ensures trail { TrailsOrKeeps choices_back 1 self.old.items self.old.trail self.new.items self.new.trail result }
        ensures pair { OnOk result (self.new.trail.undo ≡ with_pair ChoicePair.Added 1 self.old.trail.undo) }
        ensures stood { choices_stood self.new ≡ choices_stood self.old }
        ensures spare { choices_spare self.old ≤ choices_spare self.new + 1 }
    {
        ready_for_one(&mut self.items, &mut self.trail)?;
        let Ok(fork) = threads.ready_fork() else {
            return Err(Fault::OutOfMemory);
        };
        let thread = threads.with_fork(fork);
        push_ready(
            &mut self.items,
            &mut self.trail,
            Choice {
                text,
                tags,
                target,
                hidden,
                thread,
            },
        );
        Ok(())
    }

    /// The visible ones, as they are shown. The one error is a refused request for memory, which is made only where one is
    /// visible.
    pub fn visible(&self, alloc: Global) -> Result<Seq<Shown>, AllocError>
        ensures shown { IfOk result (λ shown. shown ≡ rules.shown self.now.items) }
        ensures memory { OnErr result (rules.visible self.now.items ≢ []) }
    {
        let mut shown = Vec::new(alloc);
        for choice in &self.items {
            if is_visible(choice) {
                shown.push(shown_choice(alloc, choice)?)?;
            }
        }
        Ok(Seq::from_vec(shown))
    }

    /// Whether there are choices and none is visible. Takes no memory.
    pub fn only_invisible(&self) -> bool
        ensures { result ≡ rules.only_invisible self.now.items }
    {
        !self.items.is_empty() && none_visible(self.items.as_slice())
    }

    /// The n-th visible one, counted from 0; none where there are not so many. Takes no memory.
    pub fn visible_at(&self, number: usize) -> Option<&Choice<P>>
        ensures { option_map (λ c. c.now) result ≡ slice_get (rules.visible self.now.items) number }
    {
        match index_of(self.items.as_slice(), number, false) {
            Some(index) => Some(&self.items[index]),
            None => None,
        }
    }

    /// Takes a choice out of the list, which is one change of a cell: the n-th visible one, counted from 0, or where none is visible
    /// the n-th. None where there is no such choice, and then nothing has changed. While a mark stands it hands out a copy, and then
    /// alone there is an error, `OutOfMemory` for a refused request for memory, which is made only for a copy that asks for some, and
    /// where there is no room to note one change more; nothing has changed then (docs/CHOICES.md, "Taking a choice").
    pub fn take(&mut self, number: usize) -> Result<Option<Choice<P>>, Fault>
        ensures items { Takes (rules.choice_gone number self.old.items) self.old.items self.new.items result }
        ensures memory { OnErr result (is_some (choices_stood self.old) ≡ true) }
        ensures asks { OnErr result ((choices_spare self.old < 1) ⊎ (rules.option_asks (option_map (λ r. r.0) (rules.choice_gone number self.old.items)) ≡ true)) }
        ensures trail { TrailsOrKeeps choices_back 1 self.old.items self.old.trail self.new.items self.new.trail result }
        ensures kept { IfOk result (λ taken. IfNone taken (KeepsTrail self.old.trail self.new.trail)) }
        ensures stood { choices_stood self.new ≡ choices_stood self.old }
        ensures spare { choices_spare self.old ≤ choices_spare self.new + 1 }
    {
        let any = none_visible(self.items.as_slice());
        match index_of(self.items.as_slice(), number, any) {
            Some(index) => match self.take_at(index) {
                Ok(choice) => Ok(Some(choice)),
                Err(_) => Err(Fault::OutOfMemory),
            },
            None => Ok(None),
        }
    }

    // Takes the choice at an index out of the list. The one error is a refused request for memory, while a mark stands.
    fn take_at(&mut self, index: usize) -> Result<Choice<P>, AllocError>
        requires { index < length self.old.items }
        ensures choice { IfOk result (λ choice. choice ≡ slice_index_or self.old.items index choice) }
        ensures items { OnOk result (self.new.items ≡ remove self.old.items index) }
        ensures memory { OnErr result (is_some (choices_stood self.old) ≡ true) }
        ensures asks { OnErr result ((choices_spare self.old < 1) ⊎ (rules.option_asks (slice_get self.old.items index) ≡ true)) }
        ensures trail { TrailsOrKeeps choices_back 1 self.old.items self.old.trail self.new.items self.new.trail result }
        ensures stood { choices_stood self.new ≡ choices_stood self.old }
        ensures spare { choices_spare self.old ≤ choices_spare self.new + 1 }
    {
        if self.trail.is_marked() {
            return self.take_marked(index);
        }
        self.settled = self.settled.min(index);
        Ok(self.items.remove(index))
    }

    // As `take_at`, while a mark stands: a copy is handed out, and the choice goes into the trail.
    #[cold]
    #[inline(never)]
    fn take_marked(&mut self, index: usize) -> Result<Choice<P>, AllocError>
        requires { index < length self.old.items }
        ensures choice { IfOk result (λ choice. choice ≡ slice_index_or self.old.items index choice) }
        ensures items { OnOk result (self.new.items ≡ remove self.old.items index) }
        ensures asks { OnErr result ((choices_spare self.old < 1) ⊎ (rules.option_asks (slice_get self.old.items index) ≡ true)) }
        ensures trail { TrailsOrKeeps choices_back 1 self.old.items self.old.trail self.new.items self.new.trail result }
        ensures stood { choices_stood self.new ≡ choices_stood self.old }
        ensures spare { choices_spare self.old ≤ choices_spare self.new + 1 }
    {
        self.trail.ready(1)?;
        let copy = self.items[index].clone_in(*self.items.allocator())?;
        let choice = self.items.remove(index);
        self.settled = self.settled.min(index);
        self.trail.note(ChoicePair::Taken(index, choice), 1);
        Ok(copy)
    }

    /// No frame of the choices' threads has the number of its Enter any more. No mark may stand. Takes no memory.
    pub fn clear_numbers(&mut self)
        requires unmarked { choices_stood self.old ≡ None }
        ensures items { self.new.items ≡ map unnumbered_choice self.old.items }
        ensures trail { KeepsTrail self.old.trail self.new.trail }
        ensures stood { choices_stood self.new ≡ choices_stood self.old }
        ensures spare { choices_spare self.old ≤ choices_spare self.new }
    {
        clear_numbers_from(self.items.as_mut_slice(), self.settled);
        self.settled = self.items.len();
    }

    /// All choices go, which is one change of a cell. Takes no memory.
    pub fn clear(&mut self)
        requires room { 1 ≤ choices_spare self.old }
        ensures items { self.new.items ≡ [] }
        ensures trail { Trails choices_back 1 self.old.items self.old.trail self.new.items self.new.trail }
        ensures stood { choices_stood self.new ≡ choices_stood self.old }
        ensures spare { choices_spare self.old ≤ choices_spare self.new + 1 }
    {
        if self.trail.is_marked() {
            self.clear_marked();
        } else {
            self.settled = 0;
            end_all(&mut self.items, &mut self.texts);
        }
    }

    // As `clear`, while a mark stands: the list goes into the trail.
    #[cold]
    #[inline(never)]
    fn clear_marked(&mut self)
        requires room { 1 ≤ choices_spare self.old }
        ensures items { self.new.items ≡ [] }
        ensures trail { Trails choices_back 1 self.old.items self.old.trail self.new.items self.new.trail }
        ensures stood { choices_stood self.new ≡ choices_stood self.old }
        ensures spare { choices_spare self.old ≤ choices_spare self.new + 1 }
    {
        self.settled = 0;
        let cleared = taken_whole(&mut self.items);
        self.trail.note(ChoicePair::Cleared(cleared), 1);
    }
}

// Makes room for one choice more, and to note that it is added. The errors are those of `add`, and then nothing has changed.
#[inline(always)]
fn ready_for_one<P: Copy>(
    items: &mut Vec<Choice<P>>,
    trail: &mut Trail<ChoicePair<P>>,
) -> Result<(), Fault>
    ensures items { items.new.items ≡ items.old.items }
    ensures more { vec_capacity items.old ≤ vec_capacity items.new }
    ensures few { OnOk result (length items.old.items < MAX_CHOICES) }
    ensures fits { OnOk result (length items.old.items < vec_capacity items.new) }
    ensures kept { KeepsTrail trail.old trail.new }
    ensures room { OnOk result (1 ≤ spare trail.new) }
    ensures spare { spare trail.old ≤ spare trail.new }
    ensures err { IfErr result (λ f. ((f ≡ Fault.TooDeep) × (MAX_CHOICES ≤ length items.old.items)) ⊎ ((f ≡ Fault.OutOfMemory) × (length items.old.items < MAX_CHOICES))) }
{
    if items.len() >= MAX_CHOICES {
        return Err(Fault::TooDeep);
    }
    items.reserve(1)?;
    trail.ready(1)?;
    Ok(())
}

// Adds a choice for which there is room, and notes it where a mark stands.
#[inline(always)]
fn push_ready<P: Copy>(
    items: &mut Vec<Choice<P>>,
    trail: &mut Trail<ChoicePair<P>>,
    choice: Choice<P>,
)
    requires fits { length items.old.items < vec_capacity items.old }
    requires ready { 1 ≤ spare trail.old }
    ensures items { items.new.items ≡ items.old.items ++ choice ∷ [] }
    ensures more { vec_capacity items.old ≤ vec_capacity items.new }
    ensures undo { trail.new.undo ≡ with_pair ChoicePair.Added 1 trail.old.undo }
    ensures room { trail.old.room ≤ trail.new.room + 1 }
    ensures spare { spare trail.old ≤ spare trail.new + 1 }
{
    if trail.is_marked() {
        note_added(trail);
    }
    items.push_reserved(choice);
}

// Notes that a choice is added. It is a call of its own, so that no pair is made where no mark stands.
#[cold]
#[inline(never)]
fn note_added<P: Copy>(trail: &mut Trail<ChoicePair<P>>)
    requires ready { 1 ≤ spare trail.old }
    ensures undo { trail.new.undo ≡ with_pair ChoicePair.Added 1 trail.old.undo }
    ensures room { trail.old.room ≤ trail.new.room + 1 }
    ensures spare { spare trail.old ≤ spare trail.new + 1 }
{
    trail.note(ChoicePair::Added, 1);
}

// All choices go. They are taken apart one by one, so that of what owns nothing nothing is copied. Their texts leave their memory.
fn end_all<P: Copy>(items: &mut Vec<Choice<P>>, texts: &mut Vec<String>)
    ensures items { items.new.items ≡ [] }
    ensures room { vec_capacity items.new ≡ vec_capacity items.old }
{
    while let Some(choice) = items.pop() {
        let Choice {
            text,
            tags: _,
            target: _,
            hidden: _,
            thread: _,
        } = choice;
        keep(texts, text);
    }
}

// Makes room to keep the memory of so many texts once they go. Where that is refused, their memory goes with them.
fn make_room(texts: &mut Vec<String>, count: usize) {
    if texts.capacity() < count {
        let _room = texts.reserve(count);
    }
}

// A text goes, and its memory is kept where there is room for it and it is not much.
#[inline(always)]
fn keep(texts: &mut Vec<String>, text: Text) {
    let text = text.into_string();
    if texts.len() < texts.capacity() && text.capacity() <= KEPT_TEXT {
        texts.push_reserved(text);
    }
}

// Takes the whole list, and leaves an empty one.
fn taken_whole<P: Copy>(items: &mut Vec<Choice<P>>) -> Vec<Choice<P>>
    ensures whole { result ≡ items.old }
    ensures empty { items.new.items ≡ [] }
{
    let empty = Vec::new(*items.allocator());
    mem::replace(items, empty)
}

// A choice as it is shown. The one error is a refused request for memory.
fn shown_choice<P: Copy>(alloc: Global, choice: &Choice<P>) -> Result<Shown, AllocError>
    ensures { IfOk result (λ shown. shown ≡ rules.shown_choice choice.now) }
{
    let text = copied_text(alloc, &choice.text)?;
    let tags = copied_tags(alloc, &choice.tags)?;
    Ok(Shown { text, tags })
}

fn is_visible<P: Copy>(choice: &Choice<P>) -> bool
    ensures { result ≡ not choice.now.hidden }
{
    !choice.hidden
}

// Whether a choice can be taken, which any can where none is visible.
fn can_take<P: Copy>(choice: &Choice<P>, any: bool) -> bool
    ensures { result ≡ (any || not choice.now.hidden) }
{
    any || is_visible(choice)
}

// Whether there is no visible one.
fn none_visible<P: Copy>(choices: &[Choice<P>]) -> bool
    ensures { result ≡ rules.none_visible choices.now }
{
    choices.iter().all(|choice| choice.hidden)
}

// The index of the n-th visible one, or of the n-th, where any can be taken.
fn index_of<P: Copy>(choices: &[Choice<P>], number: usize, any: bool) -> Option<usize>
    ensures { FindsIndex (λ c. any || not c.hidden) number choices.now result }
{
    let mut left = number;
    for (index, choice) in choices.iter().enumerate() {
        if can_take(choice, any) {
            if left == 0 {
                return Some(index);
            }
            left -= 1;
        }
    }
    None
}

// Of the choices from an index on no frame of their threads has the number of its Enter any more.
fn clear_numbers_from<P: Copy>(choices: &mut [Choice<P>], from: usize)
    requires { from ≤ length choices.old }
    ensures { choices.new ≡ take from choices.old ++ map unnumbered_choice (drop from choices.old) }
{
    clear_numbers_of(&mut choices[from..]);
}

// No frame of these choices' threads has the number of its Enter any more.
fn clear_numbers_of<P: Copy>(choices: &mut [Choice<P>])
    ensures { choices.new ≡ map unnumbered_choice choices.old }
{
    for choice in choices {
        choice.thread.clear_numbers();
    }
}
