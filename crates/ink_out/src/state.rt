//! What is known after the marks of a section.

ghost use Rattle.std.specs.Prelude.{◌≡◌, ℕ, List, [], ◌∷◌, ◌+◌, ◌<◌, ◌≤◌, length, reverse, vec_len, vec_capacity, IsSome, OnOk};
ghost use Rattle.ink_model.specs.declared.mark.Mark.{Mark};
ghost use Rattle.ink_model.specs.Text.Shown.{is_among};
ghost use Rattle.ink_out.specs.Stands.{Falling, Knows, Stands};
ghost use Rattle.ink_out.specs.Tracks.{settled_after};

use crate::enters::Enters;
use crate::kept::{Form, Kept};
use crate::tracker::{Tracker, Waiting};
use std::alloc::{AllocError, Global};

/// What the marks so far leave to decide, and the last text or tag.
#[derive(Clone, Copy)]
pub struct State {
    pub(crate) tracker: Tracker,
    pub(crate) more: Option<usize>,
}

impl State {
    /// At the start of a section.
    pub(crate) fn new() -> State
        ensures { Stands [] [] result }
    {
        State {
            tracker: Tracker::new(),
            more: None,
        }
    }

    /// Goes past a mark at an index, where the starts of the numbers up to it are known.
    #[inline(always)]
    pub(crate) fn add(&mut self, mark: &Kept, at: usize, enters: &Enters)
        ensures { (before : List Mark) (settled : List ℕ) → at ≡ length before → Knows enters.now (mark.now ∷ before) → Stands before settled self.old
            → Stands (mark.now ∷ before) (settled_after mark.now self.old.tracker.newline settled) self.new }
    {
        self.tracker.add(mark, at, enters);
        match &mark.form {
            Form::Text(_) => self.more = Some(at),
            Form::Part(_) => self.more = Some(at),
            Form::Tag(_) => self.more = Some(at),
            _ => {}
        }
    }
}

/// Makes room for the newline that waits, if one does. The one error is a refused request for memory.
#[inline(always)]
pub(crate) fn make_room(
    settled: &mut Vec<usize>,
    newline: Option<Waiting>,
) -> Result<(), AllocError>
    ensures items { settled.new.items ≡ settled.old.items }
    ensures room { OnOk result (IsSome newline → vec_len settled.new < vec_capacity settled.new) }
{
    match newline {
        Some(_) => settled.reserve(1),
        None => Ok(()),
    }
}

/// Adds the newline that waits to the settled ones, where the mark is a text.
#[inline(always)]
pub(crate) fn settle(settled: &mut Vec<usize>, mark: &Kept, newline: Option<Waiting>)
    requires { IsSome newline → vec_len settled.old < vec_capacity settled.old }
    ensures items { reverse settled.new.items ≡ settled_after mark.now newline (reverse settled.old.items) }
    ensures len { vec_len settled.new ≤ vec_len settled.old + 1 }
    ensures capacity { vec_capacity settled.old ≤ vec_capacity settled.new }
{
    match (&mark.form, newline) {
        (Form::Text(_), Some(newline)) => settled.push(newline.at).unwrap(),
        (Form::Part(_), Some(newline)) => settled.push(newline.at).unwrap(),
        _ => {}
    }
}

/// Takes back what `settle` did.
pub(crate) fn unsettle(settled: &mut Vec<usize>, mark: &Kept, newline: Option<Waiting>)
    ensures { (before : List ℕ) → reverse settled.old.items ≡ settled_after mark.now newline before → reverse settled.new.items ≡ before }
{
    match (&mark.form, newline) {
        (Form::Text(_) | Form::Part(_), Some(_)) => {
            let _settled = settled.pop();
        }
        _ => {}
    }
}

/// A newline at an index is among the settled ones.
pub(crate) fn is_settled(settled: &[usize], index: usize) -> bool
    ensures { (n : ℕ) → Falling n (reverse settled.now) → result ≡ is_among index (reverse settled.now) }
{
    let mut end = settled.len();
    while end > 0 {
        let at = settled[end - 1];
        if at <= index {
            return index == at;
        }
        end -= 1;
    }
    false
}
