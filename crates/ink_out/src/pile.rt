//! What waits to be written.

ghost use Rattle.std.specs.Prelude.{◌≡◌, ℕ, List, [], ◌∷◌, ◌++◌, Bool, reverse, OnOk};
ghost use Rattle.ink_out.specs.Cleaning.{Holds};
ghost use Rattle.ink_out.specs.Walks.{held_at, is_at, left_pile, now_text, pile_now};

use crate::cleaning::Shown;
use crate::tracker::{Waiting, is_reached};
use smallvec::SmallVec;
use std::alloc::{AllocError, Global};
use std::marker::Model;

/// A blank or newline that may still be hidden, with its index, and for a blank whether a newline stands before it.
#[derive(Clone, Copy)]
pub(crate) enum Held<'m> {
    Blank {
        at: usize,
        broken: bool,
        text: &'m str,
    },
    Newline {
        at: usize,
    },
}

/// What an empty place of a pile holds.
impl Default for Held<'_> {
    fn default() -> Self {
        Held::Newline { at: 0 }
    }
}

impl Held<'_> {
    /// The index.
    fn at(&self) -> usize
        ensures { result ≡ held_at self.now }
    {
        match self {
            Held::Blank { at, .. } => *at,
            Held::Newline { at } => *at,
        }
    }
}

impl<'m> Held<'m> {
    /// What is shown where nothing more hides it.
    #[inline(always)]
    fn now_text(&self, newline: Option<Waiting>, glue: usize) -> &'m str
        ensures { result.now ≡ now_text newline glue self.now }
    {
        match self {
            Held::Blank { at, broken, .. } if *broken && *at < glue => "",
            Held::Blank { text, .. } => *text,
            Held::Newline { at } if is_at(*at, newline) => "\n",
            Held::Newline { .. } => "",
        }
    }
}

/// The blanks and newlines since the last text. A contract sees them the last first. Most lines have a blank and a newline
/// there at the most, which take no memory.
pub(crate) struct Pile<'m> {
    items: SmallVec<Held<'m>, 2>,
}

/// Written out, so that wherever a pile is let go that is one call.
impl Drop for Pile<'_> {
    #[inline(always)]
    fn drop(self) {
        let Pile { items: _ } = self;
    }
}

impl<'m> Model for Pile<'m> {
    ghost use Rattle.std.specs.Prelude.{List, reverse};
    ghost use Rattle.ink_out.specs.declared.pile.Held.{Held};

    ghost Value = { List Held };

    ghost view = { λ p. reverse p.items.items };
}

impl<'m> Pile<'m> {
    /// An empty pile, which takes no memory.
    pub(crate) fn new(alloc: Global) -> Pile<'m>
        ensures { result ≡ [] }
    {
        Pile {
            items: SmallVec::new(alloc),
        }
    }

    /// Puts one on top. The one error is a refused request for memory.
    #[inline(always)]
    pub(crate) fn push(&mut self, held: Held<'m>) -> Result<(), AllocError>
        ensures { OnOk result (self.new ≡ held.entry ∷ self.old) }
    {
        self.items.push(held)?;
        Ok(())
    }

    /// Takes from the top what the end of a function's text that reaches back so far hides.
    #[inline(always)]
    pub(crate) fn leave(&mut self, reach: Option<usize>)
        ensures { self.new ≡ left_pile reach self.old }
    {
        drop_reached(&mut self.items, reach);
    }

    /// Takes all away.
    #[inline(always)]
    pub(crate) fn clear(&mut self)
        ensures { self.new ≡ [] }
    {
        self.items.clear();
    }

    /// Writes what is shown where nothing more hides any, by the newline that waits and the index of the last glue. The one
    /// error is a refused request for memory.
    #[inline(always)]
    pub(crate) fn write(
        &self,
        shown: &mut Shown,
        newline: Option<Waiting>,
        glue: usize,
    ) -> Result<(), AllocError>
        ensures { OnOk result ((cleans : Bool) (written : List ℕ) → Holds cleans shown.old written → Holds cleans shown.new (written ++ pile_now newline glue self.now)) }
    {
        write_all(shown, self.items.as_slice(), newline, glue)
    }
}

// Takes from the end what is reached.
fn drop_reached(items: &mut SmallVec<Held<'_>, 2>, reach: Option<usize>)
    ensures { reverse items.new.items ≡ left_pile reach (reverse items.old.items) }
{
    while let Some(held) = items.as_slice().last().copied() {
        if !is_reached(held.at(), reach) {
            return;
        }
        let _ = items.pop();
    }
}

// Writes what is shown of these, in order.
#[inline(always)]
fn write_all(
    shown: &mut Shown,
    items: &[Held<'_>],
    newline: Option<Waiting>,
    glue: usize,
) -> Result<(), AllocError>
    ensures { OnOk result ((cleans : Bool) (written : List ℕ) → Holds cleans shown.old written → Holds cleans shown.new (written ++ pile_now newline glue (reverse items.now))) }
{
    for held in items {
        shown.push_str(held.now_text(newline, glue))?;
    }
    Ok(())
}

// Whether the newline that waits stands at an index.
#[inline(always)]
fn is_at(at: usize, newline: Option<Waiting>) -> bool
    ensures { result ≡ is_at at newline }
{
    match newline {
        Some(waiting) => at == waiting.at,
        None => false,
    }
}
