//! Where functions' texts start in a section.

ghost use Rattle.std.specs.Prelude.{◌≡◌, ℕ, List, [], ◌∷◌, length, reverse, OnOk, OnErr};
ghost use Rattle.ink_model.specs.declared.mark.Mark.{Mark};
ghost use Rattle.ink_model.specs.declared.mark.Mark.TheVariants as kinds;
ghost use Rattle.ink_out.specs.Stands.{Knows, Leads, Passes, started};
ghost use Rattle.ink_out.specs.Tracks.{reach_of};
ghost use Rattle.ink_out.specs.declared.enters.Start.{Start};

use crate::kept::{Form, Kept};
use std::alloc::{AllocError, Global};
use std::marker::Model;

/// A number, and the index of its start.
#[derive(Clone, Copy)]
struct Start {
    number: u64,
    at: usize,
}

/// The starts so far, in order.
#[derive(Drop)]
pub(crate) struct Enters {
    starts: Vec<Start>,
}

impl Enters {
    /// No numbers, which takes no memory.
    pub(crate) fn new(alloc: Global) -> Enters
        ensures { Knows result [] }
    {
        Enters {
            starts: Vec::new(alloc),
        }
    }

    /// Forgets all numbers, which takes no memory.
    pub(crate) fn clear(&mut self)
        ensures { Knows self.new [] }
    {
        self.starts.clear();
    }

    /// Notes a mark at an index. The one error is a refused request for memory, and leaves the numbers as they were.
    #[inline(always)]
    pub(crate) fn note(&mut self, mark: &Kept, at: usize) -> Result<(), AllocError>
        ensures ok { OnOk result ((before : List Mark) → at ≡ length before → Knows self.old before → Knows self.new (mark.now ∷ before)) }
        ensures err { OnErr result ((before : List Mark) → Knows self.old before → Knows self.new before) }
    {
        match &mark.form {
            Form::Enter(number) => self.start(*number, at),
            _ => Ok(()),
        }
    }

    // Notes that a number starts at an index. Few marks are starts, so that this stands apart.
    #[inline(never)]
    fn start(&mut self, number: u64, at: usize) -> Result<(), AllocError>
        ensures ok { OnOk result ((before : List Mark) → at ≡ length before → Knows self.old before → Knows self.new (kinds.Enter number ∷ before)) }
        ensures err { OnErr result ((before : List Mark) → Knows self.old before → Knows self.new before) }
    {
        self.starts.push(Start { number, at })?;
        Ok(())
    }

    /// Forgets the last mark that was noted. Takes no memory.
    pub(crate) fn forget(&mut self, mark: &Kept)
        ensures { (before : List Mark) → Knows self.old (mark.now ∷ before) → Knows self.new before }
    {
        if let Form::Enter(_) = &mark.form {
            let _start = self.starts.pop();
        }
    }

    /// How far back the end of a function's text reaches: to the start of its number, and past all marks where there is
    /// none.
    #[inline(always)]
    pub(crate) fn reach(&self, number: Option<u64>) -> Option<usize>
        ensures { (before : List Mark) → Knows self.now before → result ≡ reach_of number before }
    {
        match number {
            Some(number) => last_start(self.starts.as_slice(), number),
            None => None,
        }
    }
}

impl Enters {
    /// The starts, of which none is passed yet.
    #[inline(always)]
    pub(crate) fn unpassed(&self) -> Passed<'_>
        ensures { Passes self.now.starts.items result [] }
    {
        Passed {
            starts: self.starts.as_slice(),
            count: 0,
        }
    }
}

/// How many of the starts of a section stand before a mark, in a walk over its marks. It takes no memory.
#[derive(Drop)]
pub(crate) struct Passed<'e> {
    starts: &'e [Start],
    count: usize,
}

impl<'e> Model for Passed<'e> {
    ghost use Rattle.std.specs.Prelude.{◌≤◌, length};
    ghost use Rattle.ink_out.specs.Stands.{Passing};

    ghost Value = { Passing };

    ghost view = { λ p. record { starts = p.starts.now; count = p.count } };

    ghost invariant = { λ p. p.count ≤ length p.starts.now };
}

impl<'e> Passed<'e> {
    /// Goes past a start.
    #[inline(always)]
    pub(crate) fn pass(&mut self)
        ensures { (starts : List Start) (before : List Mark) (n : ℕ) → Leads starts (kinds.Enter n ∷ before) → Passes starts self.old before → Passes starts self.new (kinds.Enter n ∷ before) }
    {
        if self.count < self.starts.len() {
            self.count += 1;
        }
    }

    /// How far back the end of a function's text reaches, as `Enters` says it of the marks that were passed.
    #[inline(always)]
    pub(crate) fn reach(&self, number: Option<u64>) -> Option<usize>
        ensures { (starts : List Start) (before : List Mark) → Leads starts before → Passes starts self.now before → result ≡ reach_of number before }
    {
        match number {
            Some(number) => last_start(&self.starts[..self.count], number),
            None => None,
        }
    }
}

// The index of the last start of a number. It is looked for from the end on: behind it are the starts of the functions that
// it called, and of none besides.
fn last_start(starts: &[Start], number: u64) -> Option<usize>
    ensures { result ≡ started number (reverse starts.now) }
{
    let mut rest = starts;
    while let Some((last, before)) = rest.split_last() {
        if last.number == number {
            return Some(last.at);
        }
        rest = before;
    }
    None
}
