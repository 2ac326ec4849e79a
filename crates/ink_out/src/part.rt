//! Parts of texts.

ghost use Rattle.std.specs.Prelude.{◌≡◌, ◌≤◌, ◌-◌, IfOk, IfSome, drop, take};
ghost use Rattle.std.specs.Str.{IsCharBoundary};

use ink_model::{Shared, Text};
use std::alloc::AllocError;
use std::marker::Model;

/// A part of a text that is shared, from one place in it to another. A contract sees the part.
#[derive(Drop)]
pub(crate) struct Part {
    text: Shared<Text>,
    from: u32,
    to: u32,
}

impl Model for Part {
    ghost use Rattle.std.specs.Prelude.{◌≤◌, ◌-◌, List, ℕ, drop, take};
    ghost use Rattle.std.specs.Str.{IsCharBoundary};

    ghost Value = { List ℕ };

    ghost view = { λ p. take (p.to - p.from) (drop p.from p.text) };

    ghost invariant = { λ p. (p.from ≤ p.to) × IsCharBoundary p.text p.from × IsCharBoundary p.text p.to };
}

impl Part {
    /// The part of a text between two places. None where one of them is past 4 GiB. It asks for no memory; the one error is a count
    /// of owners that is full.
    pub(crate) fn of(
        text: &Shared<Text>,
        from: usize,
        to: usize,
    ) -> Result<Option<Part>, AllocError>
        requires order { from ≤ to }
        requires from { IsCharBoundary text.now from }
        requires to { IsCharBoundary text.now to }
        ensures { IfOk result (λ made. IfSome made (λ part. part ≡ take (to - from) (drop from text.now))) }
    {
        let Ok(from) = u32::try_from(from) else {
            return Ok(None);
        };
        let Ok(to) = u32::try_from(to) else {
            return Ok(None);
        };
        let text = text.share()?;
        Ok(Some(Part { text, from, to }))
    }

    /// What it says.
    #[inline(always)]
    pub(crate) fn as_str(&self) -> &str
        ensures { result.now ≡ self.now }
    {
        &self.text.as_str()[self.from as usize..self.to as usize]
    }
}
