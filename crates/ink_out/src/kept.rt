//! Marks as they are kept (docs/TEXT.md, "Marks").

ghost use Rattle.std.specs.Prelude.{◌≡◌, IfOk};
ghost use Rattle.ink_model.specs.Values.Value.{truth_text};
ghost use Rattle.ink_out.specs.Kept.{said};

use crate::lent::Lent;
use crate::part::Part;
use ink_model::{Shared, Text};
use itoa::Buffer;
use std::alloc::{AllocError, Global};
use std::marker::Model;

/// A mark as it is kept. A contract sees the mark.
pub(crate) struct Kept {
    pub(crate) form: Form,
}

impl Model for Kept {
    ghost use Rattle.ink_model.specs.declared.mark.Mark.{Mark};
    ghost use Rattle.ink_out.specs.Kept.{mark_of};

    ghost Value = { Mark };

    ghost view = { λ m. mark_of m.form };
}

/// Written out, so that wherever a mark is let go that is one call, and a proof there does not go through its forms.
impl Drop for Kept {
    #[inline(always)]
    fn drop(self) {
        let Kept { form: _ } = self;
    }
}

/// Which mark it is.
#[derive(Drop)]
pub(crate) enum Form {
    Text(Words),
    /// A text that is a part of a longer one.
    Part(Part),
    Blank(Shared<Text>),
    /// Blanks that are a part of a text.
    BlankPart(Part),
    Newline,
    Glue,
    Tag(Shared<Text>),
    Enter(u64),
    Leave(Option<u64>),
}

/// What a text says. What is printed of a number or a truth value is written out where it is shown, so that it takes no memory of
/// its own.
#[derive(Drop)]
pub(crate) enum Words {
    Text(Shared<Text>),
    Number(i32),
    Truth(bool),
}

/// No number has more digits, its sign counted.
const MOST_DIGITS: usize = 11;

impl Words {
    /// What it says. The digits of a number are written into the buffer.
    #[inline(always)]
    pub(crate) fn as_str<'w>(&'w self, digits: &'w mut Buffer) -> &'w str
        ensures { result.now ≡ said self.now }
    {
        match self {
            Words::Text(text) => text.as_str(),
            Words::Number(number) => digits.format(*number),
            Words::Truth(truth) => truth_text(*truth),
        }
    }

    /// How many bytes it has at the most.
    #[inline(always)]
    pub(crate) fn most_len(&self) -> usize {
        match self {
            Words::Text(text) => text.as_str().len(),
            Words::Number(_) => MOST_DIGITS,
            Words::Truth(truth) => truth_text(*truth).len(),
        }
    }

    /// What it says, to be shared: a text is not copied. The one error is a refused request for memory, or a count of owners that
    /// is full.
    pub(crate) fn to_shared(
        &self,
        alloc: Global,
        lent: &mut Lent,
    ) -> Result<Shared<Text>, AllocError>
        ensures { IfOk result (λ text. text ≡ said self.now) }
    {
        if let Words::Text(text) = self {
            return text.share();
        }
        let mut digits = Buffer::new();
        let mut text = lent.take_room(alloc);
        text.push_str(self.as_str(&mut digits))?;
        lent.share(alloc, Text::from_string(text))
    }
}

fn truth_text(truth: bool) -> &'static str
    ensures { result.now ≡ truth_text truth }
{
    if truth { "true" } else { "false" }
}
