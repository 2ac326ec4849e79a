//! Parts that are lent, and their order.

ghost use Rattle.std.specs.Prelude.{◌≡◌, ℕ, IfOk, IsOk};
ghost use Rattle.ink_json.specs.Order.{part_order, key_part};
ghost use Rattle.ink_model.specs.declared.place.Part.TheVariants.{Index};

use ink_model::{Part, Text};
use std::alloc::{AllocError, Global};
use std::cmp::Ordering;

/// A part that is lent: an index or a name.
#[derive(Clone, Copy)]
pub enum Key<'n> {
    Index(u32),
    Name(&'n str),
}

/// The same part, lent.
pub fn key_of(part: &Part) -> Key<'_>
    ensures { key_part result ≡ part.now }
{
    match part {
        Part::Index(index) => Key::Index(*index),
        Part::Name(name) => Key::Name(name.as_str()),
    }
}

/// A part of one's own that is the same. The one error is a refused request for memory, which is made only for a name.
pub fn part_of(alloc: Global, key: Key<'_>) -> Result<Part, AllocError>
    ensures part { IfOk result (λ part. part ≡ key_part key.entry) }
    ensures index { (i : ℕ) → key_part key.entry ≡ Index i → IsOk result }
{
    match key {
        Key::Index(index) => Ok(Part::Index(index)),
        Key::Name(name) => Ok(Part::Name(Text::from_str(alloc, name)?)),
    }
}

/// How a part stands to another.
pub fn compare_parts(part: Key<'_>, other: Key<'_>) -> Ordering
    ensures { result ≡ part_order (key_part part.entry) (key_part other.entry) }
{
    match (part, other) {
        (Key::Index(index), Key::Index(other)) => index.cmp(&other),
        (Key::Index(_), Key::Name(_)) => Ordering::Less,
        (Key::Name(_), Key::Index(_)) => Ordering::Greater,
        (Key::Name(name), Key::Name(other)) => name.cmp(other),
    }
}
