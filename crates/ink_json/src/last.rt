//! The part that leads to content, as it is read.

ghost use Rattle.std.specs.Prelude.{◌≡◌, ◌<◌, ◌^◌, Some, None, option_map};
ghost use Rattle.ink_model.specs.declared.place.Part.TheVariants.{Index, Name};
ghost use Rattle.ink_json.specs.Last.{FitsLast};
ghost use Rattle.ink_json.specs.Order.{key_part};

use crate::key::Key;
use std::marker::Model;

/// The part that leads to a content from the content around it, of which the root has none, lent. A contract sees the part. An index
/// is below the numbers that names have.
#[derive(Drop)]
pub(crate) struct Last<'k> {
    key: Option<Key<'k>>,
}

impl<'k> Model for Last<'k> {
    ghost use Rattle.std.specs.Prelude.{Option, option_map};
    ghost use Rattle.ink_model.specs.declared.place.Part.{Part};
    ghost use Rattle.ink_json.specs.Order.{key_part};
    ghost use Rattle.ink_json.specs.Last.{FitsLast};

    ghost Value = { Option Part };

    ghost view = { λ l. option_map key_part l.key };

    ghost invariant = { λ l. FitsLast (option_map key_part l.key) };
}

impl<'k> Last<'k> {
    /// None, for the root.
    pub(crate) fn none() -> Last<'k>
        ensures { result ≡ None }
    {
        Last { key: None }
    }

    /// An index.
    pub(crate) fn index(index: u32) -> Last<'k>
        requires { index < 2 ^ 31 }
        ensures { result ≡ Some (Index index) }
    {
        Last {
            key: Some(Key::Index(index)),
        }
    }

    /// A name.
    pub(crate) fn name(name: &'k str) -> Last<'k>
        ensures { result ≡ Some (Name name.now) }
    {
        Last {
            key: Some(Key::Name(name)),
        }
    }

    /// The part.
    pub(crate) fn key(&self) -> Option<Key<'k>>
        ensures part { option_map key_part result ≡ self.now }
        ensures fits { FitsLast self.now }
    {
        self.key
    }
}
