//! The components of a path, one after another (docs/STORY_FORMAT.md, "Paths").

ghost use Rattle.std.specs.Prelude.{◌≡◌, ◌≢◌, [], ◌∷◌, option_map, length, ◌<◌, OnSome};
ghost use Rattle.std.specs.Bool.{OnTrue, OnFalse};
ghost use Rattle.ink_model.specs.Text.Bytes.{pieces, is_dot};
ghost use Rattle.ink_model.specs.Story.Path as rules;
ghost use Rattle.ink_path.specs.Components.{TakesFirst, behind_dot, is_relative, part_of, path_of};

use crate::path::{index_of, is_number, undotted};
use std::marker::Model;

/// A component of a path, lent from a text that spells it.
#[derive(Clone, Copy)]
pub enum Component<'a> {
    Index(u32),
    Name(&'a str),
}

impl<'a> Component<'a> {
    /// The component that a text spells: digits are an index, which is below 2^31, and all else that is not empty is a name. None
    /// for another text. Takes no memory.
    pub fn read(text: &'a str) -> Option<Component<'a>>
        ensures { option_map part_of result ≡ rules.component text.now }
    {
        if text.is_empty() {
            return None;
        }
        if is_number(text) {
            return Some(Component::Index(index_of(text)?));
        }
        Some(Component::Name(text))
    }
}

/// What is left of a text that may spell a path, from one dot to the next. A contract sees the texts of its components.
#[derive(Drop)]
pub struct Components<'a> {
    rest: Option<&'a str>,
}

impl<'a> Model for Components<'a> {
    ghost use Rattle.std.specs.Prelude.{List, ℕ};
    ghost use Rattle.ink_path.specs.Components.{texts_of};

    ghost Value = { List (List ℕ) };

    ghost view = { λ c. texts_of c.rest };
}

impl<'a> Components<'a> {
    /// Whether a text begins with a dot, as a relative path does, and its components: the texts between the dots that come then.
    /// Takes no memory.
    pub fn of(text: &'a str) -> (bool, Components<'a>)
        ensures reads { rules.read_path text.now ≡ path_of result.0 result.1 }
        ensures relative { result.0 ≡ is_relative text.now }
        ensures texts { result.1 ≡ pieces is_dot (behind_dot text.now) }
    {
        let (relative, rest) = undotted(text);
        (relative, Components { rest: Some(rest) })
    }

    /// Takes the text of the first that is left, where one is. Takes no memory.
    pub fn next(&mut self) -> Option<&'a str>
        ensures first { TakesFirst self.old result self.new }
        ensures shorter { OnSome result (length self.new < length self.old) }
    {
        let rest = self.rest?;
        match rest.split_once('.') {
            Some((first, others)) => {
                self.rest = Some(others);
                Some(first)
            }
            None => {
                self.rest = None;
                Some(rest)
            }
        }
    }

    /// Whether none is left.
    pub fn is_empty(&self) -> bool
        ensures none { OnTrue result (self.now ≡ []) }
        ensures some { OnFalse result (self.now ≢ []) }
    {
        self.rest.is_none()
    }
}
