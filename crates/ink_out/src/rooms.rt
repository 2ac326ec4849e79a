//! Memory that came back.

ghost use Rattle.std.specs.Prelude.{◌≡◌, [], string_bytes};

use ink_model::{Shared, Text};
use std::alloc::Global;
use std::marker::Model;
use std::mem;

/// The text and the list of tags of a line that was handed out and came back: both are empty, and their memory is used again.
#[derive(Drop)]
pub(crate) struct Rooms {
    text: String,
    tags: Vec<Shared<Text>>,
}

impl Model for Rooms {
    ghost use Rattle.std.specs.Prelude.{◌≡◌, [], string_bytes};

    ghost Value = { Unit {0} };

    ghost view = { λ r. tt };

    ghost invariant = { λ r. (string_bytes r.text ≡ []) × (r.tags.items ≡ []) };
}

impl Rooms {
    /// Without memory.
    pub(crate) fn new(alloc: Global) -> Rooms {
        Rooms {
            text: String::new(alloc),
            tags: Vec::new(alloc),
        }
    }

    /// Hands out the room for a text. Takes no memory.
    pub(crate) fn take_text(&mut self, alloc: Global) -> String
        ensures { string_bytes result ≡ [] }
    {
        mem::replace(&mut self.text, String::new(alloc))
    }

    /// Hands out the room for tags. Takes no memory.
    pub(crate) fn take_tags(&mut self, alloc: Global) -> Vec<Shared<Text>>
        ensures { result.items ≡ [] }
    {
        mem::replace(&mut self.tags, Vec::new(alloc))
    }

    /// Keeps the room of a text that came back. Takes no memory.
    pub(crate) fn keep_text(&mut self, mut text: String) {
        text.clear();
        self.text = text;
    }

    /// Keeps the room of tags that came back, which are let go. Takes no memory.
    pub(crate) fn keep_tags(&mut self, mut tags: Vec<Shared<Text>>) {
        tags.clear();
        self.tags = tags;
    }
}
