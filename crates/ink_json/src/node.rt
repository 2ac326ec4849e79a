//! A content of a story, as it was read.

ghost use Rattle.std.specs.Prelude.{◌≡◌, option_map};
ghost use Rattle.ink_json.specs.Kept.{node_of};
ghost use Rattle.ink_json.specs.Order.{key_part};

use crate::kept::{Kept, part_of_code};
use crate::key::Key;
use ink_model::{Content, Text};
use std::marker::Model;

/// A content by itself, the number of the content around it (the root has its own), and the part that leads from there to it, lent.
#[derive(Drop)]
pub struct Node<'s> {
    kept: &'s Kept,
    names: &'s [Text],
}

impl<'s> Model for Node<'s> {
    ghost use Rattle.ink_json.specs.Node.{Node};

    ghost Value = { Node };

    ghost use Rattle.ink_json.specs.Kept.{node_of};

    ghost view = { λ n. node_of n.names.now n.kept.now };
}

impl<'s> Node<'s> {
    /// What is kept of a content, beside the names of the story.
    #[inline(always)]
    pub(crate) fn of(kept: &'s Kept, names: &'s [Text]) -> Node<'s>
        ensures { result ≡ node_of names.now kept.now }
    {
        Node { kept, names }
    }

    /// The content by itself. Takes no memory.
    #[inline(always)]
    pub fn content(&self) -> &'s Content
        ensures { result.now ≡ self.now.content }
    {
        &self.kept.content
    }

    /// The number of the content around it; the root's own. Takes no memory.
    #[inline(always)]
    pub fn holder(&self) -> u32
        ensures { result ≡ self.now.holder }
    {
        self.kept.holder
    }

    /// The part that leads to it from the content around it; none for the root. Takes no memory.
    #[inline(always)]
    pub fn last(&self) -> Option<Key<'s>>
        ensures { option_map key_part result ≡ self.now.last }
    {
        part_of_code(self.kept.last, self.names)
    }
}
