//! Keys that lead nowhere, since what stands before and behind leaves no room for them.

ghost use Rattle.std.specs.Prelude.{◌≡◌, ◌<◌, ◌∷◌, [], ◌++◌, None, true, length};
ghost use Rattle.std.specs.declared.cmp.Ordering.TheVariants.{Less};
ghost use Rattle.ink_json.specs.Order.{key_part, part_order};
ghost use Rattle.ink_model.specs.Story.Places.{places};
ghost use Rattle.ink_model.specs.Story.Tree.{at};
ghost use Rattle.ink_tree.specs.Gaps.{MayBeNoneBefore, NoneFrom};
ghost use Rattle.ink_tree.specs.Kept.{Spans};

use crate::content::size_of;
use crate::spot::NodeId;
use crate::tree::Tree;
use ink_json::{Key, compare_parts};

impl Tree {
    ghost use Rattle.ink_tree.specs.Nodes.{story_tree, node_place};

    /// Whether it is seen at the content of a number that nothing stands at a key in a container: that content stands there
    /// before the key, or it is the container itself, and behind all that is in it comes a later part, or the container's end.
    pub(crate) fn is_gap(&self, number: usize, holder: NodeId, key: Key<'_>) -> bool
        ensures { result ≡ true → at (story_tree self.now) (node_place (story_tree self.now) holder ++ key_part key.entry ∷ []) ≡ None }
    {
        match self.gap_start(number, holder, key) {
            Some(start) => self.ends_gap(start, holder, key),
            None => false,
        }
    }

    // The number from which on a key in a container may lead to content, seen at the content of a number before; none, where
    // nothing is seen there.
    fn gap_start(&self, number: usize, holder: NodeId, key: Key<'_>) -> Option<usize>
        ensures { MayBeNoneBefore (story_tree self.now) (node_place (story_tree self.now) holder ++ key_part key.entry ∷ []) result }
    {
        if number == self.own(holder).number {
            return Some(number + 1);
        }
        match self.part_in(holder, number) {
            Some(part) if is_before(part, key) => Some(self.behind(NodeId { number })),
            _ => None,
        }
    }

    // Whether it is seen at a number that a key in a container leads to no content from there on: the container ends before, or
    // a later part leads to it.
    fn ends_gap(&self, number: usize, holder: NodeId, key: Key<'_>) -> bool
        ensures { result ≡ true → NoneFrom (story_tree self.now) (node_place (story_tree self.now) holder ++ key_part key.entry ∷ []) number }
    {
        if self.behind(self.own(holder)) <= number {
            return true;
        }
        match self.part_in(holder, number) {
            Some(part) => is_before(key, part),
            None => false,
        }
    }

    /// The number behind those of a content and of all that is in it.
    pub(crate) fn behind(&self, own: NodeId) -> usize
        requires { own.number < length (places (story_tree self.now)) }
        ensures { Spans (story_tree self.now) own.number result }
    {
        own.number + size_of(self.kept_own(own).content()) as usize
    }
}

fn is_before(part: Key<'_>, key: Key<'_>) -> bool
    ensures { result ≡ true → part_order (key_part part.entry) (key_part key.entry) ≡ Less }
{
    compare_parts(part, key).is_lt()
}
