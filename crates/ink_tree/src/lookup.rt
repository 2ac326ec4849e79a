//! Nodes by number and by place.

ghost use Rattle.std.specs.Prelude.{◌≡◌, ◌<◌, ◌∷◌, [], ◌++◌, true, false, Some, IfSome, option_map, reverse, length};
ghost use Rattle.ink_json.specs.Order.{key_part};
ghost use Rattle.ink_model.specs.Story.Path.{above};
ghost use Rattle.ink_model.specs.Story.Places.{places};
ghost use Rattle.ink_model.specs.Story.Tree.{at};
ghost use Rattle.ink_model.specs.Story.Tree as trees;
ghost use Rattle.ink_model.specs.Story.View.{own_content};
ghost use Rattle.ink_model.specs.declared.place.Part.TheVariants.{Index, Name};
ghost use Rattle.ink_tree.specs.Contents.{reaches_in};
ghost use Rattle.ink_tree.specs.Gaps.{LeadsTo};
ghost use Rattle.ink_tree.specs.Kept.{KeepsContent, KeepsAll, KeepsAt};

use crate::content::{keys_of, reaches, width_of};
use crate::spot::NodeId;
use crate::tree::Tree;
use ink_json::{Key, Node, Nodes, key_of};
use ink_model::{Content, Part};
use ink_names::same_name;

impl Tree {
    ghost use Rattle.ink_tree.specs.Nodes.{story_tree, node_place, Finds, IsAbove, NumbersInOrder};

    /// All content, in reading order.
    #[inline(always)]
    pub(crate) fn nodes(&self) -> &Nodes
        ensures all { KeepsAll (story_tree self.now) result.now }
        ensures many { length result.now ≡ length (places (story_tree self.now)) }
    {
        self.raw.nodes()
    }

    /// A node of the story: the root in place of a number beyond the story's content.
    pub(crate) fn own(&self, node: NodeId) -> NodeId
        ensures { Finds (story_tree self.now) (node_place (story_tree self.now) node) (Some result) }
    {
        if node.number < self.len() {
            node
        } else {
            NodeId::ROOT
        }
    }

    /// The number of a content: the root's in place of a number beyond the story's content. Numbers are in the order of places.
    /// Takes no memory.
    #[tactic(auto, using(crate::proofs::Rising::numbered_in_order))]
    pub fn number_of(&self, node: NodeId) -> usize
        ensures found { Finds (story_tree self.now) (node_place (story_tree self.now) node) (Some (record { number = result })) }
        ensures order { NumbersInOrder (story_tree self.now) }
    {
        self.own(node).number
    }

    /// What is kept of a node.
    #[inline(always)]
    pub(crate) fn kept(&self, node: NodeId) -> Node<'_>
        ensures { KeepsContent (story_tree self.now) (node_place (story_tree self.now) node) result }
    {
        match self.nodes().get(node.number) {
            Some(kept) => kept,
            None => self.kept_own(self.own(node)),
        }
    }

    /// What is kept of a node of the story.
    pub(crate) fn kept_own(&self, own: NodeId) -> Node<'_>
        requires { own.number < length (places (story_tree self.now)) }
        ensures { KeepsAt (story_tree self.now) own.number result }
    {
        self.nodes().at(own.number)
    }

    /// The content of a node.
    #[inline(always)]
    pub(crate) fn content_of(&self, node: NodeId) -> &Content
        ensures { Some result.now ≡ option_map own_content (at (story_tree self.now) (node_place (story_tree self.now) node)) }
    {
        self.kept(node).content()
    }

    /// How many contents a node holds by index.
    #[inline(always)]
    #[tactic(auto, using(crate::proofs::Contents::width_seen))]
    pub(crate) fn width(&self, node: NodeId) -> u32
        ensures { result ≡ trees.width (at (story_tree self.now) (node_place (story_tree self.now) node)) }
    {
        width_of(self.content_of(node))
    }

    /// The container that holds a content, none for the root. Takes no memory.
    pub fn holder(&self, node: NodeId) -> Option<NodeId>
        ensures { option_map (node_place (story_tree self.now)) result ≡ above (reverse (node_place (story_tree self.now) node)) }
    {
        match self.above(node) {
            Some((_, holder)) => Some(holder),
            None => None,
        }
    }

    /// The part that leads to a node from the content around it, and that content; none for the root. Takes no memory.
    pub fn above(&self, node: NodeId) -> Option<(Key<'_>, NodeId)>
        ensures { IsAbove (story_tree self.now) (node_place (story_tree self.now) node) result }
    {
        let kept = self.kept(node);
        match kept.last() {
            Some(last) => {
                let holder = NodeId {
                    number: kept.holder() as usize,
                };
                Some((last, holder))
            }
            None => None,
        }
    }

    /// Whether an index is one of a node, or its end.
    #[tactic(auto, using(crate::proofs::Contents::reaches_seen))]
    pub(crate) fn reaches(&self, node: NodeId, index: u32) -> bool
        ensures { result ≡ reaches_in (at (story_tree self.now) (node_place (story_tree self.now) node)) index }
    {
        reaches(self.content_of(node), index)
    }

    /// The node at a place; none where nothing stands there.
    pub(crate) fn find(&self, parts: &[Part]) -> Option<NodeId>
        ensures { Finds (story_tree self.now) parts.now result }
    {
        let mut here = NodeId::ROOT;
        for part in parts {
            here = self.child(here, key_of(part))?;
        }
        Some(here)
    }

    /// The node one part down; none where nothing stands there. Takes no memory.
    pub fn child(&self, holder: NodeId, key: Key<'_>) -> Option<NodeId>
        ensures { Finds (story_tree self.now) (node_place (story_tree self.now) holder ++ key_part key.entry ∷ []) result }
    {
        match key {
            Key::Index(index) => self.child_at(holder, index),
            Key::Name(name) => self.child_by_name(holder, name),
        }
    }

    /// The node at an index; none where nothing stands there.
    pub(crate) fn child_at(&self, holder: NodeId, index: u32) -> Option<NodeId>
        ensures { Finds (story_tree self.now) (node_place (story_tree self.now) holder ++ Index index ∷ []) result }
    {
        if index < self.width(holder) {
            let number = self.children.at(holder.number, index as usize);
            self.near(number, holder, Key::Index(index))
        } else {
            None
        }
    }

    /// The node that a key leads to; none where nothing stands there.
    #[inline(always)]
    pub(crate) fn child_by_name(&self, holder: NodeId, name: &str) -> Option<NodeId>
        ensures { Finds (story_tree self.now) (node_place (story_tree self.now) holder ++ Name name.now ∷ []) result }
    {
        match self.noted_child(holder, name) {
            Some(node) => Some(node),
            None => self.unnoted_child(holder, name),
        }
    }

    /// The same where it is noted; none where it is not, or nothing stands there.
    #[inline(always)]
    pub(crate) fn noted_child(&self, holder: NodeId, name: &str) -> Option<NodeId>
        ensures { IfSome result (λ node. Finds (story_tree self.now) (node_place (story_tree self.now) holder ++ Name name.now ∷ []) (Some node)) }
    {
        let number = self.children.noted(self.own(holder).number, name);
        if self.is_child(number, holder, Key::Name(name)) {
            Some(NodeId { number })
        } else {
            None
        }
    }

    /// The same wherever it is, where it was found at no note.
    #[inline(never)]
    pub(crate) fn unnoted_child(&self, holder: NodeId, name: &str) -> Option<NodeId>
        ensures { Finds (story_tree self.now) (node_place (story_tree self.now) holder ++ Name name.now ∷ []) result }
    {
        let container = self.content_of(holder);
        if keys_of(container) == 0 {
            return None;
        }
        self.search(self.own(holder), name)
    }

    // The same among the keys in their order.
    fn search(&self, holder: NodeId, name: &str) -> Option<NodeId>
        ensures { Finds (story_tree self.now) (node_place (story_tree self.now) holder ++ Name name.now ∷ []) result }
    {
        let width = self.width(holder) as usize;
        let number = self
            .children
            .up_to(self.nodes(), holder.number, width, name);
        if self.is_gap(number, holder, Key::Name(name)) {
            None
        } else {
            self.near(number, holder, Key::Name(name))
        }
    }

    /// The node one part down, which is looked for at a number first.
    pub(crate) fn near(&self, number: usize, holder: NodeId, key: Key<'_>) -> Option<NodeId>
        ensures { Finds (story_tree self.now) (node_place (story_tree self.now) holder ++ key_part key.entry ∷ []) result }
    {
        if self.is_child(number, holder, key) {
            Some(NodeId { number })
        } else {
            self.scan(holder, key)
        }
    }

    // The same, looked for everywhere.
    fn scan(&self, holder: NodeId, key: Key<'_>) -> Option<NodeId>
        ensures { Finds (story_tree self.now) (node_place (story_tree self.now) holder ++ key_part key.entry ∷ []) result }
    {
        for number in 0..self.len() {
            if self.is_child(number, holder, key) {
                return Some(NodeId { number });
            }
        }
        None
    }

    /// Whether the node of a number stands one part down from a node.
    #[inline(always)]
    pub(crate) fn is_child(&self, number: usize, holder: NodeId, key: Key<'_>) -> bool
        ensures yes { result ≡ true → Finds (story_tree self.now) (node_place (story_tree self.now) holder ++ key_part key.entry ∷ []) (Some (record { number = number })) }
        ensures no { result ≡ false → number < length (places (story_tree self.now))
            → node_place (story_tree self.now) (record { number = number }) ≡ node_place (story_tree self.now) holder ++ key_part key.entry ∷ [] → ⊥ }
    {
        match self.part_in(holder, number) {
            Some(part) => is_part(part, key),
            None => false,
        }
    }

    /// The part that leads from a node to the content of a number; none where that does not stand one part down.
    #[inline(always)]
    pub(crate) fn part_in(&self, holder: NodeId, number: usize) -> Option<Key<'_>>
        ensures { LeadsTo (story_tree self.now) (node_place (story_tree self.now) holder) number result }
    {
        let own = self.own(holder);
        match self.nodes().get(number) {
            Some(node) => {
                if node.holder() as usize == own.number {
                    node.last()
                } else {
                    None
                }
            }
            None => None,
        }
    }
}

#[inline(always)]
fn is_part(part: Key<'_>, key: Key<'_>) -> bool
    ensures yes { result ≡ true → key_part part.entry ≡ key_part key.entry }
    ensures no { result ≡ false → key_part part.entry ≡ key_part key.entry → ⊥ }
{
    match (part, key) {
        (Key::Index(index), Key::Index(other)) => index == other,
        (Key::Name(name), Key::Name(other)) => same_name(name, other),
        (Key::Index(_), Key::Name(_)) | (Key::Name(_), Key::Index(_)) => false,
    }
}
