//! Where flow starts, lands and goes on (docs/RUNNING.md, "Places").

ghost use Rattle.std.specs.Prelude.{◌≡◌, ◌++◌, ◌∷◌, [], option_map};
ghost use Rattle.ink_model.specs.Run.Place.{landed, next_place, start_place};
ghost use Rattle.ink_model.specs.declared.place.Part.TheVariants.{Index};

use crate::spot::{NodeId, Spot};
use crate::tree::Tree;

impl Tree {
    ghost use Rattle.ink_tree.specs.Nodes.{story_tree, node_place, place_of};

    /// Where the story starts. Takes no memory.
    #[tactic(auto, using(crate::proofs::Next::starts))]
    pub fn start(&self) -> Spot
        ensures { place_of (story_tree self.now) result ≡ start_place (story_tree self.now) }
    {
        let root = Spot::of(NodeId::ROOT);
        self.land(root)
    }

    /// Where flow lands on a container: on its first content, or on the container itself where it is empty. At any other
    /// place it lands where that is. Takes no memory.
    pub fn land(&self, spot: Spot) -> Spot
        ensures { place_of (story_tree self.now) result ≡ landed (story_tree self.now) (place_of (story_tree self.now) spot) }
    {
        let Some(node) = self.node(spot) else {
            return spot;
        };
        match self.first(node) {
            Some(first) => Spot::of(first),
            None => spot,
        }
    }

    /// The place after a place; none where flow stops. Takes no memory.
    #[inline(always)]
    pub fn next(&self, spot: Spot) -> Option<Spot>
        ensures { option_map (place_of (story_tree self.now)) result ≡ next_place (story_tree self.now) (place_of (story_tree self.now) spot) }
    {
        let next = match spot.index {
            None => self.next_node(spot.holder),
            Some(index) => self.next_at(spot.holder, index),
        };
        match next {
            Some(node) => Some(Spot::of(node)),
            None => None,
        }
    }

    // The content after a content.
    #[inline(always)]
    fn next_node(&self, node: NodeId) -> Option<NodeId>
        ensures { option_map (node_place (story_tree self.now)) result ≡ next_place (story_tree self.now) (node_place (story_tree self.now) node) }
    {
        match self.linked(node) {
            Some(link) => link.next(),
            None => self.next_of(&self.links, node),
        }
    }

    // The content after an index in a content.
    #[inline(never)]
    fn next_at(&self, holder: NodeId, index: u32) -> Option<NodeId>
        ensures { option_map (node_place (story_tree self.now)) result
            ≡ next_place (story_tree self.now) (node_place (story_tree self.now) holder ++ Index index ∷ []) }
    {
        if (index as usize) + 1 < self.width(holder) as usize {
            self.child_at(holder, index + 1)
        } else {
            self.next_node(holder)
        }
    }
}
