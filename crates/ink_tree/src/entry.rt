//! The first content from a place on (docs/RUNNING.md, "Places").

ghost use Rattle.std.specs.Prelude.{◌≡◌, option_map};
ghost use Rattle.ink_model.specs.Run.Place.{content_place};
ghost use Rattle.ink_model.specs.Story.Tree.{at};
ghost use Rattle.ink_model.specs.Story.View.{own_content};
ghost use Rattle.ink_tree.specs.Kept.{first_inside, leaf_in};
ghost use Rattle.ink_tree.specs.Walks.{GoesIn};

use crate::content::width_of;
use crate::spot::{NodeId, Spot};
use crate::tree::Tree;
use ink_model::{Content, Leaf};

impl Tree {
    ghost use Rattle.ink_tree.specs.Nodes.{story_tree, node_place, place_of, MayBeNode};

    /// Where a step at a place performs: down from what stands there to its first content that holds no other by index. And
    /// that content, none where nothing stands there. Takes no memory.
    pub fn first_content(&self, spot: Spot) -> (Spot, Option<&Content>)
        ensures spot { place_of (story_tree self.now) result.0 ≡ content_place (story_tree self.now) (place_of (story_tree self.now) spot) }
        ensures content { option_map (λ c. c.now) result.1 ≡ option_map own_content (at (story_tree self.now) (place_of (story_tree self.now) result.0)) }
    {
        match self.node(spot) {
            None => (spot, None),
            Some(node) => {
                let first = self.first_in(node);
                (Spot::of(first), Some(self.content_of(first)))
            }
        }
    }

    /// The same with the content only where it holds no other: none for an empty container. Takes no memory.
    pub fn first_leaf(&self, spot: Spot) -> (Spot, Option<&Leaf>)
        ensures spot { place_of (story_tree self.now) result.0 ≡ content_place (story_tree self.now) (place_of (story_tree self.now) spot) }
        ensures leaf { option_map (λ l. l.now) result.1 ≡ leaf_in (at (story_tree self.now) (place_of (story_tree self.now) result.0)) }
    {
        match self.node(spot) {
            None => (spot, None),
            Some(node) => {
                let first = self.first_in(node);
                (Spot::of(first), self.leaf(first))
            }
        }
    }

    // The first content in a node that holds no other by index.
    fn first_in(&self, node: NodeId) -> NodeId
        ensures { node_place (story_tree self.now) result ≡ content_place (story_tree self.now) (node_place (story_tree self.now) node) }
    {
        let mut here = node;
        while let Some(first) = self.first(here) {
            here = first;
        }
        here
    }

    /// The first content by index in a node, none where it holds none. Takes no memory.
    #[tactic(auto, using(crate::proofs::Kept::first_is_node, crate::proofs::Kept::goes_in))]
    pub fn first(&self, node: NodeId) -> Option<NodeId>
        ensures place { option_map (node_place (story_tree self.now)) result ≡ first_inside (story_tree self.now) (node_place (story_tree self.now) node) }
        ensures inside { MayBeNode (story_tree self.now) result }
        ensures goes_in { GoesIn (story_tree self.now) (node_place (story_tree self.now) node) result }
    {
        self.first_child(node)
    }

    // The first content in a content comes right behind it in reading order.
    fn first_child(&self, node: NodeId) -> Option<NodeId>
        ensures { option_map (node_place (story_tree self.now)) result
            ≡ first_inside (story_tree self.now) (node_place (story_tree self.now) node) }
    {
        let own = self.own(node);
        if width_of(self.kept_own(own).content()) > 0 {
            Some(NodeId {
                number: own.number + 1,
            })
        } else {
            None
        }
    }
}
