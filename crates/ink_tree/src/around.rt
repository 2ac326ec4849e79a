//! Which places are around others.

ghost use Rattle.std.specs.Prelude.{◌≡◌, option_map};
ghost use Rattle.ink_model.specs.Run.Entered.{is_around, was_inside};

use crate::spot::{NodeId, Spot};
use crate::tree::Tree;
use ink_json::Key;

impl Tree {
    ghost use Rattle.ink_tree.specs.Nodes.{story_tree, node_place, place_of};

    /// Whether flow comes from a place in a container, or from that container.
    pub(crate) fn was_inside(&self, container: NodeId, previous: Option<Spot>) -> bool
        ensures { result ≡ was_inside (node_place (story_tree self.now) container) (option_map (place_of (story_tree self.now)) previous) }
    {
        match previous {
            None => false,
            Some(spot) => self.is_around_spot(container, spot),
        }
    }

    fn is_around_spot(&self, container: NodeId, spot: Spot) -> bool
        ensures { result ≡ is_around (node_place (story_tree self.now) container) (place_of (story_tree self.now) spot) }
    {
        match spot.index {
            None => self.is_around(container, spot.holder),
            Some(index) => {
                self.is_child(self.own(container).number, spot.holder, Key::Index(index))
                    || self.is_around(container, spot.holder)
            }
        }
    }

    // Whether a node is around another or is that node.
    fn is_around(&self, container: NodeId, node: NodeId) -> bool
        ensures { result ≡ is_around (node_place (story_tree self.now) container) (node_place (story_tree self.now) node) }
    {
        let container = self.own(container);
        let node = self.own(node);
        let behind = self.behind(container);
        container.number <= node.number && node.number < behind
    }
}
