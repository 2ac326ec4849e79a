//! Accepted stories (docs/STORY_FORMAT.md, "Paths").

ghost use Rattle.std.specs.Prelude.{◌≡◌, [], map, option_and_then, option_map};
ghost use Rattle.ink_check.specs.Links.{counted_place, number_of, pushed_of, pushed_path, target_place};
ghost use Rattle.ink_check.specs.Names.{variable_number};
ghost use Rattle.ink_model.specs.Story.Acceptance.{bad_places, counted_container, written_target};
ghost use Rattle.ink_model.specs.Story.Grammar.{IsSpelled};
ghost use Rattle.ink_model.specs.Story.Places.{places};
ghost use Rattle.ink_model.specs.Story.Tree.{at};
ghost use Rattle.ink_tree.specs.Nodes as nodes;

use crate::link::Link;
use crate::links::Links;
use ink_model::{Path, Shared};
use ink_tree::{NodeId, Spot, Tree};

/// An accepted story: each written path in it leads somewhere. It never changes.
pub struct Story {
    pub(crate) tree: Tree,
    pub(crate) links: Links,
    ghost good: { bad_places (nodes.story_tree tree) ≡ [] },
    ghost spelled: { IsSpelled (nodes.story_tree tree) },
    ghost leading: { let s = nodes.story_tree tree in map (target_place s) links ≡ map (written_target s) (places s) },
    ghost counting: { let s = nodes.story_tree tree in map (counted_place s) links ≡ map (counted_container s) (places s) },
    ghost pushing: { let s = nodes.story_tree tree in map pushed_of links ≡ map (λ p. pushed_path (at s p)) (places s) },
    ghost numbering: { let s = nodes.story_tree tree in map number_of links ≡ map (variable_number s) (places s) },
}

/// Written out, so that wherever a story is let go that is one call, and a proof there does not go through its contents.
impl Drop for Story {
    fn drop(self) {
        let Story { tree: _, links: _ } = self;
    }
}

impl Story {
    ghost use Rattle.ink_check.specs.Standing.{story_tree};

    /// The story's content, by number. Some bytes spell it, so that all limits hold in it. Takes no memory.
    pub fn tree(&self) -> &Tree
        ensures tree { nodes.story_tree result.now ≡ story_tree self.now }
        ensures good { bad_places (story_tree self.now) ≡ [] }
        ensures spelled { IsSpelled (story_tree self.now) }
    {
        &self.tree
    }

    /// Where the written path of a content leads: the landing of a divert, a call, a tunnel or a choice, and the target of a
    /// value or a count; none for content without a written path. Takes no memory.
    #[inline(always)]
    pub fn target(&self, node: NodeId) -> Option<Spot>
        ensures { option_map (nodes.place_of (story_tree self.now)) result
            ≡ written_target (story_tree self.now) (nodes.node_place (story_tree self.now) node) }
    {
        self.link(node)?.target()
    }

    /// The container whose visits a content asks for: a count, or a choice that is offered once only; none for other content.
    /// By a name a choice lands on the first content of that container, where it has any; by an index on the container itself.
    /// Takes no memory.
    pub fn counted(&self, node: NodeId) -> Option<NodeId>
        ensures { option_map (nodes.node_place (story_tree self.now)) result
            ≡ counted_container (story_tree self.now) (nodes.node_place (story_tree self.now) node) }
    {
        self.link(node)?.counted()
    }

    /// The path that a content pushes, read and shared; none for content that pushes none. Takes no memory.
    pub fn pushed(&self, node: NodeId) -> Option<&Shared<Path>>
        ensures { let s = story_tree self.now in option_map (λ path. path.now) result ≡ pushed_path (at s (nodes.node_place s node)) }
    {
        self.link(node)?.pushed()
    }

    /// The number of the variable that a content reads or assigns, or declares as a global: the index of its name among the
    /// story's names of variables, in order of their first occurrence; none for other content. Takes no memory.
    #[inline(always)]
    pub fn variable(&self, node: NodeId) -> Option<usize>
        ensures { let s = story_tree self.now in result ≡ variable_number s (nodes.node_place s node) }
    {
        self.link(node)?.variable()
    }

    // The link of a content, where it is something; a number beyond the story's content stands for the root.
    #[inline(always)]
    fn link(&self, node: NodeId) -> Option<&Link>
        ensures target { let s = story_tree self.now in option_and_then (λ l. target_place s l.now) result ≡ written_target s (nodes.node_place s node) }
        ensures counted { let s = story_tree self.now in option_and_then (λ l. counted_place s l.now) result ≡ counted_container s (nodes.node_place s node) }
        ensures pushed { let s = story_tree self.now in option_and_then (λ l. pushed_of l.now) result ≡ pushed_path (at s (nodes.node_place s node)) }
        ensures number { let s = story_tree self.now in option_and_then (λ l. number_of l.now) result ≡ variable_number s (nodes.node_place s node) }
    {
        self.links.at(node.number)
    }
}
