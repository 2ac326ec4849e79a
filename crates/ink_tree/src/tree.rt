//! A story's content by number.

ghost use Rattle.std.specs.Prelude.{◌≡◌, length, Some, None, IfOk, IfErr, IsOk, true, is_some, if◌then◌else◌, option_map, [], ◌∷◌, ◌++◌, ◌<◌, ◌^◌};
ghost use Rattle.ink_json.specs.Order.{keys_rise};
ghost use Rattle.ink_json.specs.Story.{tree};
ghost use Rattle.ink_model.specs.Run.Entered.{flags_at};
ghost use Rattle.ink_model.specs.Story.Grammar.{here, IsSpelled};
ghost use Rattle.ink_model.specs.Story.Path.{is_place};
ghost use Rattle.ink_model.specs.Run.Place as rules;
ghost use Rattle.ink_model.specs.Story.Places.{places};
ghost use Rattle.ink_model.specs.Story.Tree.{at};
ghost use Rattle.ink_model.specs.Story.View.{own_content};
ghost use Rattle.ink_model.specs.declared.fault.Cause.TheVariants.{OutOfMemory};
ghost use Rattle.ink_model.specs.declared.place.Part.TheVariants.{Index};
ghost use Rattle.ink_tree.specs.Kept.{AreLinked, leaf_in};
ghost use Rattle.ink_tree.specs.Names.{AreNamed};

use crate::children::Children;
use crate::content::{flags_of, leaf_of};
use crate::link::Link;
use crate::names::Listed;
use crate::spot::{NodeId, Spot};
use ink_json::{RawStory, part_of};
use ink_model::{Cause, Content, Leaf, Part, Place, ReadRefusal};
use std::alloc::{AllocError, Global};

/// A story's content, each by its number in reading order, with what a step asks of it. It never changes.
#[derive(Drop)]
pub struct Tree {
    pub(crate) alloc: Global,
    pub(crate) raw: RawStory,
    pub(crate) children: Children,
    pub(crate) links: Vec<Link>,
    pub(crate) lists: Vec<Listed>,
    ghost few: { length (places (tree raw)) < 2 ^ 32 },
    ghost rising: { keys_rise (tree raw) ≡ true },
    ghost spelled: { IsSpelled (tree raw) },
    ghost linked: { AreLinked (tree raw) links.items },
    ghost named: { AreNamed (tree raw) lists.items },
}

impl Tree {
    ghost use Rattle.ink_tree.specs.Nodes.{story_tree, node_place, place_of, MayBeNode, Finds};

    /// The tree of a story that was read, which some bytes spell. `OutOfMemory` is the one refusal, at the root.
    pub fn build(alloc: Global, raw: RawStory) -> Result<Tree, ReadRefusal>
        ensures ok { IfOk result (λ t. story_tree t ≡ tree raw) }
        ensures spelled { IfOk result (λ t. IsSpelled (story_tree t)) }
        ensures err { IfErr result (λ r. r ≡ here OutOfMemory) }
    {
        match Tree::number(alloc, raw) {
            Ok(tree) => Ok(tree),
            Err(_) => Err(ReadRefusal::at_root(alloc, Cause::OutOfMemory)),
        }
    }

    // The tree of a story that was read. The one error is a refused request for memory.
    fn number(alloc: Global, raw: RawStory) -> Result<Tree, AllocError>
        ensures ok { IfOk result (λ t. story_tree t ≡ tree raw) }
        ensures spelled { IfOk result (λ t. IsSpelled (story_tree t)) }
    {
        let children = Children::of(alloc, raw.nodes())?;
        let bare = Tree {
            alloc,
            raw,
            children,
            links: Vec::new(alloc),
            lists: Vec::new(alloc),
        };
        let links = bare.link_all()?;
        let lists = bare.list_names()?;
        let Tree {
            alloc,
            raw,
            children,
            ..
        } = bare;
        Ok(Tree {
            alloc,
            raw,
            children,
            links,
            lists,
        })
    }

    /// How many contents the story has. Their numbers are those below it. Takes no memory.
    pub fn len(&self) -> usize
        ensures all { result ≡ length (places (story_tree self.now)) }
        ensures few { result < 2 ^ 31 }
    {
        self.nodes().len()
    }

    /// The content at a place, none where nothing stands there. Takes no memory.
    pub fn content(&self, spot: Spot) -> Option<&Content>
        ensures { option_map (λ c. c.now) result ≡ option_map own_content (at (story_tree self.now) (place_of (story_tree self.now) spot)) }
    {
        match spot.index {
            Some(index) => self.content_in(spot.holder, index),
            None => Some(self.content_of(spot.holder)),
        }
    }

    /// The content at a place, where it holds no other. Takes no memory.
    #[inline(always)]
    pub fn leaf_at(&self, spot: Spot) -> Option<&Leaf>
        ensures { option_map (λ l. l.now) result ≡ leaf_in (at (story_tree self.now) (place_of (story_tree self.now) spot)) }
    {
        match spot.index {
            Some(index) => self.leaf_in(spot.holder, index),
            None => self.leaf(spot.holder),
        }
    }

    // The same at an index in a content.
    #[inline(never)]
    fn leaf_in(&self, holder: NodeId, index: u32) -> Option<&Leaf>
        ensures { option_map (λ l. l.now) result ≡ leaf_in (at (story_tree self.now) (node_place (story_tree self.now) holder ++ Index index ∷ [])) }
    {
        match self.child_at(holder, index) {
            Some(node) => self.leaf(node),
            None => None,
        }
    }

    /// The content of a node, where it holds no other. Takes no memory.
    #[inline(always)]
    #[tactic(auto, using(crate::proofs::Contents::leaf_seen))]
    pub fn leaf(&self, node: NodeId) -> Option<&Leaf>
        ensures { option_map (λ l. l.now) result ≡ leaf_in (at (story_tree self.now) (node_place (story_tree self.now) node)) }
    {
        leaf_of(self.content_of(node))
    }

    // The content at an index in a content.
    fn content_in(&self, holder: NodeId, index: u32) -> Option<&Content>
        ensures { option_map (λ c. c.now) result ≡ option_map own_content (at (story_tree self.now) (node_place (story_tree self.now) holder ++ Index index ∷ [])) }
    {
        match self.child_at(holder, index) {
            Some(node) => Some(self.content_of(node)),
            None => None,
        }
    }

    /// The place of a spot. The one error is a refused request for memory, which is never made for the root.
    pub fn place(&self, spot: Spot) -> Result<Place, AllocError>
        ensures place { IfOk result (λ place. place ≡ place_of (story_tree self.now) spot) }
        ensures root { place_of (story_tree self.now) spot ≡ [] → IsOk result }
    {
        match spot.index {
            Some(index) => self.place_under(spot.holder, Part::Index(index)),
            None => self.place_at(spot.holder),
        }
    }

    // The place of a node.
    #[cycle(place)]
    fn place_at(&self, node: NodeId) -> Result<Place, AllocError>
        ensures place { IfOk result (λ place. place ≡ node_place (story_tree self.now) node) }
        ensures root { node_place (story_tree self.now) node ≡ [] → IsOk result }
    {
        match self.above(node) {
            Some((last, holder)) => {
                let last = part_of(self.alloc, last)?;
                self.place_under(holder, last)
            }
            None => Ok(Place::root(self.alloc)),
        }
    }

    // The place one part down from a node.
    #[cycle(place)]
    fn place_under(&self, holder: NodeId, last: Part) -> Result<Place, AllocError>
        ensures { IfOk result (λ place. place ≡ node_place (story_tree self.now) holder ++ last ∷ []) }
    {
        let mut place = self.place_at(holder)?;
        place.push(last)?;
        Ok(place)
    }

    /// The spot of a place; none where the story has no such place. Takes no memory.
    pub fn spot(&self, parts: &[Part]) -> Option<Spot>
        ensures { option_map (place_of (story_tree self.now)) result
            ≡ (if is_place (story_tree self.now) parts.now then Some parts.now else None) }
    {
        match parts.split_last() {
            Some((Part::Index(index), up)) => self.spot_in(up, *index),
            Some((Part::Name(_), _)) => self.spot_on(parts),
            None => self.spot_on(parts),
        }
    }

    /// The spot of content itself.
    fn spot_on(&self, parts: &[Part]) -> Option<Spot>
        ensures { option_map (place_of (story_tree self.now)) result
            ≡ (if is_some (at (story_tree self.now) parts.now) then Some parts.now else None) }
    {
        Some(Spot::of(self.find(parts)?))
    }

    /// The spot of an index in what stands at a place.
    fn spot_in(&self, up: &[Part], index: u32) -> Option<Spot>
        ensures { option_map (place_of (story_tree self.now)) result
            ≡ (if is_place (story_tree self.now) (up.now ++ Index index ∷ []) then Some (up.now ++ Index index ∷ []) else None) }
    {
        let holder = self.find(up)?;
        if self.reaches(holder, index) {
            Some(Spot {
                holder,
                index: Some(index),
            })
        } else {
            None
        }
    }

    /// The content at a place, by number; none where nothing stands there. Takes no memory.
    pub fn node(&self, spot: Spot) -> Option<NodeId>
        ensures { Finds (story_tree self.now) (place_of (story_tree self.now) spot) result }
    {
        match spot.index {
            Some(index) => self.child_at(spot.holder, index),
            None => Some(self.own(spot.holder)),
        }
    }

    /// The flags of a container, 0 of other content. Takes no memory.
    #[tactic(auto, using(crate::proofs::Contents::flags_seen))]
    pub fn flags(&self, node: NodeId) -> u8
        ensures { result ≡ flags_at (at (story_tree self.now) (node_place (story_tree self.now) node)) }
    {
        flags_of(self.content_of(node))
    }

    /// The knot of a name: the container of the root that has it as its key, or else the first in the root's list that gives
    /// itself that name. Takes no memory.
    pub fn knot(&self, name: &str) -> Option<NodeId>
        ensures place { option_map (node_place (story_tree self.now)) result ≡ rules.knot name.now (story_tree self.now) }
        ensures inside { MayBeNode (story_tree self.now) result }
    {
        let root = NodeId::ROOT;
        if let Some(node) = self.child_by_name(root, name) {
            return Some(node);
        }
        let index = self.listed_index(root, name)?;
        self.child_at(root, index)
    }
}
