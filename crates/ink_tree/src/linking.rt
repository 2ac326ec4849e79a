//! Linking each content to the one after it.

ghost use Rattle.std.specs.Prelude.{◌≡◌, ◌<◌, ◌^◌, ◌∷◌, [], ◌++◌, ◌||◌, ℕ, List, false, nat_lt, IfOk, Option, Some, length, option_map, reverse, slice_get};
ghost use Rattle.ink_json.specs.Order.{key_part};
ghost use Rattle.ink_model.specs.Variables.Counts.{CountsOf};
ghost use Rattle.ink_model.specs.Run.Entered.{entered_places, flags_at};
ghost use Rattle.ink_model.specs.Run.Place.{next_place};
ghost use Rattle.ink_model.specs.Story.Places.{places};
ghost use Rattle.ink_model.specs.Story.Tree.{at};
ghost use Rattle.ink_model.specs.Run.Visits.{all_visited};
ghost use Rattle.ink_model.specs.declared.place.Part.{Part as Step};
ghost use Rattle.ink_tree.specs.Kept.{AreLinked, IsLinked, MayBeLinked, flagged_above};

use crate::link::Link;
use crate::spot::{NodeId, Spot};
use crate::tree::Tree;
use ink_json::Key;
use std::alloc::AllocError;

impl Tree {
    ghost use Rattle.ink_tree.specs.Nodes.{story_tree, node_place, place_of, Finds, IsAbove};

    /// The links of all contents, in reading order. The one error is a refused request for memory.
    pub(crate) fn link_all(&self) -> Result<Vec<Link>, AllocError>
        ensures linked { IfOk result (λ links. AreLinked (story_tree self.now) links.items) }
        ensures all { IfOk result (λ links. length links.items ≡ length (places (story_tree self.now))) }
    {
        let mut links = Vec::with_capacity(self.alloc, self.len())?;
        for number in 0..self.len() {
            let own = self.new_link(&links, NodeId { number });
            links.push(own)?;
        }
        Ok(links)
    }

    // The link of one content, given those of the ones before it.
    #[inline(always)]
    fn new_link(&self, links: &Vec<Link>, node: NodeId) -> Link
        requires linked { AreLinked (story_tree self.now) links.now.items }
        requires few { length (places (story_tree self.now)) < 2 ^ 31 }
        ensures { IsLinked (story_tree self.now) (node_place (story_tree self.now) node) result }
    {
        match self.above(node) {
            Some((last, holder)) => Link::to(
                self.next_in(links, node, last, holder),
                self.has_flags_from(links, holder),
            ),
            None => Link::to(None, false),
        }
    }

    // Whether a container around a content has flags, given the links of some.
    #[cycle(flagged)]
    fn is_flagged(&self, links: &Vec<Link>, node: NodeId) -> bool
        requires { AreLinked (story_tree self.now) links.now.items }
        ensures { result ≡ flagged_above (story_tree self.now) (reverse (node_place (story_tree self.now) node)) }
    {
        match self.above(node) {
            Some((_, holder)) => self.has_flags_from(links, holder),
            None => false,
        }
    }

    // The same from the container around it on.
    #[cycle(flagged)]
    #[inline(always)]
    fn has_flags_from(&self, links: &Vec<Link>, holder: NodeId) -> bool
        requires { AreLinked (story_tree self.now) links.now.items }
        ensures { result ≡ (nat_lt 0 (flags_at (at (story_tree self.now) (node_place (story_tree self.now) holder)))
            || flagged_above (story_tree self.now) (reverse (node_place (story_tree self.now) holder))) }
    {
        self.flags(holder) > 0
            || match link_at(links, holder.number) {
                Some(around) => around.is_under_flags(),
                None => self.is_flagged(links, holder),
            }
    }

    /// Whether a container around a place has flags: where none has, entering them counts nothing. Takes no memory.
    pub fn has_flags_around(&self, at: Spot) -> bool
        ensures flags { result ≡ flagged_above (story_tree self.now) (reverse (place_of (story_tree self.now) at)) }
        ensures none { result ≡ false → (previous : Option (List Step)) (turn : ℕ) (counts : CountsOf (List Step))
            → all_visited (story_tree self.now) turn (entered_places (story_tree self.now) previous (place_of (story_tree self.now) at)) counts ≡ counts }
    {
        match at.index {
            Some(_) => self.flags(at.holder) > 0 || self.node_has_flags_around(at.holder),
            None => self.node_has_flags_around(at.holder),
        }
    }

    // The same for a content.
    #[inline(always)]
    fn node_has_flags_around(&self, node: NodeId) -> bool
        ensures { result ≡ flagged_above (story_tree self.now) (reverse (node_place (story_tree self.now) node)) }
    {
        match self.linked(node) {
            Some(link) => link.is_under_flags(),
            None => self.is_flagged(&self.links, node),
        }
    }

    /// The link of a node.
    pub(crate) fn linked(&self, node: NodeId) -> Option<&Link>
        ensures { MayBeLinked (story_tree self.now) (node_place (story_tree self.now) node) result }
    {
        link_at(&self.links, node.number)
    }

    /// The content after a content, given the links of some.
    #[cycle(next)]
    pub(crate) fn next_of(&self, links: &Vec<Link>, node: NodeId) -> Option<NodeId>
        requires { AreLinked (story_tree self.now) links.now.items }
        ensures { option_map (node_place (story_tree self.now)) result
            ≡ next_place (story_tree self.now) (node_place (story_tree self.now) node) }
    {
        match self.above(node) {
            Some((last, holder)) => self.next_in(links, node, last, holder),
            None => None,
        }
    }

    // The same, where the part is known that leads to it from the container around it.
    #[cycle(next)]
    #[inline(always)]
    fn next_in(
        &self,
        links: &Vec<Link>,
        node: NodeId,
        last: Key<'_>,
        holder: NodeId,
    ) -> Option<NodeId>
        requires linked { AreLinked (story_tree self.now) links.now.items }
        requires above { IsAbove (story_tree self.now) (node_place (story_tree self.now) node) (Some (last, holder)) }
        ensures { option_map (node_place (story_tree self.now)) result
            ≡ next_place (story_tree self.now) (node_place (story_tree self.now) node) }
    {
        match last {
            Key::Index(index) => {
                if (index as usize) + 1 < self.width(holder) as usize {
                    let behind = self.behind(self.own(node));
                    self.child_near(behind, holder, Key::Index(index + 1))
                } else {
                    match link_at(links, holder.number) {
                        Some(around) => around.next(),
                        None => self.next_of(links, holder),
                    }
                }
            }
            Key::Name(_) => None,
        }
    }

    /// The node one part down, which as a rule is that of a number.
    #[inline(always)]
    pub(crate) fn child_near(&self, number: usize, holder: NodeId, key: Key<'_>) -> Option<NodeId>
        ensures { Finds (story_tree self.now) (node_place (story_tree self.now) holder ++ key_part key.entry ∷ []) result }
    {
        if self.is_child(number, holder, key) {
            Some(NodeId { number })
        } else {
            self.near(number, holder, key)
        }
    }
}

// The link at a number.
#[inline(always)]
fn link_at(links: &Vec<Link>, number: usize) -> Option<&Link>
    ensures { option_map (λ l. l.now) result ≡ slice_get links.now.items number }
{
    links.get(number)
}
