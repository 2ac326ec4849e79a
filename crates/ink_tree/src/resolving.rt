//! Where paths lead (docs/STORY_FORMAT.md, "Paths").

ghost use Rattle.std.specs.Prelude.{◌≡◌, List, Some, IfSome, option_map};
ghost use Rattle.ink_model.specs.Story.Path.{by_name, is_up, stepped, stepped_last, target, walked};
ghost use Rattle.ink_path.specs.Components.{part_of};
ghost use Rattle.ink_model.specs.declared.place.Part.{Part as Way};
ghost use Rattle.ink_model.specs.declared.place.Part.TheVariants.{Index, Name};

use crate::spot::{NodeId, Spot};
use crate::tree::Tree;
use ink_model::{Part, Path};
use ink_path::Component;

impl Tree {
    ghost use Rattle.ink_tree.specs.Nodes.{story_tree, node_place, place_of};

    /// Where a path leads from content; none where it leads nowhere. Takes no memory.
    #[inline(always)]
    pub fn resolve(&self, from: NodeId, path: &Path) -> Option<Spot>
        ensures { option_map (place_of (story_tree self.now)) result
            ≡ target (story_tree self.now) (node_place (story_tree self.now) from) path.now }
    {
        match self.noted_knot(path) {
            Some(knot) => Some(Spot::of(knot)),
            None => self.follow_path(from, path),
        }
    }

    // The knot that a path names, where its key is noted. Most targets are of this kind.
    #[inline(always)]
    fn noted_knot(&self, path: &Path) -> Option<NodeId>
        ensures { IfSome result (λ knot. (from : List Way) → Some (node_place (story_tree self.now) knot) ≡ target (story_tree self.now) from path.now) }
    {
        match path.parts.as_slice().split_last() {
            Some((Part::Name(name), others)) if others.is_empty() && !path.relative => {
                self.noted_step(NodeId::ROOT, name.as_str())
            }
            _ => None,
        }
    }

    // One name further, where its key is noted.
    #[inline(always)]
    fn noted_step(&self, here: NodeId, name: &str) -> Option<NodeId>
        ensures { IfSome result (λ node. Some (node_place (story_tree self.now) node)
            ≡ stepped (story_tree self.now) (node_place (story_tree self.now) here) (Name name.now)) }
    {
        if is_up(name) {
            return None;
        }
        self.noted_child(here, name)
    }

    // Where any path leads, by one component after another.
    #[inline(never)]
    fn follow_path(&self, from: NodeId, path: &Path) -> Option<Spot>
        ensures { option_map (place_of (story_tree self.now)) result
            ≡ target (story_tree self.now) (node_place (story_tree self.now) from) path.now }
    {
        let start = if path.relative { from } else { NodeId::ROOT };
        self.walk(start, path.parts.as_slice())
    }

    // Where components lead from content.
    fn walk(&self, from: NodeId, components: &[Part]) -> Option<Spot>
        ensures { option_map (place_of (story_tree self.now)) result
            ≡ walked (story_tree self.now) (node_place (story_tree self.now) from) components.now }
    {
        let Some((last, others)) = components.split_last() else {
            return Some(Spot::of(from));
        };
        let mut here = from;
        for component in others {
            here = self.step(here, component_of(component))?;
        }
        self.last_step(here, component_of(last))
    }

    /// One component further.
    #[inline(always)]
    pub(crate) fn step(&self, here: NodeId, component: Component<'_>) -> Option<NodeId>
        ensures { option_map (node_place (story_tree self.now)) result
            ≡ stepped (story_tree self.now) (node_place (story_tree self.now) here) (part_of component.entry) }
    {
        match component {
            Component::Index(index) => self.step_in(here, index),
            Component::Name(name) => self.step_named(here, name),
        }
    }

    // The same by a name.
    #[inline(always)]
    fn step_named(&self, here: NodeId, name: &str) -> Option<NodeId>
        ensures { option_map (node_place (story_tree self.now)) result
            ≡ stepped (story_tree self.now) (node_place (story_tree self.now) here) (Name name.now) }
    {
        if is_up(name) {
            return self.holder(here);
        }
        self.step_by_name(here, name)
    }

    fn step_in(&self, here: NodeId, index: u32) -> Option<NodeId>
        ensures { option_map (node_place (story_tree self.now)) result
            ≡ stepped (story_tree self.now) (node_place (story_tree self.now) here) (Index index) }
    {
        self.child_at(here, index)
    }

    // To the container given by key, or else to the first in the list that gives itself the name.
    #[inline(always)]
    fn step_by_name(&self, here: NodeId, name: &str) -> Option<NodeId>
        ensures { option_map (node_place (story_tree self.now)) result
            ≡ by_name (story_tree self.now) (node_place (story_tree self.now) here) name.now }
    {
        match self.noted_child(here, name) {
            Some(node) => Some(node),
            None => self.step_unnoted(here, name),
        }
    }

    // The same where no key of the name is noted.
    #[inline(never)]
    fn step_unnoted(&self, here: NodeId, name: &str) -> Option<NodeId>
        ensures { option_map (node_place (story_tree self.now)) result
            ≡ by_name (story_tree self.now) (node_place (story_tree self.now) here) name.now }
    {
        if let Some(node) = self.unnoted_child(here, name) {
            return Some(node);
        }
        let index = self.listed_index(here, name)?;
        self.child_at(here, index)
    }

    /// The last component, an index of which may be a container's end.
    #[inline(always)]
    pub(crate) fn last_step(&self, here: NodeId, component: Component<'_>) -> Option<Spot>
        ensures { option_map (place_of (story_tree self.now)) result
            ≡ stepped_last (story_tree self.now) (node_place (story_tree self.now) here) (part_of component.entry) }
    {
        match component {
            Component::Index(index) => self.last_step_in(here, index),
            Component::Name(name) => {
                let holder = self.step_named(here, name)?;
                Some(Spot::of(holder))
            }
        }
    }

    fn last_step_in(&self, here: NodeId, index: u32) -> Option<Spot>
        ensures { option_map (place_of (story_tree self.now)) result
            ≡ stepped_last (story_tree self.now) (node_place (story_tree self.now) here) (Index index) }
    {
        if self.reaches(here, index) {
            Some(self.by_node(Spot {
                holder: here,
                index: Some(index),
            }))
        } else {
            None
        }
    }

    // The same place, by the number of the content there, where content stands there.
    fn by_node(&self, spot: Spot) -> Spot
        ensures { place_of (story_tree self.now) result ≡ place_of (story_tree self.now) spot }
    {
        match self.node(spot) {
            Some(node) => Spot::of(node),
            None => spot,
        }
    }
}

// A component, lent.
fn component_of(part: &Part) -> Component<'_>
    ensures { part_of result ≡ part.now }
{
    match part {
        Part::Index(index) => Component::Index(*index),
        Part::Name(name) => Component::Name(name.as_str()),
    }
}

// Whether a name leads one part up. Most do not, which their length tells.
#[inline(always)]
fn is_up(name: &str) -> bool
    ensures { result ≡ is_up name.now }
{
    name.len() == 1 && name == "^"
}
