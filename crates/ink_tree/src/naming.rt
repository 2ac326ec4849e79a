//! Containers in a list by the names that they give themselves.

ghost use Rattle.std.specs.Prelude.{◌≡◌, ◌∷◌, [], ◌++◌, IfOk, option_map, slice_get};
ghost use Rattle.ink_model.specs.Story.Path.{listed_index};
ghost use Rattle.ink_model.specs.Run.Place.{is_named};
ghost use Rattle.ink_model.specs.Story.Tree.{at};
ghost use Rattle.ink_model.specs.declared.place.Part.TheVariants.{Index};
ghost use Rattle.ink_tree.specs.Contents.{name_in};
ghost use Rattle.ink_tree.specs.Names.{AreNamed, KeepsNames, MayKeepNames, MayShowNames};

use crate::content::{name_of, size_of};
use crate::names::{Listed, Names};
use crate::spot::NodeId;
use crate::tree::Tree;
use ink_json::{Key, Nodes};
use ink_model::Content;
use std::alloc::{AllocError, Global};

/// A list of at most so many contents is looked through each time.
const FEW: u32 = 8;

/// Of a list of more contents it is kept also that it has no names, so that none is looked for there in vain.
const MANY: u32 = 1_000;

impl Tree {
    ghost use Rattle.ink_tree.specs.Nodes.{story_tree, node_place};

    /// The names in the lists of those containers that are not just looked through, in reading order. The one error is a
    /// refused request for memory.
    pub(crate) fn list_names(&self) -> Result<Vec<Listed>, AllocError>
        ensures { IfOk result (λ lists. AreNamed (story_tree self.now) lists.items) }
    {
        let listed = listed_nodes(self.alloc, self.nodes())?;
        let mut lists = Vec::new(self.alloc);
        for number in 0..self.len() {
            if !is_listed(&listed, number) {
                continue;
            }
            let holder = NodeId { number };
            let Some(names) = self.new_names(holder)? else {
                continue;
            };
            lists.push(Listed { holder, names })?;
        }
        Ok(lists)
    }

    // The names in the list of one container, where there are any and it has more than a few contents, or where it has many.
    fn new_names(&self, holder: NodeId) -> Result<Option<Names>, AllocError>
        ensures { IfOk result (MayKeepNames (at (story_tree self.now) (node_place (story_tree self.now) holder))) }
    {
        let width = self.width(holder);
        if width <= FEW {
            return Ok(None);
        }
        let names = self.names_in(holder)?;
        if names.is_empty() && width <= MANY {
            Ok(None)
        } else {
            Ok(Some(names))
        }
    }

    // The names in the list of one container.
    fn names_in(&self, holder: NodeId) -> Result<Names, AllocError>
        ensures { IfOk result (KeepsNames (at (story_tree self.now) (node_place (story_tree self.now) holder))) }
    {
        let mut names = Names::none(self.alloc);
        let mut number = self.own(holder).number.wrapping_add(1);
        for index in 0..self.width(holder) {
            let own = self.name_near(number, holder, index);
            names.add(self.alloc, own, index)?;
            number = self.number_behind(number);
        }
        Ok(names)
    }

    /// The index in content of the first container that gives itself a name.
    pub(crate) fn listed_index(&self, here: NodeId, name: &str) -> Option<u32>
        ensures { result ≡ listed_index name.now (at (story_tree self.now) (node_place (story_tree self.now) here)) }
    {
        match self.names(here) {
            Some(names) => names.index(name),
            None => self.look_through(here, name),
        }
    }

    // The names that are kept of a container.
    fn names(&self, here: NodeId) -> Option<&Names>
        ensures { MayShowNames (at (story_tree self.now) (node_place (story_tree self.now) here)) result }
    {
        let own = self.own(here);
        match listed_at(&self.lists, position(&self.lists, own.number)) {
            Some(listed) if listed.holder.number == own.number => Some(&listed.names),
            _ => None,
        }
    }

    // The index, looked for in the list itself, of which one content comes behind another.
    fn look_through(&self, here: NodeId, name: &str) -> Option<u32>
        ensures { result ≡ listed_index name.now (at (story_tree self.now) (node_place (story_tree self.now) here)) }
    {
        let mut number = self.own(here).number.wrapping_add(1);
        for index in 0..self.width(here) {
            if is_name(name, self.name_near(number, here, index)) {
                return Some(index);
            }
            number = self.number_behind(number);
        }
        None
    }

    // The name that the content at an index gives itself, which is looked for at a number first.
    #[inline(always)]
    fn name_near(&self, number: usize, holder: NodeId, index: u32) -> Option<&str>
        ensures { option_map (λ n. n.now) result ≡ name_in (at (story_tree self.now) (node_place (story_tree self.now) holder ++ Index index ∷ [])) }
    {
        match self.child_near(number, holder, Key::Index(index)) {
            Some(node) => self.own_name(node),
            None => None,
        }
    }

    // The number behind those of a content and of all that is in it. Nothing rests on it: what is found there is looked at again.
    #[inline(always)]
    fn number_behind(&self, number: usize) -> usize {
        match self.nodes().get(number) {
            Some(node) => number.wrapping_add(size_of(node.content()) as usize),
            None => number,
        }
    }

    // The name that a content gives itself.
    #[tactic(auto, using(crate::proofs::Contents::name_seen))]
    fn own_name(&self, node: NodeId) -> Option<&str>
        ensures { option_map (λ n. n.now) result ≡ name_in (at (story_tree self.now) (node_place (story_tree self.now) node)) }
    {
        name_of(self.content_of(node))
    }
}

// Which contents hold a container that gives itself a name, or a long list, by number. Nothing rests on it: the names of the others
// are not listed.
fn listed_nodes(alloc: Global, nodes: &Nodes) -> Result<Vec<bool>, AllocError> {
    let mut listed = Vec::from_elem(alloc, false, nodes.len())?;
    for number in 0..nodes.len() {
        let node = nodes.at(number);
        if let Content::Container(container) = node.content() {
            if container.width > MANY {
                list(&mut listed, number);
            }
            if container.name.is_some() {
                list(&mut listed, node.holder() as usize);
            }
        }
    }
    Ok(listed)
}

// The names of the content of this number are listed.
fn list(listed: &mut Vec<bool>, number: usize) {
    if let Some(is_listed) = listed.get_mut(number) {
        *is_listed = true;
    }
}

fn is_listed(listed: &Vec<bool>, number: usize) -> bool {
    matches!(listed.get(number), Some(true))
}

// Whether a name is the one that content gives itself.
fn is_name(name: &str, own: Option<&str>) -> bool
    ensures { result ≡ is_named name.now (option_map (λ n. n.now) own.entry) }
{
    match own {
        Some(own) => name == own,
        None => false,
    }
}

// Where the names of a container are kept, if they are. Nothing rests on it: what is found there is looked at again.
fn position(lists: &Vec<Listed>, number: usize) -> usize {
    lists.partition_point(|listed| listed.holder.number < number)
}

// What is kept there.
fn listed_at(lists: &Vec<Listed>, position: usize) -> Option<&Listed>
    ensures { option_map (λ l. l.now) result ≡ slice_get lists.now.items position }
{
    lists.get(position)
}
