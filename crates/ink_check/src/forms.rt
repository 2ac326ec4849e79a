//! The forms of content that have a path (docs/STORY_FORMAT.md, "Paths").

ghost use Rattle.std.specs.Prelude.{◌≡◌, ℕ, List, Some, OnOk, option_map};
ghost use Rattle.ink_check.specs.Links as links;
ghost use Rattle.ink_check.specs.Names.{variable_name, with_variable};
ghost use Rattle.ink_check.specs.Outcome.{Follows};
ghost use Rattle.ink_model.specs.Story.Tree as trees;
ghost use Rattle.ink_model.specs.declared.content.Leaf.{Leaf as AnyLeaf};
ghost use Rattle.ink_tree.specs.Nodes.{story_tree};

use crate::leading::{follow, link};
use crate::link::{Link, Purpose};
use crate::names::{number, variable};
use ink_model::choice_flags::is_once_only;
use ink_model::{Destination, Failure, Leaf};
use ink_names::Names;
use ink_tree::{NodeId, Tree};
use std::alloc::Global;

/// What the path of a leaf comes to; of a leaf without one, the number of its variable, if it has one, whose name comes to the
/// names where it is not among them.
#[inline(always)]
pub(crate) fn leaf_link(
    alloc: Global,
    tree: &Tree,
    names: &mut Names,
    node: NodeId,
    leaf: &Leaf,
) -> Result<Link, Failure<NodeId>>
    ensures names { OnOk result (names.new ≡ with_variable (variable_name leaf.now) names.old) }
    ensures link { Follows (story_tree tree.now) names.new node (Some (trees.leaf leaf.now)) result }
{
    if let Some((text, purpose)) = written(leaf) {
        return path_link(alloc, tree, node, text, purpose);
    }
    match variable(leaf) {
        Some(name) => Ok(Link::Variable(number(alloc, names, name)?)),
        None => Ok(Link::Nothing),
    }
}

// What a path comes to that is written for a purpose.
#[inline(never)]
fn path_link(
    alloc: Global,
    tree: &Tree,
    node: NodeId,
    text: &str,
    purpose: Purpose,
) -> Result<Link, Failure<NodeId>>
    ensures { (names : List (List ℕ)) (leaf : AnyLeaf) → links.written leaf ≡ Some (text.now, purpose)
        → Follows (story_tree tree.now) names node (Some (trees.leaf leaf)) result }
{
    let lead = follow(tree, node, text)?;
    match link(alloc, tree, text, lead, purpose) {
        Ok(Some(link)) => Ok(link),
        Ok(None) => Err(Failure::Refused(node)),
        Err(_) => Err(Failure::OutOfMemory),
    }
}

// The path that a leaf has, and what it is for.
fn written(leaf: &Leaf) -> Option<(&str, Purpose)>
    ensures { option_map (λ w. (w.0.now, w.1)) result ≡ links.written leaf.now }
{
    match leaf {
        Leaf::Target(text) => Some((text.as_str(), Purpose::Value)),
        Leaf::Count(text) => Some((text.as_str(), Purpose::Count)),
        Leaf::Divert { to, .. } | Leaf::Call { to, .. } | Leaf::Tunnel { to, .. } => {
            destination(to)
        }
        Leaf::Choice { target, flags } => Some((target.as_str(), choice_purpose(*flags))),
        _ => None,
    }
}

fn destination(to: &Destination) -> Option<(&str, Purpose)>
    ensures { option_map (λ w. (w.0.now, w.1)) result ≡ links.destination to.now }
{
    match to {
        Destination::Path(text) => Some((text.as_str(), Purpose::Flow)),
        Destination::Variable(_) => None,
    }
}

fn choice_purpose(flags: u8) -> Purpose
    ensures { result ≡ links.choice_purpose flags }
{
    if is_once_only(flags) {
        Purpose::OnceOnly
    } else {
        Purpose::Flow
    }
}
