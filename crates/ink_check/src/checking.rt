//! Accepting a story (docs/STORY_FORMAT.md, "Paths").

ghost use Rattle.std.specs.Prelude.{◌≡◌, ◌⊎◌, [], map, Some, IfOk, IfErr, OnOk, Ok, Err};
ghost use Rattle.ink_check.specs.Links.{counted_place, number_of, pushed_of, pushed_path, target_place};
ghost use Rattle.ink_check.specs.Names.{variable_number, variable_of, with_variable};
ghost use Rattle.ink_check.specs.Outcome.{Follows, IsFirstBad, IsRefusedFor};
ghost use Rattle.ink_check.specs.Standing.{story_tree};
ghost use Rattle.ink_json.specs.Story.{tree};
ghost use Rattle.ink_model.specs.Story.Acceptance.{accepted, bad_places, counted_container, written_target};
ghost use Rattle.ink_model.specs.Story.Grammar.{here};
ghost use Rattle.ink_model.specs.Story.Places.{places};
ghost use Rattle.ink_model.specs.Story.Tree.{at};
ghost use Rattle.ink_model.specs.declared.fault.Cause.TheVariants.{OutOfMemory};
ghost use Rattle.ink_tree.specs.Nodes as nodes;

use crate::forms::leaf_link;
use crate::link::Link;
use crate::links::Links;
use crate::story::Story;
use ink_json::RawStory;
use ink_model::{Cause, Failure, ReadRefusal};
use ink_names::Names;
use ink_tree::{NodeId, Spot, Tree};
use std::alloc::Global;

/// Accepts a story that was read.
///
/// `BadPath` at the first content, in reading order, whose path does not lead where it has to; `OutOfMemory` at the root for
/// a refused request for memory, which every story makes: for the numbers of its content.
pub fn check(alloc: Global, raw: RawStory) -> Result<Story, ReadRefusal>
    ensures ok { IfOk result (λ s. accepted (tree raw) ≡ Ok (story_tree s)) }
    ensures err { IfErr result (λ r. (r ≡ here OutOfMemory) ⊎ (accepted (tree raw) ≡ Err r)) }
{
    let tree = Tree::build(alloc, raw)?;
    match written_links(alloc, &tree) {
        Ok(links) => Ok(Story { tree, links }),
        Err(failure) => Err(refusal(alloc, &tree, failure)),
    }
}

// What the paths of all content come to and the numbers of their variables, in reading order, or the first bad path.
fn written_links(alloc: Global, tree: &Tree) -> Result<Links, Failure<NodeId>>
    ensures good { IfOk result (λ _. bad_places (nodes.story_tree tree.now) ≡ []) }
    ensures leading { let s = nodes.story_tree tree.now in
        IfOk result (λ links. map (target_place s) links ≡ map (written_target s) (places s)) }
    ensures counting { let s = nodes.story_tree tree.now in
        IfOk result (λ links. map (counted_place s) links ≡ map (counted_container s) (places s)) }
    ensures pushing { let s = nodes.story_tree tree.now in
        IfOk result (λ links. map pushed_of links ≡ map (λ p. pushed_path (at s p)) (places s)) }
    ensures numbering { let s = nodes.story_tree tree.now in
        IfOk result (λ links. map number_of links ≡ map (variable_number s) (places s)) }
    ensures err { IfErr result (λ failure. IsFirstBad (nodes.story_tree tree.now) failure) }
{
    let mut names = Names::new(alloc);
    links_of(alloc, tree, &mut names)
}

// The same. The names of variables come to these, of which there is none yet.
fn links_of(alloc: Global, tree: &Tree, names: &mut Names) -> Result<Links, Failure<NodeId>>
    requires { names.old ≡ [] }
    ensures good { IfOk result (λ _. bad_places (nodes.story_tree tree.now) ≡ []) }
    ensures leading { let s = nodes.story_tree tree.now in
        IfOk result (λ links. map (target_place s) links ≡ map (written_target s) (places s)) }
    ensures counting { let s = nodes.story_tree tree.now in
        IfOk result (λ links. map (counted_place s) links ≡ map (counted_container s) (places s)) }
    ensures pushing { let s = nodes.story_tree tree.now in
        IfOk result (λ links. map pushed_of links ≡ map (λ p. pushed_path (at s p)) (places s)) }
    ensures numbering { let s = nodes.story_tree tree.now in
        IfOk result (λ links. map number_of links ≡ map (variable_number s) (places s)) }
    ensures err { IfErr result (λ failure. IsFirstBad (nodes.story_tree tree.now) failure) }
{
    let mut links = Links::with_capacity(alloc, tree.len())?;
    for number in 0..tree.len() {
        let node = NodeId { number };
        let link = node_link(alloc, tree, names, node)?;
        links.add(link)?;
    }
    links.trim();
    Ok(links)
}

// What the path of one content comes to, or the number of its variable, whose name is among the names then.
#[inline(always)]
fn node_link(
    alloc: Global,
    tree: &Tree,
    names: &mut Names,
    node: NodeId,
) -> Result<Link, Failure<NodeId>>
    ensures names { let s = nodes.story_tree tree.now in OnOk result (names.new ≡ with_variable (variable_of (at s (nodes.node_place s node))) names.old) }
    ensures link { let s = nodes.story_tree tree.now in Follows s names.new node (at s (nodes.node_place s node)) result }
{
    match tree.leaf(node) {
        Some(leaf) => leaf_link(alloc, tree, names, node, leaf),
        None => Ok(Link::Nothing),
    }
}

// The refusal, at the place of the bad path.
fn refusal(alloc: Global, tree: &Tree, failure: Failure<NodeId>) -> ReadRefusal
    ensures { IsRefusedFor (nodes.story_tree tree.now) failure result }
{
    let place = match failure {
        Failure::OutOfMemory => None,
        Failure::Refused(node) => tree.place(Spot::of(node)).ok(),
    };
    match place {
        Some(place) => ReadRefusal {
            cause: Cause::BadPath,
            place,
        },
        None => ReadRefusal::at_root(alloc, Cause::OutOfMemory),
    }
}
