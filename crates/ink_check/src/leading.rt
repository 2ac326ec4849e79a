//! Where a written path leads.

ghost use Rattle.std.specs.Prelude.{◌≡◌, Some, None, IfOk, OnErr, if◌then◌else◌, option_map};
ghost use Rattle.ink_check.specs.Links.{IsCountOf, IsLinkFor};
ghost use Rattle.ink_check.specs.Outcome.{Leads};
ghost use Rattle.ink_model.specs.Story.Acceptance.{is_counted};
ghost use Rattle.ink_model.specs.Story.Path as paths;
ghost use Rattle.ink_model.specs.Story.Path.{ends_in_index, read_path};
ghost use Rattle.ink_model.specs.Story.Tree.{StoryTree};
ghost use Rattle.ink_model.specs.declared.place.Path.{Path};
ghost use Rattle.ink_tree.specs.Nodes.{node_place, place_of, story_tree};

use crate::link::{Link, Purpose};
use ink_model::flags::counts_visits;
use ink_model::{Failure, Part, Shared};
use ink_tree::{Lead, NodeId, Spot, Tree, read_path};
use std::alloc::{AllocError, Global};

/// Where the path of a content leads, which is bad where that is nowhere. Takes no memory.
pub(crate) fn follow(tree: &Tree, node: NodeId, text: &str) -> Result<Lead, Failure<NodeId>>
    ensures { Leads (story_tree tree.now) node text.now result }
{
    match tree.lead(node, text) {
        Some(lead) => Ok(lead),
        None => Err(Failure::Refused(node)),
    }
}

/// What a path comes to that leads there; none where it is bad for that purpose. The one error is a refused request for memory,
/// which a value alone makes: its path is kept.
pub(crate) fn link(
    alloc: Global,
    tree: &Tree,
    text: &str,
    lead: Lead,
    purpose: Purpose,
) -> Result<Option<Link>, AllocError>
    ensures link { let s = story_tree tree.now in (path : Path) → read_path text.now ≡ Some path → ends_in_index path.parts ≡ lead.by_index
        → IfOk result (λ link. IsLinkFor s purpose path (place_of s lead.spot) link) }
    ensures memory { OnErr result (purpose ≡ Purpose.Value) }
{
    match purpose {
        Purpose::Value => value(alloc, text, lead),
        Purpose::Flow => Ok(Some(Link::Flows(landing(tree, lead)))),
        Purpose::Count => Ok(counting(tree, lead.spot, lead.spot)),
        Purpose::OnceOnly => Ok(counting(tree, lead.spot, landing(tree, lead))),
    }
}

// The path itself, unless it is relative.
fn value(alloc: Global, text: &str, lead: Lead) -> Result<Option<Link>, AllocError>
    ensures { (s : StoryTree) (path : Path) → read_path text.now ≡ Some path → IfOk result (λ link. IsLinkFor s Purpose.Value path (place_of s lead.spot) link) }
{
    let Ok(path) = read_path(alloc, text) else {
        return Err(AllocError);
    };
    if path.relative {
        return Ok(None);
    }
    let path = Shared::new(alloc, path)?;
    Ok(Some(Link::Pushes(lead.spot, path)))
}

// A place, with the container to which a path leads, where visits are counted there.
fn counting(tree: &Tree, led: Spot, target: Spot) -> Option<Link>
    ensures { let s = story_tree tree.now in IsCountOf s (place_of s led) (place_of s target) result }
{
    match counted(tree, led) {
        Some(container) => Some(Link::Counts(target, container)),
        None => None,
    }
}

// Where flow lands: by a name, on the first content of a container.
fn landing(tree: &Tree, lead: Lead) -> Spot
    ensures { let s = story_tree tree.now in (path : Path) → ends_in_index path.parts ≡ lead.by_index
        → place_of s result ≡ paths.landing s path (place_of s lead.spot) }
{
    if lead.by_index {
        lead.spot
    } else {
        tree.land(lead.spot)
    }
}

// The container to which a path leads, where visits are counted there.
fn counted(tree: &Tree, led: Spot) -> Option<NodeId>
    ensures { let s = story_tree tree.now in let p = place_of s led in
        option_map (node_place s) result ≡ (if is_counted s (Some p) then Some p else None) }
{
    let node = tree.node(led)?;
    if counts_visits(tree.flags(node)) {
        Some(node)
    } else {
        None
    }
}

/// Whether the last component of a path is an index. Takes no memory.
pub fn ends_in_index(parts: &[Part]) -> bool
    ensures { result ≡ paths.ends_in_index parts.now }
{
    match parts.last() {
        Some(Part::Index(_)) => true,
        Some(Part::Name(_)) => false,
        None => false,
    }
}
