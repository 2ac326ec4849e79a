//! Where a host's paths lead (docs/PROTOCOL.md, "Command lines").

ghost use Rattle.std.specs.Prelude.{◌≡◌, option_map};
ghost use Rattle.ink_check.specs.Standing as check;
ghost use Rattle.ink_model.specs.Story.Path as rules;
ghost use Rattle.ink_model.specs.Story.Path.{absolute_target};
ghost use Rattle.ink_commands.specs.Paths.{FindsPlace, refusal_of};
ghost use Rattle.ink_tree.specs.Nodes.{place_of, story_tree};

use ink_check::{Story, ends_in_index};
use ink_model::{Cause, Path, Refusal};
use ink_tree::{NodeId, Spot, Tree, read_path};
use std::alloc::Global;

/// Where a path lands: by a name, on the first content of a container. Refused with `NoSuchPath` where the text is no path, or a
/// relative one, or where it leads to nothing, and with `OutOfMemory` where memory for the path was refused.
pub(crate) fn landing_by(alloc: Global, story: &Story, path: &str) -> Result<Spot, Refusal>
    ensures { FindsPlace (check.story_tree story.now) path.now result }
{
    let path = match read_path(alloc, path) {
        Ok(path) => path,
        Err(refusal) => return Err(refusal_of(refusal.cause)),
    };
    match landing(story.tree(), &path) {
        Some(spot) => Ok(spot),
        None => Err(Refusal::NoSuchPath),
    }
}

/// Why a path was not read: it is none, unless memory was refused.
pub(crate) fn refusal_of(cause: Cause) -> Refusal
    ensures { result ≡ refusal_of cause }
{
    match cause {
        Cause::OutOfMemory => Refusal::OutOfMemory,
        _ => Refusal::NoSuchPath,
    }
}

// Where a path lands, if it is not relative and leads somewhere.
fn landing(tree: &Tree, path: &Path) -> Option<Spot>
    ensures { let s = story_tree tree.now in option_map (place_of s) result ≡ option_map (rules.landing s path.now) (absolute_target s path.now) }
{
    let spot = absolute_spot(tree, path)?;
    if ends_in_index(path.parts.as_slice()) {
        return Some(spot);
    }
    Some(tree.land(spot))
}

/// Where a path leads, if it is not relative.
pub(crate) fn absolute_spot(tree: &Tree, path: &Path) -> Option<Spot>
    ensures { let s = story_tree tree.now in option_map (place_of s) result ≡ absolute_target s path.now }
{
    if path.relative {
        return None;
    }
    tree.resolve(NodeId { number: 0 }, path)
}
