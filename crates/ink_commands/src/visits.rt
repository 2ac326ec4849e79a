//! Visits by a path (docs/PROTOCOL.md, "Command lines").

ghost use Rattle.std.specs.Prelude.{◌≡◌, option_and_then};
ghost use Rattle.ink_check.specs.Standing as check;
ghost use Rattle.ink_model.specs.Story.Path.{absolute_target};
ghost use Rattle.ink_commands.specs.Visits.{FindsVisits, visits_at};
ghost use Rattle.ink_step.specs.Standing.{config_of};

use crate::path::{absolute_spot, refusal_of};
use ink_check::Story;
use ink_model::{Path, Refusal};
use ink_step::Machine;
use ink_tree::read_path;
use std::alloc::Global;

/// How often the container at a path was visited. Refused with `NoSuchPath` where the text is no path, or a relative one, or
/// where it leads to nothing whose visits are counted, and with `OutOfMemory` where memory for the path was refused.
pub fn visits_by(
    alloc: Global,
    story: &Story,
    machine: &Machine,
    path: &str,
) -> Result<i32, Refusal>
    ensures { let s = check.story_tree story.now in FindsVisits s path.now (config_of s machine.now) result }
{
    let path = match read_path(alloc, path) {
        Ok(path) => path,
        Err(refusal) => return Err(refusal_of(refusal.cause)),
    };
    match counted(story, machine, &path) {
        Some(visits) => Ok(visits),
        None => Err(Refusal::NoSuchPath),
    }
}

// The visits of the container to which a path leads; none where it leads to nothing that is counted.
fn counted(story: &Story, machine: &Machine, path: &Path) -> Option<i32>
    ensures { let s = check.story_tree story.now in
        result ≡ option_and_then (λ q. visits_at s q (config_of s machine.now)) (absolute_target s path.now) }
{
    let tree = story.tree();
    let spot = absolute_spot(tree, path)?;
    let container = tree.node(spot)?;
    machine.visits(story, container).ok()
}
