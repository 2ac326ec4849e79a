//! What a save keeps as a JSON value.

ghost use Rattle.std.specs.Prelude.{◌≡◌, IfOk, OnOk};
ghost use Rattle.serde_json.specs.View.{members_view, view};
ghost use Rattle.ink_model.specs.Save.Spelling.{spelling};
ghost use Rattle.ink_parts.specs.Parts.{kept_as};
ghost use Rattle.ink_parts.specs.Written.{shared_members};
ghost use Rattle.ink_tree.specs.Nodes.{story_tree};

use crate::counts::add_counts;
use crate::flows::add_flows;
use crate::globals::write_globals;
use crate::kept::Kept;
use crate::members::add_number;
use ink_tree::Tree;
use serde_json::{Map, Value as Json, put as put_entry};
use std::alloc::{AllocError, Global};

/// What a save keeps as a JSON value. The one error is a refused request for memory.
pub fn write(alloc: Global, tree: &Tree, kept: &Kept<'_>) -> Result<Json, AllocError>
    ensures { let s = story_tree tree.now in IfOk result (λ json. view json ≡ spelling (kept_as s kept.now)) }
{
    let mut members = Map::new(alloc);
    add_shared(alloc, tree, &mut members, kept)?;
    add_flows(alloc, tree, &mut members, kept.flow, kept.aside)?;
    Ok(Json::Object(members))
}

// Puts the members of what all flows share, and the format. The one error is a refused request for memory.
fn add_shared(
    alloc: Global,
    tree: &Tree,
    members: &mut Map<String, Json>,
    kept: &Kept<'_>,
) -> Result<(), AllocError>
    ensures { OnOk result (members_view members.new.entries ≡ shared_members (kept_as (story_tree tree.now) kept.now).now.shared (members_view members.old.entries)) }
{
    add_number(alloc, members, "format", 2)?;
    let globals = write_globals(alloc, tree, kept.globals)?;
    put_entry(members, alloc, "globals", globals)?;
    add_number(alloc, members, "turn", kept.turn.number() as u64)?;
    add_counts(alloc, tree, members, "turns", kept.turns)?;
    add_counts(alloc, tree, members, "visits", kept.visits)
}
