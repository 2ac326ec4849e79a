//! Flows by name, without the view on them.

ghost use Rattle.std.specs.Prelude.{◌≡◌, ◌++◌, [], ◌∷◌, None, Some, IfOk, OnErr, OnOk};
ghost use Rattle.indexmap.specs.IndexMap.{set_value_at};
ghost use Rattle.ink_flows.specs.declared.flow.Flow.{Flow as Made};
ghost use Rattle.ink_flows.specs.Standing.{flow_of, hole_in, listed, part_at, parts_of, rows_of};
ghost use Rattle.ink_model.specs.Run.Configuration.{fresh_flow};
ghost use Rattle.ink_model.specs.Variables.Named.{at, names};
ghost use Rattle.ink_model.specs.Story.Tree.{StoryTree};
ghost use Rattle.ink_tree.specs.Nodes.{place_of};

use crate::aside::DEFAULT_FLOW;
use crate::flow::Flow;
use indexmap::IndexMap;
use ink_model::Text;
use ink_tree::Spot;
use std::alloc::{AllocError, Global};
use std::mem;

/// The index of the name at which nothing stands.
#[tactic(auto, using(crate::proofs::Indexes::hole_start, crate::proofs::Indexes::hole_later, crate::proofs::Indexes::hole_here))]
pub(crate) fn hole(rows: &IndexMap<String, Option<Flow>>) -> Option<usize>
    ensures { result ≡ hole_in (parts_of rows.now.entries) }
{
    for (index, flow) in rows.values().enumerate() {
        if flow.is_none() {
            return Some(index);
        }
    }
    None
}

/// Puts the names behind those that were found. The one error is a refused request for memory.
pub(crate) fn add_names(
    found: &mut Vec<Text>,
    alloc: Global,
    rows: &IndexMap<String, Option<Flow>>,
) -> Result<(), AllocError>
    ensures { OnOk result (found.new.items ≡ found.old.items ++ names (rows_of rows.now.entries)) }
{
    for name in rows.keys() {
        found.push(Text::from_str(alloc, name.as_str())?)?;
    }
    Ok(())
}

/// A flow of a name that is not there, at a place, behind all others. The one error is a refused request for memory, after which
/// the same flows are there.
pub(crate) fn make(
    rows: &mut IndexMap<String, Option<Flow>>,
    alloc: Global,
    name: &str,
    start: Spot,
) -> Result<(), AllocError>
    requires { at name.now (listed (rows_of rows.old.entries)) ≡ None }
    ensures ok { OnOk result ((made : Made) × (rows_of rows.new.entries ≡ listed (rows_of rows.old.entries) ++ (name.now, Some made) ∷ []) × ((s : StoryTree) → flow_of s made ≡ fresh_flow (place_of s start))) }
    ensures err { OnErr result (listed (rows_of rows.new.entries) ≡ listed (rows_of rows.old.entries)) }
{
    let key = String::from_str(alloc, name)?;
    list_first(rows, alloc)?;
    rows.insert(key, Some(Flow::new(alloc, Some(start))))?;
    Ok(())
}

// The first flow has a row of its own then, where it is the only one and has none. The one error is a refused request for memory.
fn list_first(rows: &mut IndexMap<String, Option<Flow>>, alloc: Global) -> Result<(), AllocError>
    ensures same { listed (rows_of rows.new.entries) ≡ listed (rows_of rows.old.entries) }
    ensures ok { OnOk result (rows_of rows.new.entries ≡ listed (rows_of rows.old.entries)) }
{
    if rows.is_empty() {
        let first = String::from_str(alloc, DEFAULT_FLOW)?;
        rows.insert(first, None)?;
    }
    Ok(())
}

/// Puts a flow, or none, at an index, and answers the one that stood there.
pub(crate) fn replace_at(
    rows: &mut IndexMap<String, Option<Flow>>,
    index: usize,
    flow: Option<Flow>,
) -> Option<Flow>
    ensures rows { rows.new.entries ≡ set_value_at rows.old.entries index flow }
    ensures before { result ≡ part_at index rows.old.entries }
{
    match rows.get_index_mut(index) {
        Some(slot) => mem::replace(slot, flow),
        None => None,
    }
}
