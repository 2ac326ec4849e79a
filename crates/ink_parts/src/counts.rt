//! Visits and turns as JSON values, and as their text.

ghost use Rattle.std.specs.Prelude.{◌≡◌, ◌∷◌, IfOk, OnOk, flat_map, map};
ghost use Rattle.json.specs.Token as tokens;
ghost use Rattle.serde_json.specs.Data as entries;
ghost use Rattle.serde_json.specs.View.{members_view, view};
ghost use Rattle.ink_model.specs.Save.Spelling.{list_data, place_data, row_data};
ghost use Rattle.ink_parts.specs.Counted.{place_at, rows_at};
ghost use Rattle.ink_tokens.specs.Tokens.{Added, data_tokens};
ghost use Rattle.ink_tree.specs.Nodes.{story_tree};
ghost use Rattle.ink_vars.specs.Slots.{rows_from};

use crate::placed::put_spot;
use crate::written::Written;
use ink_tokens::{put, put_natural};
use ink_tree::{NodeId, Spot, Tree};
use json::{Token, Writer};
use serde_json::{Map, Number, Value as Json, put as put_entry};
use std::alloc::{AllocError, Global};

/// Puts the member of this name with counts by the numbers of containers, in their order. The one error is a refused request for
/// memory.
pub(crate) fn add_counts(
    alloc: Global,
    tree: &Tree,
    members: &mut Map<String, Json>,
    name: &str,
    slots: &[Option<u32>],
) -> Result<(), AllocError>
    ensures { let counts = list_data row_data (rows_at (story_tree tree.now) (rows_from 0 slots.now)) in
        OnOk result (members_view members.new.entries ≡ entries.put name.now counts (members_view members.old.entries)) }
{
    let made = write_slots(alloc, tree, slots)?;
    put_entry(members, alloc, name, Json::Array(made))
}

// The JSON values of counts. The one error is a refused request for memory.
fn write_slots(alloc: Global, tree: &Tree, slots: &[Option<u32>]) -> Result<Vec<Json>, AllocError>
    ensures { IfOk result (λ made. map view made.items ≡ map row_data (rows_at (story_tree tree.now) (rows_from 0 slots.now))) }
{
    let mut made = Vec::new(alloc);
    for number in 0..slots.len() {
        if let Some(count) = slots[number] {
            made.push(write_row(alloc, tree, number, count)?)?;
        }
    }
    Ok(made)
}

// A count: the place of its container, and the number. The one error is a refused request for memory.
fn write_row(alloc: Global, tree: &Tree, number: usize, count: u32) -> Result<Json, AllocError>
    ensures { IfOk result (λ json. view json ≡ row_data (place_at (story_tree tree.now) number, count)) }
{
    let mut pair = Vec::with_capacity(alloc, 2)?;
    pair.push(write_place(alloc, tree, number)?)?;
    pair.push(Json::Number(Number::from(count)))?;
    Ok(Json::Array(pair))
}

// The place of a container. The one error is a refused request for memory.
fn write_place(alloc: Global, tree: &Tree, number: usize) -> Result<Json, AllocError>
    ensures { IfOk result (λ json. view json ≡ place_data (place_at (story_tree tree.now) number)) }
{
    Spot::of(NodeId { number }).write(alloc, tree)
}

/// The member of this name with counts. The one error is a refused request for memory.
pub(crate) fn put_counts(
    tree: &Tree,
    out: &mut Writer,
    name: &str,
    slots: &[Option<u32>],
) -> Result<(), AllocError>
    ensures { let s = story_tree tree.now in
        OnOk result (Added out.old out.new (tokens.key name.now ∷ data_tokens (list_data row_data (rows_at s (rows_from 0 slots.now))))) }
{
    put(out, Token::Key(name))?;
    put(out, Token::BeginArray)?;
    put_slots(tree, out, slots)?;
    put(out, Token::EndArray)
}

// The tokens of counts. The one error is a refused request for memory.
fn put_slots(tree: &Tree, out: &mut Writer, slots: &[Option<u32>]) -> Result<(), AllocError>
    ensures { OnOk result (Added out.old out.new (flat_map data_tokens (map row_data (rows_at (story_tree tree.now) (rows_from 0 slots.now))))) }
{
    for number in 0..slots.len() {
        if let Some(count) = slots[number] {
            put_row(tree, out, number, count)?;
        }
    }
    Ok(())
}

// The tokens of a count. The one error is a refused request for memory.
fn put_row(tree: &Tree, out: &mut Writer, number: usize, count: u32) -> Result<(), AllocError>
    ensures { OnOk result (Added out.old out.new (data_tokens (row_data (place_at (story_tree tree.now) number, count)))) }
{
    put(out, Token::BeginArray)?;
    put_spot(tree, out, Spot::of(NodeId { number }))?;
    put_natural(out, count as u64)?;
    put(out, Token::EndArray)
}
