//! Places as JSON values and as their text, made from their ends.

ghost use Rattle.std.specs.Prelude.{◌≡◌, ◌++◌, ◌∷◌, [], IfOk, OnOk, flat_map, map, option_map};
ghost use Rattle.serde_json.specs.View.{view};
ghost use Rattle.ink_json.specs.Order.{key_part};
ghost use Rattle.ink_model.specs.Save.Spelling.{part_data, place_data, place_or_null};
ghost use Rattle.ink_model.specs.declared.place.Part.TheVariants.{Index};
ghost use Rattle.ink_tokens.specs.Tokens.{Added, data_tokens};
ghost use Rattle.ink_tree.specs.Nodes.{node_place, place_of, story_tree};

use crate::writing::write_text;
use crate::written::Written;
use ink_json::Key;
use ink_tokens::{put, put_natural};
use ink_tree::{NodeId, Spot, Tree};
use json::{Token, Writer};
use serde_json::{Number, Value as Json};
use std::alloc::{AllocError, Global};

impl Written for Spot {
    ghost spelling = { λ s spot. place_data (place_of s spot) };

    fn write(&self, alloc: Global, tree: &Tree) -> Result<Json, AllocError> {
        write_spot(alloc, tree, *self)
    }

    fn put(&self, _alloc: Global, tree: &Tree, out: &mut Writer) -> Result<(), AllocError> {
        put_spot(tree, out, *self)
    }
}

impl Written for Option<Spot> {
    ghost spelling = { λ s spot. place_or_null (option_map (place_of s) spot) };

    fn write(&self, alloc: Global, tree: &Tree) -> Result<Json, AllocError> {
        match self {
            Some(spot) => spot.write(alloc, tree),
            None => Ok(Json::Null),
        }
    }

    fn put(&self, alloc: Global, tree: &Tree, out: &mut Writer) -> Result<(), AllocError> {
        match self {
            Some(spot) => spot.put(alloc, tree, out),
            None => put(out, Token::Null),
        }
    }
}

// A place. The one error is a refused request for memory.
fn write_spot(alloc: Global, tree: &Tree, spot: Spot) -> Result<Json, AllocError>
    ensures { IfOk result (λ json. view json ≡ place_data (place_of (story_tree tree.now) spot)) }
{
    let parts = write_parts(alloc, tree, spot)?;
    Ok(Json::Array(parts))
}

// The parts of a place. The one error is a refused request for memory.
fn write_parts(alloc: Global, tree: &Tree, spot: Spot) -> Result<Vec<Json>, AllocError>
    ensures { IfOk result (λ made. map view made.items ≡ map part_data (place_of (story_tree tree.now) spot)) }
{
    match spot.index {
        Some(index) => write_under(alloc, tree, spot.holder, index),
        None => write_node(alloc, tree, spot.holder, 0),
    }
}

// The parts of the place at an index in a content. The one error is a refused request for memory.
fn write_under(
    alloc: Global,
    tree: &Tree,
    holder: NodeId,
    index: u32,
) -> Result<Vec<Json>, AllocError>
    ensures { IfOk result (λ made. map view made.items ≡ map part_data (node_place (story_tree tree.now) holder ++ Index index ∷ [])) }
{
    let mut made = write_node(alloc, tree, holder, 1)?;
    made.push(Json::Number(Number::from(index)))?;
    Ok(made)
}

// The parts of a content's place, the root's first, with room for so many more: each goes into room that was asked for once.
// The one error is a refused request for memory.
fn write_node(
    alloc: Global,
    tree: &Tree,
    node: NodeId,
    room: usize,
) -> Result<Vec<Json>, AllocError>
    ensures { IfOk result (λ made. map view made.items ≡ map part_data (node_place (story_tree tree.now) node)) }
{
    match tree.above(node) {
        Some((last, holder)) => {
            let mut made = write_node(alloc, tree, holder, room.saturating_add(1))?;
            made.push(write_key(alloc, last)?)?;
            Ok(made)
        }
        None => with_room(alloc, room),
    }
}

// No values yet, with room for so many. The one error is a refused request for memory.
fn with_room(alloc: Global, room: usize) -> Result<Vec<Json>, AllocError>
    ensures { IfOk result (λ made. map view made.items ≡ []) }
{
    Vec::with_capacity(alloc, room)
}

// A part. The one error is a refused request for memory, which is made for a name alone.
fn write_key(alloc: Global, key: Key<'_>) -> Result<Json, AllocError>
    ensures { IfOk result (λ json. view json ≡ part_data (key_part key.entry)) }
{
    match key {
        Key::Index(index) => Ok(Json::Number(Number::from(index))),
        Key::Name(name) => write_text(alloc, name),
    }
}

/// The tokens of a place. The one error is a refused request for memory.
pub(crate) fn put_spot(tree: &Tree, out: &mut Writer, spot: Spot) -> Result<(), AllocError>
    ensures { OnOk result (Added out.old out.new (data_tokens (place_data (place_of (story_tree tree.now) spot)))) }
{
    put(out, Token::BeginArray)?;
    put_parts(tree, out, spot)?;
    put(out, Token::EndArray)
}

// The tokens of the parts of a place. The one error is a refused request for memory.
fn put_parts(tree: &Tree, out: &mut Writer, spot: Spot) -> Result<(), AllocError>
    ensures { OnOk result (Added out.old out.new (flat_map data_tokens (map part_data (place_of (story_tree tree.now) spot)))) }
{
    match spot.index {
        Some(index) => {
            put_node(tree, out, spot.holder)?;
            put_natural(out, index as u64)
        }
        None => put_node(tree, out, spot.holder),
    }
}

// The tokens of the parts of a content's place, the root's first. The one error is a refused request for memory.
fn put_node(tree: &Tree, out: &mut Writer, node: NodeId) -> Result<(), AllocError>
    ensures { OnOk result (Added out.old out.new (flat_map data_tokens (map part_data (node_place (story_tree tree.now) node)))) }
{
    match tree.above(node) {
        Some((last, holder)) => {
            put_node(tree, out, holder)?;
            put_key(out, last)
        }
        None => Ok(()),
    }
}

// The token of a part. The one error is a refused request for memory.
fn put_key(out: &mut Writer, key: Key<'_>) -> Result<(), AllocError>
    ensures { OnOk result (Added out.old out.new (data_tokens (part_data (key_part key.entry)))) }
{
    match key {
        Key::Index(index) => put_natural(out, index as u64),
        Key::Name(name) => put(out, Token::String(name)),
    }
}
