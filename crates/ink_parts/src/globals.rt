//! Globals as JSON values, and as their text.

ghost use Rattle.std.specs.Prelude.{◌≡◌, ◌∷◌, IfOk, OnOk, codes, flat_map, map};
ghost use Rattle.json.specs.Token as tokens;
ghost use Rattle.serde_json.specs.View.{view};
ghost use Rattle.ink_model.specs.Save.Spelling.{global_data, list_data};
ghost use Rattle.ink_tokens.specs.Tokens.{Added, data_tokens};

use crate::writing::write_text;
use crate::written::Written;
use ink_model::Value;
use ink_tokens::{put, write_value};
use ink_tree::Tree;
use ink_vars::Globals;
use json::{Token, Writer};
use serde_json::Value as Json;
use std::alloc::{AllocError, Global};

/// Globals, in order of declaration. The one error is a refused request for memory.
pub(crate) fn write_globals(
    alloc: Global,
    tree: &Tree,
    globals: &Globals,
) -> Result<Json, AllocError>
    ensures { IfOk result (λ json. view json ≡ list_data global_data globals.now.rows) }
{
    let made = write_rows(alloc, tree, globals)?;
    Ok(Json::Array(made))
}

// The JSON values of globals. The one error is a refused request for memory.
fn write_rows(alloc: Global, tree: &Tree, globals: &Globals) -> Result<Vec<Json>, AllocError>
    ensures { IfOk result (λ made. map view made.items ≡ map global_data globals.now.rows) }
{
    let mut made = Vec::new(alloc);
    for index in 0..globals.len() {
        let Some((name, value)) = globals.pair(index) else {
            return Ok(made);
        };
        made.push(write_global(alloc, tree, name, value)?)?;
    }
    Ok(made)
}

// A global: its name and its value. The one error is a refused request for memory.
fn write_global(alloc: Global, tree: &Tree, name: &str, value: &Value) -> Result<Json, AllocError>
    ensures { IfOk result (λ json. view json ≡ global_data (name.now, value.now)) }
{
    let mut pair = Vec::with_capacity(alloc, 2)?;
    pair.push(write_text(alloc, name)?)?;
    pair.push(value.write(alloc, tree)?)?;
    Ok(Json::Array(pair))
}

/// The member with globals. The one error is a refused request for memory.
pub(crate) fn put_globals(
    alloc: Global,
    out: &mut Writer,
    globals: &Globals,
) -> Result<(), AllocError>
    ensures { OnOk result (Added out.old out.new (tokens.key (codes "globals") ∷ data_tokens (list_data global_data globals.now.rows))) }
{
    put(out, Token::Key("globals"))?;
    put(out, Token::BeginArray)?;
    put_rows(alloc, out, globals)?;
    put(out, Token::EndArray)
}

// The tokens of globals. The one error is a refused request for memory.
fn put_rows(alloc: Global, out: &mut Writer, globals: &Globals) -> Result<(), AllocError>
    ensures { OnOk result (Added out.old out.new (flat_map data_tokens (map global_data globals.now.rows))) }
{
    for index in 0..globals.len() {
        let Some((global, value)) = globals.pair(index) else {
            return Ok(());
        };
        put_global(alloc, out, global, value)?;
    }
    Ok(())
}

// The tokens of a global. The one error is a refused request for memory.
fn put_global(alloc: Global, out: &mut Writer, name: &str, value: &Value) -> Result<(), AllocError>
    ensures { OnOk result (Added out.old out.new (data_tokens (global_data (name.now, value.now)))) }
{
    put(out, Token::BeginArray)?;
    put(out, Token::String(name))?;
    write_value(alloc, out, value)?;
    put(out, Token::EndArray)
}
