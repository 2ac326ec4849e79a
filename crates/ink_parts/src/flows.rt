//! Flows as JSON values, and as their text.

ghost use Rattle.std.specs.Prelude.{◌≡◌, ◌∷◌, IfOk, OnOk, codes, flat_map, map, option_map, unwrap_or};
ghost use Rattle.json.specs.Token as tokens;
ghost use Rattle.serde_json.specs.View.{members_view, view};
ghost use Rattle.ink_flows.specs.Standing.{aside_of, flow_of};
ghost use Rattle.ink_model.specs.Run.Flows.{all_flows};
ghost use Rattle.ink_model.specs.Save.Spelling.{flow_members, list_data, named_flow_data};
ghost use Rattle.ink_parts.specs.Parts.{flows_members, row_in};
ghost use Rattle.ink_tokens.specs.Tokens.{Added, data_tokens};
ghost use Rattle.ink_tree.specs.Nodes.{story_tree};

use crate::members::{add_flag, add_text};
use crate::written::{add_member, put_member};
use ink_flows::{Aside, Flow};
use ink_tokens::{put, put_flag, put_text};
use ink_tree::Tree;
use json::{Token, Writer};
use serde_json::{Map, Value as Json, put as put_entry};
use std::alloc::{AllocError, Global};

// ---- as JSON values

/// Puts the members with all flows and with the current one's name. The one error is a refused request for memory.
pub(crate) fn add_flows(
    alloc: Global,
    tree: &Tree,
    members: &mut Map<String, Json>,
    current: &Flow,
    aside: &Aside,
) -> Result<(), AllocError>
    ensures { let s = story_tree tree.now in OnOk result (members_view members.new.entries ≡ flows_members (flow_of s current.now) (aside_of s aside.now) (members_view members.old.entries)) }
{
    let flows = write_flows(alloc, tree, current, aside)?;
    put_entry(members, alloc, "flows", flows)?;
    add_text(alloc, members, "current", aside.current_name())
}

// All flows, in order of making. The one error is a refused request for memory.
fn write_flows(
    alloc: Global,
    tree: &Tree,
    current: &Flow,
    aside: &Aside,
) -> Result<Json, AllocError>
    ensures { let s = story_tree tree.now in
        IfOk result (λ json. view json ≡ list_data named_flow_data (all_flows (flow_of s current.now) (aside_of s aside.now))) }
{
    let made = write_rows(alloc, tree, current, aside)?;
    Ok(Json::Array(made))
}

// The JSON values of all flows. The one error is a refused request for memory.
fn write_rows(
    alloc: Global,
    tree: &Tree,
    current: &Flow,
    aside: &Aside,
) -> Result<Vec<Json>, AllocError>
    ensures { IfOk result (λ made. map view made.items ≡ map (row_in (story_tree tree.now) current.now) aside.now) }
{
    let mut made = Vec::new(alloc);
    for index in 0..aside.len() {
        let Some((name, flow)) = aside.get(index) else {
            return Ok(made);
        };
        made.push(write_row(alloc, tree, name, flow, current)?)?;
    }
    Ok(made)
}

// The flow that stands at a name, or else the current one. The one error is a refused request for memory.
fn write_row(
    alloc: Global,
    tree: &Tree,
    name: &str,
    flow: Option<&Flow>,
    current: &Flow,
) -> Result<Json, AllocError>
    ensures { IfOk result (λ json. view json ≡ row_in (story_tree tree.now) current.now (name.now, option_map (λ f. f.now) flow.entry)) }
{
    write_named(alloc, tree, name, or_current(flow, current))
}

// A flow that stands aside, or else the current one.
fn or_current<'a>(flow: Option<&'a Flow>, current: &'a Flow) -> &'a Flow
    ensures { result.now ≡ unwrap_or (option_map (λ f. f.now) flow.entry) current.now }
{
    match flow {
        Some(flow) => flow,
        None => current,
    }
}

// A flow with its name. The one error is a refused request for memory.
fn write_named(alloc: Global, tree: &Tree, name: &str, flow: &Flow) -> Result<Json, AllocError>
    ensures { IfOk result (λ json. view json ≡ named_flow_data (name.now, flow_of (story_tree tree.now) flow.now)) }
{
    let mut members = Map::new(alloc);
    add_text(alloc, &mut members, "name", name)?;
    add_flow(alloc, tree, &mut members, flow)?;
    Ok(Json::Object(members))
}

// Puts the members of what a flow has of its own. The one error is a refused request for memory.
fn add_flow(
    alloc: Global,
    tree: &Tree,
    members: &mut Map<String, Json>,
    flow: &Flow,
) -> Result<(), AllocError>
    ensures { OnOk result (members_view members.new.entries ≡ flow_members (flow_of (story_tree tree.now) flow.now) (members_view members.old.entries)) }
{
    add_member(alloc, tree, members, "threads", &flow.threads)?;
    add_member(alloc, tree, members, "stack", &flow.stack)?;
    add_flag(alloc, members, "safe", flow.safe)?;
    add_member(alloc, tree, members, "choices", &flow.choices)
}

// ---- as their text

/// The member with all flows, in order of making. The one error is a refused request for memory.
pub(crate) fn put_flows(
    alloc: Global,
    tree: &Tree,
    out: &mut Writer,
    current: &Flow,
    aside: &Aside,
) -> Result<(), AllocError>
    ensures { let s = story_tree tree.now in
        OnOk result (Added out.old out.new (tokens.key (codes "flows") ∷ data_tokens (list_data named_flow_data (all_flows (flow_of s current.now) (aside_of s aside.now))))) }
{
    put(out, Token::Key("flows"))?;
    put(out, Token::BeginArray)?;
    put_rows(alloc, tree, out, current, aside)?;
    put(out, Token::EndArray)
}

// The tokens of all flows. The one error is a refused request for memory.
fn put_rows(
    alloc: Global,
    tree: &Tree,
    out: &mut Writer,
    current: &Flow,
    aside: &Aside,
) -> Result<(), AllocError>
    ensures { OnOk result (Added out.old out.new (flat_map data_tokens (map (row_in (story_tree tree.now) current.now) aside.now))) }
{
    for index in 0..aside.len() {
        let Some((name, flow)) = aside.get(index) else {
            return Ok(());
        };
        put_row(alloc, tree, out, name, flow, current)?;
    }
    Ok(())
}

// The tokens of the flow that stands at a name, or else of the current one. The one error is a refused request for memory.
fn put_row(
    alloc: Global,
    tree: &Tree,
    out: &mut Writer,
    name: &str,
    flow: Option<&Flow>,
    current: &Flow,
) -> Result<(), AllocError>
    ensures { OnOk result (Added out.old out.new (data_tokens (row_in (story_tree tree.now) current.now (name.now, option_map (λ f. f.now) flow.entry)))) }
{
    put_named(alloc, tree, out, name, or_current(flow, current))
}

// The tokens of a flow with its name. The one error is a refused request for memory.
fn put_named(
    alloc: Global,
    tree: &Tree,
    out: &mut Writer,
    name: &str,
    flow: &Flow,
) -> Result<(), AllocError>
    ensures { OnOk result (Added out.old out.new (data_tokens (named_flow_data (name.now, flow_of (story_tree tree.now) flow.now)))) }
{
    put(out, Token::BeginObject)?;
    put_member(alloc, tree, out, "choices", &flow.choices)?;
    put_text(out, "name", name)?;
    put_flag(out, "safe", flow.safe)?;
    put_member(alloc, tree, out, "stack", &flow.stack)?;
    put_member(alloc, tree, out, "threads", &flow.threads)?;
    put(out, Token::EndObject)
}
