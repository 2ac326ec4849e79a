//! Where a line begins, by a save from before it.

ghost use Rattle.std.specs.Prelude.{◌≡◌, IfOk, option_map};
ghost use Rattle.serde_json.specs.View.{items_view, view};
ghost use Rattle.ink_model.specs.Protocol.Answer.{Reply};
ghost use Rattle.ink_model.specs.Protocol.Command as command;
ghost use Rattle.ink_reader.specs.Course.{TellsPlace};
ghost use Rattle.ink_reader.specs.Deeds.{Gave};
ghost use Rattle.ink_reader.specs.Steps.{whereabouts_told};
ghost use Rattle.ink_reader.specs.Whereabouts.{SavesTellPlaces, current_flow, flow_named, is_named, last_in, last_item, path_of, place_in};

use crate::moves::place_of;
use ink_host::{PureFn, TurnFn, Watcher};
use ink_model::{Part, Path, Seq, Text};
use ink_path::print_path;
use ink_player::Player;
use ink_spelling::Spelled;
use serde_json::Value as Json;
use std::alloc::{AllocError, Global};

/// The path of the place where the next line begins, if it begins at one. A story that broke off has no save, so this is asked
/// before. The one error is that memory was refused.
pub(crate) fn next_path<P: PureFn, F: TurnFn, O: Watcher>(
    alloc: Global,
    player: &Player<P, F, O>,
) -> Result<Option<Text>, AllocError>
    ensures { (place : Reply) × TellsPlace place (whereabouts_told result) × Gave P.meaning F.log F.refusals O.state player.now command.Save place player.now }
{
    match place_of(player) {
        Ok(save) => flow_path(alloc, &save),
        Err(_) => Err(AllocError),
    }
}

// The path of the place where the current flow of a save stands, if it stands at one. The one error is a refused request for memory.
fn flow_path(alloc: Global, save: &Json) -> Result<Option<Text>, AllocError>
    ensures { IfOk result (λ path. path ≡ path_of (view save.now)) }
{
    let Some(place) = flow_place(save) else {
        return Ok(None);
    };
    let Some(parts) = Seq::<Part>::read::<&Json>(alloc, place)? else {
        return Ok(None);
    };
    let path = Path {
        relative: false,
        parts,
    };
    Ok(Some(print_path(alloc, &path)?))
}

// The place of its top frame.
fn flow_place(save: &Json) -> Option<&Json>
    ensures { option_map (λ j. view j.now) result ≡ place_in (view save.now) }
{
    let flow = current_flow(save)?;
    let thread = last_in(flow, "threads")?;
    let frame = last_in(thread, "frames")?;
    frame.get("place")
}

// The current flow.
fn current_flow(save: &Json) -> Option<&Json>
    ensures { option_map (λ j. view j.now) result ≡ current_flow (view save.now) }
{
    let name = save.get("current")?.as_str()?;
    let flows = save.get("flows")?.as_array()?;
    flow_named(flows.as_slice(), name)
}

fn flow_named<'a>(flows: &'a [Json], name: &str) -> Option<&'a Json>
    ensures { option_map (λ j. view j.now) result ≡ flow_named name.now (items_view flows.now) }
{
    for flow in flows {
        if is_named(flow, name) {
            return Some(flow);
        }
    }
    None
}

fn is_named(flow: &Json, name: &str) -> bool
    ensures { result ≡ is_named name.now (view flow.now) }
{
    match flow.get("name").and_then(Json::as_str) {
        Some(found) => name == found,
        None => false,
    }
}

// The last of the list in a member.
fn last_in<'a>(json: &'a Json, key: &str) -> Option<&'a Json>
    ensures { option_map (λ j. view j.now) result ≡ last_in key.now (view json.now) }
{
    let items = json.get(key)?.as_array()?;
    last_item(items.as_slice())
}

fn last_item(items: &[Json]) -> Option<&Json>
    ensures { option_map (λ j. view j.now) result ≡ last_item (items_view items.now) }
{
    items.last()
}

/// A save that a player gives tells the place where the player stands: a law of the definitions alone.
pub fn saves_tell_places()
    ensures { SavesTellPlaces }
{}
