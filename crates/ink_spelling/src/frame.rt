//! Frames.

ghost use Rattle.std.specs.Prelude.{◌≡◌, IfOk, OnErr, true};
ghost use Rattle.ink_model.specs.Save.Asks.{frame_asks, frame_asks_by, none_asks};
ghost use Rattle.ink_model.specs.Save.Unspelled.{frame_by, frame_of, kind_by, kind_of};

use crate::members::{alone, next_spelled};
use crate::spelled::Spelled;
use crate::temps::SavedTemps;
use ink_model::{FrameKind, Part, Seq};
use json_tape::{Json, Kind};
use std::alloc::{AllocError, Global};
use std::marker::Model;

/// A frame as it is spelled. A contract sees the frame, without the number of an Enter.
#[derive(Drop)]
pub struct SavedFrame {
    pub kind: FrameKind,
    pub place: Option<Seq<Part>>,
    pub temps: SavedTemps,
    pub evaluating: bool,
    pub fresh: bool,
    pub depth: u64,
}

impl Model for SavedFrame {
    ghost use Rattle.std.specs.Prelude.{List, None};
    ghost use Rattle.ink_model.specs.Flow.Frames.{FrameOf};
    ghost use Rattle.ink_model.specs.declared.place.Part.{Part};

    ghost Value = { FrameOf (List Part) };

    ghost view = { λ f. record { kind = f.kind; place = f.place; temps = f.temps; evaluating = f.evaluating; fresh = f.fresh; depth = f.depth; enter = None } };
}

impl Spelled for SavedFrame {
    ghost spelled = { λ j. frame_of j };

    ghost asks = { λ j. frame_asks j };

    fn read<J: Json>(alloc: Global, json: J) -> Result<Option<SavedFrame>, AllocError> {
        match json.kind() {
            Kind::Object(members) => read_members::<J>(alloc, members),
            Kind::Null | Kind::Bool(_) | Kind::Number(_) | Kind::String(_) | Kind::Array(_) => {
                Ok(None)
            }
        }
    }
}

// The frame that members spell. The one error is a refused request for memory.
fn read_members<J: Json>(
    alloc: Global,
    members: J::Members,
) -> Result<Option<SavedFrame>, AllocError>
    ensures found { IfOk result (λ frame. frame ≡ frame_by (J.members members)) }
    ensures memory { OnErr result (frame_asks_by (J.members members) ≡ true) }
{
    let mut rest = members;
    let Some(depth) = next_spelled::<J, u64>(alloc, &mut rest, "depth")? else {
        return Ok(None);
    };
    let Some(evaluating) = next_spelled::<J, bool>(alloc, &mut rest, "eval")? else {
        return Ok(None);
    };
    let Some(fresh) = next_spelled::<J, bool>(alloc, &mut rest, "fresh")? else {
        return Ok(None);
    };
    let Some(kind) = next_spelled::<J, FrameKind>(alloc, &mut rest, "kind")? else {
        return Ok(None);
    };
    let Some(place) = next_spelled::<J, Option<Seq<Part>>>(alloc, &mut rest, "place")? else {
        return Ok(None);
    };
    let Some(temps) = next_spelled::<J, SavedTemps>(alloc, &mut rest, "temps")? else {
        return Ok(None);
    };
    let frame = SavedFrame {
        kind,
        place,
        temps,
        evaluating,
        fresh,
        depth,
    };
    Ok(alone::<J, _>(&mut rest, frame))
}

impl Spelled for FrameKind {
    ghost spelled = { λ j. kind_of j };

    ghost asks = { λ j. none_asks j };

    fn read<J: Json>(_alloc: Global, json: J) -> Result<Option<FrameKind>, AllocError> {
        match json.kind() {
            Kind::String(text) => Ok(kind_by(text)),
            Kind::Null | Kind::Bool(_) | Kind::Number(_) | Kind::Array(_) | Kind::Object(_) => {
                Ok(None)
            }
        }
    }
}

// What a frame was pushed for, by its word.
fn kind_by(word: &str) -> Option<FrameKind>
    ensures { result ≡ kind_by word.now }
{
    if word == "base" {
        Some(FrameKind::Base)
    } else if word == "function" {
        Some(FrameKind::Function)
    } else if word == "tunnel" {
        Some(FrameKind::Tunnel)
    } else {
        None
    }
}
